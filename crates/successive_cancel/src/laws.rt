//! Laws of cancellation rounds.

ghost use Rattle.successive_cancel.specs.Clean.{CleanCellIsTakenFirst, LoadedCellIsTakenFirst, CleanCellIsTakenNext};
ghost use Rattle.successive_cancel.specs.Laws.{RoundsInPlainWords};

use cancel::{answer_leaves_errors, some_answer};
use clean_air::{one_plan, open_places_are_silent, sent_entry_has_plan};

/// A law: at most four rounds cancel a cell, each from the previous list. If there are fewer than four, no entry in the
/// last list can be cancelled, and `ended` is true; otherwise `ended` is false.
pub fn rounds_in_plain_words()
    ensures { RoundsInPlainWords }
{}

/// A law: the first round in a clean recording cancels its cell or a cell listed before it, and so does each later
/// round after a clean residual. The crate's documentation bounds the residuals. (own)
pub fn clean_cell_is_taken_first()
    ensures clean { CleanCellIsTakenFirst }
    ensures loaded { LoadedCellIsTakenFirst }
    ensures later { CleanCellIsTakenNext }
{
    one_plan();
    sent_entry_has_plan();
    open_places_are_silent();
    some_answer();
    answer_leaves_errors();
}

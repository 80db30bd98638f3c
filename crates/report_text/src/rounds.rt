//! The text of interference cancellation.

ghost use Rattle.std.specs.Prelude.{◌≡◌, ℕ, List, IfOk, string_bytes};
ghost use Rattle.report_text.specs.Rounds.{round_text, rounds_text, IsCancelText};

use crate::cancelled::{text_of_cancelled, text_of_cancelled_none};
use crate::each::{ToLines, add_lines};
use crate::listing::text;
use explain::Workspace;
use report_parts::power_word;
use sample_file::Recording;
use std::alloc::{AllocError, Global};
use successive_cancel::{Round, Rounds, cancel_rounds};

/// Returns the text of interference cancellation: the recording's cell list, each round's lines and list, and
/// `cancelled none` if the last round found no cell to cancel. Fails only if an allocation fails. (own)
pub fn cancel_text(alloc: Global, recording: &Recording) -> Result<String, AllocError>
    ensures { IfOk result (λ text. IsCancelText recording.now (string_bytes text)) }
{
    let mut work = Workspace::new(alloc)?;
    let rounds = cancel_rounds(alloc, recording, &mut work)?;
    text_of_rounds(alloc, &rounds)
}

/// Returns the text of `rounds`, as in `cancel_text`. Fails only if an allocation fails. (own)
pub fn text_of_rounds(alloc: Global, rounds: &Rounds) -> Result<String, AllocError>
    ensures { IfOk result (λ text. string_bytes text ≡ rounds_text rounds.now) }
{
    let mut all = text(alloc, rounds.first.slice())?;
    add_lines(alloc, &rounds.taken, &mut all)?;
    if rounds.ended {
        let line = text_of_cancelled_none(alloc)?;
        all.push_str(&line)?;
    }
    Ok(all)
}

// The lines for the cancelled cell, then the cell list of the residual.
impl ToLines for Round {
    ghost lines_of = { round_text };

    fn to_lines(&self, alloc: Global) -> Result<String, AllocError> {
        let taken = &self.taken;
        let powers = (power_word(taken.before), power_word(taken.after));
        let id = self.id.value();
        let mut lines = text_of_cancelled(alloc, id, taken.gain(), taken.greatest, powers)?;
        let list = text(alloc, self.list.slice())?;
        lines.push_str(&list)?;
        Ok(lines)
    }
}

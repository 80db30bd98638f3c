//! Why a cell identity is in a recording's cell list or not: the first rule that fails, with its numbers.
#![tactic(auto)]

mod attempts;
mod failing;
mod laws;
mod reason;
mod reasons;
mod strongest;

pub use laws::{reasons_in_plain_words, the_first_frames_decide_the_reasons};
pub use reason::{Attempt, EarlyHit, ListedCell, OtherCell, Reason, StrongestPlace, UnreadCell};
pub use reasons::reasons_by;

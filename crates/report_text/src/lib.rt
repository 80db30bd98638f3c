//! Text reports: the cell list, PSS detections (hits), evidence, answers to certificates, interference cancellation,
//! and the frequency offset estimate. `docs/FORMATS.md` describes their lines.
//!
//! Tests: the crates `sent_tests`, in `texts.rt`, `list_tests`, in `estimate.rt` and `rounds_of_recordings.rt`, and
//! `top_tests`.
#![tactic(auto)]

mod all;
mod answers;
mod cancelled;
mod each;
mod hits;
mod laws;
mod lines;
mod listing;
mod made;
mod offset;
mod parts;
mod rounds;
mod supports;
mod words;

pub use all::{text_of_all, text_of_ruled};
pub use answers::text_of_answers;
pub use cancelled::{text_of_cancelled, text_of_cancelled_none};
pub use hits::{text_of_hits, text_of_ids};
pub use laws::{listed_lines_stand, one_cancel_text};
pub use listing::text;
pub use made::line_of_made;
pub use offset::tell_text;
pub use rounds::{cancel_text, text_of_rounds};
pub use supports::text_of_evidence;

//! JSON reports: the cell list, PSS detections (hits), evidence, interference cancellation, and the frequency offset
//! estimate. Each report is one line without a line feed, and the keys of each object are in byte order.
//!
//! Tests: the crates `sent_tests`, in `texts.rt`, and `top_tests`, where commands have `--json`.
#![tactic(auto)]

mod all;
mod cells;
mod hits;
mod laws;
mod named;
mod offset;
mod rounds;
mod supported;
mod supports;
mod values;

pub use all::json_of_all;
pub use cells::json;
pub use hits::{json_of_hits, json_of_ids};
pub use laws::one_cancel_json;
pub use offset::tell_json;
pub use rounds::{cancel_json, json_of_rounds};
pub use supported::{SupportedList, json_of_supported};
pub use supports::json_of_evidence;

//! Reception and transmission with the extended cyclic prefix, up to the MIB: a plan's samples, numbered synthetic
//! recordings, and the cell list, which contains every cell with clean reception (TS 36.211 sections 6.6, 6.10.1, 6.11
//! and 6.12).
//!
//! Tests: `list_tests/src/extended_prefix.rt`.
#![tactic(auto)]

mod listing;
mod made;
mod plan;
mod reading;
mod sending;

pub use explain::Workspace as Workspace3;
pub use listing::{explain_clean, faithful_cells_are_heard};
pub use made::{LongMade, made_is_clean, make};
pub use plan::LongPlan;
pub use reading::{ExtendedPrefix, LongFrame, long_frame};
pub use sending::sample;

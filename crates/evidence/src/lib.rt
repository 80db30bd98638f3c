//! Measurements that support a listed cell: its PSS detection, its MIB's soft values and their room, and its received
//! reference signals. With clean reception the measurements show cost 0, a PSS fraction of at least 0.999 and little noise.
//!
//! Tests: `top_tests/src/evidence_of_cells.rt`.
#![tactic(auto)]

mod clear;
mod listing;
mod measured;
mod noise;
mod receivers;
mod slot;
mod support;

pub use clear::clean_entries_are_clear;
pub use listing::evidence_of_list;
pub use measured::Measured;
pub use slot::SlotShown;
pub use support::{Support, set_blocks, support_of_list};

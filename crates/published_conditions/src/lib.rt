//! Checks that published preconditions do not become stronger, and that the order of published variants does not
//! change. If a call's precondition is a definition of the call's crate, it is called here under a precondition written
//! in numbers.
//!
//! Tests: none of its own; its proofs are the test.
#![tactic(auto)]

mod conditions;
mod listed;
mod orders;
mod outside;

pub use conditions::{
    carried, coded, combined, decoded, first_group, halved, indication, information, later_group,
    resolved, row_at, sent_bit, shared_point_of_three, shared_point_of_two, slot_of, written,
};
pub use listed::{grant_at, values_at};
pub use orders::{bandwidths, cell_errors, durations, file_errors, halves, resources};
pub use outside::{Discarded, NoInput};

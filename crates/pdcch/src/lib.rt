//! The PDCCH candidate in the common search space at aggregation level 4: the soft values of the first four control
//! channel elements (CCE) of a subframe (TS 36.211 section 6.8, TS 36.213 section 9.1.1).
//! Tests: the crate `slot_tests`.
#![tactic(auto)]

mod search_space;

pub use search_space::{candidate, elements};

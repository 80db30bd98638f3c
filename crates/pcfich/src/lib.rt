//! The control format indicator of a subframe: the PCFICH soft values, and the indicator that is decoded from them (TS
//! 36.211 section 6.7, TS 36.212 section 5.3.4).
//! Tests: the crate `slot_tests`.
#![tactic(auto)]

mod least;
mod values;

pub use least::{cfi, indicator, only_one_indicator};

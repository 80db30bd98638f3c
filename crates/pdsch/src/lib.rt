//! The soft values of the physical downlink shared channel (PDSCH) that carries SystemInformationBlockType1, in
//! subframe 5 (TS 36.211 sections 6.3.1 and 6.4).
//! Tests: the crate `slot_tests`.
#![tactic(auto)]

mod block;

pub use block::{MOST_VALUES, values};

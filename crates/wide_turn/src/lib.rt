//! Frequency correction of recordings at 1.92 * 2^r million samples per second, r from 0 to 4, by a given offset or by the
//! one that is estimated at 1.92 million. Offsets are in steps of 117.1875 Hz.
//!
//! Tests: the crate `wide_tests`.
#![tactic(auto)]

mod estimated;
mod laws;
mod turning;

pub use estimated::applied;
pub use laws::turned_wide;
pub use turning::turned;

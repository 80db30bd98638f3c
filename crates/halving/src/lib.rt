//! Decimation: recordings at 1.92 * 2^r million samples per second, r from 0 to 4, and their conversion to 1.92 million
//! by a half-band filter.
//! Tests: the crate `wide_tests`.
#![tactic(auto)]

mod filter;
mod wide;

pub use filter::halve;
pub use wide::{WideRecording, narrowed};

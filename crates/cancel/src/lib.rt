//! Interference cancellation: subtracts a detected cell from a recording, with the gain at which it was received.
//!
//! The gain is estimated by correlation with the PSS. Candidates have a magnitude from 1 to 28 and a distance up to 2
//! from the estimate. The candidate with the smallest residual is used, where a residual counts by its largest
//! component magnitude. Among equals, the candidate with the lowest real part is used, and then the one with the lowest
//! imaginary part.
//!
//! In a clean recording, the samples are the cell's samples times a gain, with each component off by at most twice the
//! gain's magnitude. The residual then does not exceed the error bound (`clean`). If the cell also carries load, the
//! residual does not exceed the residual for the true gain, provided that the true gain's residual is at most 32,767
//! (`loaded`).
//!
//! Tests: the crate `list_tests`, in `taken_off.rt`.
#![tactic(auto)]

mod choosing;
mod estimating;
mod laws;
mod leaving;
mod subtracted;
mod taking;

pub use laws::{answer_leaves_errors, best_candidate_is_one, clean_gain_is_candidate, some_answer};
pub use subtracted::Subtracted;
pub use taking::{power_of, subtract, subtract_from};

//! Successive interference cancellation: cancels listed cells one after the other, and searches each residual again.
//!
//! If a recording is clean for a cell that can be sent, the first round cancels this cell or a cell listed before it.
//! If it cancels this cell, no component of the residual exceeds the noise bound (`clean`). If the cell also carries
//! load, the residual does not exceed the residual for the true gain, provided that the true gain's residual is at most
//! 32,767 (`loaded`). The same holds for a later round if the previous residual is clean (`later`).
//!
//! Tests: the crate `list_tests`, in `rounds_of_recordings.rt`.
#![tactic(auto)]

mod laws;
mod making;
mod round;

pub use laws::{clean_cell_is_taken_first, rounds_in_plain_words};
pub use making::cancel_rounds;
pub use round::{Round, Rounds};

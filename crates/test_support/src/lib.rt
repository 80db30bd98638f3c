//! Test fixtures shared by the test crates: signals, recordings, grids, descriptions and system information. Contracts
//! state only what a test needs.
//!
//! Tests: none of its own; every crate of tests uses it.
#![tactic(auto)]

mod bits;
mod bytes;
mod descriptions;
mod grids;
mod samples;
mod signals;
mod summaries;
mod system_information;

pub use bits::bits_of;
pub use bytes::{add_errors, certificate_of_zeros, oppose, put, put_sample, silence};
pub use descriptions::{PLAIN_KEYS, PLAIN_REPORT, description};
pub use grids::{EMPTY, Rows, WIDE, grid_of, level, point_of, primary_grid, secondary_grid};
pub use samples::{
    are_samples, put_rows, put_signals, put_symbol, send_often, silent, silent_recording, wide_cell,
};
pub use signals::{PRIMARY, SECONDARY, put_signal, write_signal};
pub use summaries::{Summary, has_sums, is_summed_up};
pub use system_information::{information, message, plain_block};

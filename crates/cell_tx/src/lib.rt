//! The transmitter of a cell, for each transmission scheme: the samples of the endless frame sequence that the cell's
//! resource grid produces, at one antenna port or summed over all ports (TS 36.211 section 6.12).
//!
//! Tests: the crate `sent_tests`, in `transmissions.rt` and `emissions.rt`.
#![tactic(auto)]

mod emitter;
mod frame_symbols;
mod laws;
mod samples;
mod source;
mod useful;

pub use cell_grid::Port;
pub use cell_plan::{Cell, CellError, CellPlan, Emission, Transmission};
pub use emitter::{Emitter, emit};
pub use laws::{frames_stand, sent_is_clean, sizes, sum_is_clean, symbols_stand};
pub use samples::{Sender, frame, port_sample, sample, send, send_all, sequence};

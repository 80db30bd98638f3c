//! Recordings: reading samples from a source of bytes into memory, and writing samples to a sink.
//! Tests: the crates `low_tests` and `fault_tests`.
#![tactic(auto)]

mod form;
mod pieces;
mod reading;
mod recording;
mod writing;

pub use form::SampleForm;
pub use pieces::PieceWriter;
pub use reading::{FileError, read_as, read_cu8, read_front, read_front_at, read_recording};
pub use recording::Recording;
pub use writing::{bytes_are_read_back, bytes_of, write_samples};

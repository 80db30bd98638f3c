//! The MIB from the broadcast channel's soft values, added over up to 17 frames of several periods of 40 ms: the sums,
//! how many of their signs match, and the choice among port counts, phases and frame numbers.
//! Tests: the crate `added_tests`.
#![tactic(auto)]

mod choice;
mod counting;
mod decoding;
mod laws;
mod master;
mod signs;
mod sums;

pub use choice::master_of_frames;
pub use decoding::decode_added;
pub use laws::{coincidences_are_rare, one_answer};
pub use master::AddedMaster;
pub use signs::count_matches;
pub use sums::{added_sums, period_sums};

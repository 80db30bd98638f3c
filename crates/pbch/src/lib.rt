//! PBCH decoding: the soft values in one to four frames, combined by coded bit, and the MIB (master block) decoded from
//! them (TS 36.211 section 6.6, TS 36.212 section 5.3.1).
//! Tests: the crate `slot_tests`.
#![tactic(auto)]

mod block;
mod broadcast;
mod by_phase;
mod frame;
mod laws;
mod master;
mod scrambling;
mod word_sums;

pub use broadcast::{received, sums_of, values};
pub use by_phase::{ByPhase, explain_slots, master_of, masters, total_of};
pub use frame::Received;
pub use laws::at_most_one_master;
pub use master::Master;
pub use scrambling::CellScrambling;
pub use word_sums::WordSums;

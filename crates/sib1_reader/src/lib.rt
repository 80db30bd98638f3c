//! Reading SystemInformationBlockType1 from subframe 5 of one frame: the control format indicator, the control
//! information in the common search space, the transport block that it assigns, and the fields (TS 36.211 section 6, TS
//! 36.212 section 5.3, TS 36.213 sections 7.1 and 9.1.1, TS 36.331 section 6.2.2).
//! Tests: the crate `slot_tests`.
#![tactic(auto)]

mod block;
mod control;
mod decoders;
mod laws;
mod reading;

pub use block::{block_of, fields_of};
pub use control::{grant_of, granted};
pub use decoders::Decoders;
pub use laws::one_answer;
pub use reading::{Attempt, Decoded, attempt_in, decoded_in, read};

//! The control channels of subframe 5 at any bandwidth, 6 to 100 resource blocks, with one, two or four antenna ports:
//! the control format indicator, and the grants of SystemInformationBlockType1 in the common search space, in DCI
//! formats 1A and 1C (TS 36.212 sections 5.3.3 and 5.3.4, TS 36.213 section 9.1.1).
//! Tests: the crate `wide_tests`.
#![tactic(auto)]

mod control;
mod format;
mod laws;
mod values;
mod word;

pub use control::{Control, control_in};
pub use format::DciFormat;
pub use laws::one_control;
pub use word::offer;

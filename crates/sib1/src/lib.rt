//! SystemInformationBlockType1 in unaligned PER (TS 36.331 section 6.2.2, ITU-T X.691), decoded and encoded by one
//! grammar, `specs/Layout.antt`.
//! Tests: the crate `code_tests`.
#![tactic(auto)]

mod laws;
mod read_plmns;
mod read_schedule;
mod reading;
mod write_plmns;
mod write_schedule;
mod writing;

pub use laws::texts_and_bits;
pub use reading::read;
pub use writing::write;

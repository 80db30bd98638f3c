//! DCI format 1A for SystemInformationBlockType1 in a cell with six resource blocks: decoding and encoding of grants
//! (TS 36.212 section 5.3.3.1.3, TS 36.213 section 7.1).
//! Tests: the crate `code_tests`.
#![tactic(auto)]

mod assignment;
mod grant;
mod reading;
mod sizes;
mod writing;

pub use assignment::{assignments_used_once, riv};
pub use grant::{Grant, grants_and_bits};
pub use reading::read;
pub use sizes::size;
pub use writing::write;

/// The SI-RNTI (TS 36.321 section 7.1), which masks the CRC when DCI grants system information, and enters the
/// scrambling of the granted PDSCH.
pub const SI_RNTI: u16 = 0xffff;

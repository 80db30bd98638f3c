//! Bits: fixed-length bit words, conversion between bits and numbers, LTE's CRCs (TS 36.212 section 5.1.1), and the
//! cost of a bit, given a soft value.
//! Tests: the crates `low_tests` and `code_tests`.
#![tactic(auto)]

mod crc;
mod number;
mod sign;
mod word;

pub use crc::{crc16, crc24a, has_check_24};
pub use number::{number_of, put_number};
pub use sign::disagreement_of;
pub use word::Bits;

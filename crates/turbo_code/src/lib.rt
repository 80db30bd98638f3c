//! The LTE turbo code, with rate 1/3 (TS 36.212 sections 5.1.3.2 and 5.1.4.1): block sizes, the encoder and its
//! states, rate matching, and the sums of received values by coded bit.
//! Tests: the crate `code_tests`.
#![tactic(auto)]

mod encoder;
mod laws;
mod machine;
mod matching;
mod rows;

pub use encoder::{Coded, encode, interleaver};
pub use laws::{reading_is_whole, rows_permute};
pub use machine::{before, bit_to, next, parity_bit, register, tail_bit, tail_parity};
pub use matching::{Combined, combine, match_all, match_out};
pub use rows::{Row, further_row_of, row_of};

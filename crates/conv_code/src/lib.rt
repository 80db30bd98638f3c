//! LTE's rate 1/3 tail-biting convolutional code (TS 36.212 section 5.1.3.1) and its rate matching (section
//! 5.1.4.2): encoding, the cyclic bit order, and combining soft values by index. A word has 6 to 64 bits.
//! Tests: the crate `code_tests`.
#![tactic(auto)]

mod cost;
mod encoder;
mod laws;
mod matching;

pub use cost::against;
pub use encoder::encode;
pub use laws::{codewords_determine_words, reading_permutes};
pub use matching::{combine, combine_from, match_out, stream_index};

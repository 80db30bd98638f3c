//! The transport block of a grant at any bandwidth, 6 to 100 resource blocks: the sums of its soft values by coded bit,
//! in one frame or added over several, the decoded block, and SIB1's fields (TS 36.211 section 6.4, TS 36.212 section
//! 5.3.2).
//! Tests: the crate `wide_tests`.
#![tactic(auto)]

mod block;
mod laws;
mod row;
mod sums;
mod table;
mod total;
mod values;

pub use block::{SystemBlock, fields_of};
pub use laws::{blocks_have_rows, one_answer};
pub use sums::{GrantSums, sums_of};
pub use total::Total;

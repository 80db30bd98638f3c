//! SIB1 of the cells in a list, from a recording at up to 30.72 million samples per second: from single frames, and from
//! the frames of one period of 80 ms together.
//! Tests: the crate `wide_tests`.
#![tactic(auto)]

mod alone;
mod found;
mod informing;
mod laws;
mod offers;
mod system;
mod together;
mod tried;
mod work;

pub use found::FoundCell;
pub use informing::{inform, inform_with_blocks};
pub use laws::{one_system_block, one_wide_list, one_wide_system};
pub use system::system_in;
pub use work::WideWork;

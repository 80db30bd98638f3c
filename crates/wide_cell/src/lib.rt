//! Cells of any bandwidth, 6 to 100 resource blocks, with one, two or four antenna ports; their resource elements, and
//! the recording rates at which they can be received (TS 36.211 section 6.2).
#![tactic(auto)]

mod cell;
mod place;
mod rate;

pub use cell::WideCell;
pub use place::WidePlace;
pub use rate::{fits_rate, points};

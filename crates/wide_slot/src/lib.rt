//! Channel estimation and demapping for cells of any bandwidth with one, two or four antenna ports: a slot's channels
//! from smoothed reference signals, and the soft values of resource elements, descrambled.
//! Tests: the crate `wide_tests`.
#![tactic(auto)]

mod amplitude;
mod layout;
mod line;
mod pilots;
mod places;
mod scrambling;
mod slot;
mod symbol;
mod value;
mod weights;

pub use places::soft_values;
pub use scrambling::descrambled;
pub use slot::WideSlot;
pub use weights::{Weights, smoothing_is};

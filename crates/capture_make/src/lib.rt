//! Synthetic recordings: for each 32-bit number and transmission scheme, a recording with the samples of one cell and
//! with errors, by one recipe.
//!
//! Tests: the crate `sent_tests`, in `made_recordings.rt`.
#![tactic(auto)]

mod errors;
mod made;
mod recipe;

pub use made::{Made, MadeBy, made_is_clean, make, make_by, numbers_are_clean};
pub use recipe::{gain, gains, plan, timing};

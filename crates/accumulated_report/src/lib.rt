//! Cells that are detected over many half-frames, as text and as JSON.
//!
//! Tests: the crate `top_tests`, in `deep.rt`.
#![tactic(auto)]

mod fields;
mod json;
mod text;

pub use json::json_of_accumulated;
pub use text::text_of_accumulated;

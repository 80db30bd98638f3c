//! The reasons why a cell identity is in a cell list, or is not, as text and as JSON.
//!
//! Tests: the crate `top_tests`, in `why.rt`.
#![tactic(auto)]

mod fields;
mod json;
mod text;
mod words;

pub use json::json_of_reasons;
pub use text::text_of_reasons;

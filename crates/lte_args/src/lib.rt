//! Command-line parsing for `lte_cli` and `lte_tune`: from arguments to a command form.
//!
//! Tests: `top_tests/src/usage.rt` and the other commands in the crate `top_tests`.
#![tactic(auto)]

mod form;
mod numbers;
mod parts;
mod words;

pub use form::{Form, Lists, Output, Page, Program, Rate, RecordingForm, Report, Rule, Span, Turn};
pub use words::Words;

//! Parts that the text and JSON reports share: the words for digits, bits and rules, the named numbers in a cell's
//! evidence, and fields, from which both a line of text and a JSON object are built.
//!
//! Tests: the crates `sent_tests`, in `texts.rt`, and `top_tests`, in `evidence_of_cells.rt`.
#![tactic(auto)]

mod fields;
mod laws;
mod numbers;
mod value;
mod words;

pub use fields::{Field, json_of_fields, line_of_fields, object};
pub use laws::{ascending_fields_stand_in_order, names_of_objects_ascend};
pub use numbers::{Named, numbers_in, place_in};
pub use value::Value;
pub use words::{digits_word, hex_word, mnc_word, power_word, rule_word};

//! The cell list as text and as JSON, under the published names. All reports are in `report_text` and `report_json`.
//!
//! Tests: the crate `published_calls`, in `texts.rt`.
#![tactic(auto)]

pub use report_json::json;
pub use report_text::text;

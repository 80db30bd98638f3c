//! PSS detections (hits) with details: the physical cell identity and frame start that the SSS gives, the ranking of
//! its pairs of group and half-frame, and the metric's three numbers.
//!
//! Tests: the crates `sent_tests`, in `texts.rt`, and `top_tests`, in `hits.rt` and `ids.rt`.
#![tactic(auto)]

mod hits;
mod identifying;
mod measuring;

pub use hits::{IdentifiedHit, MeasuredHit, MeasuredId};
pub use identifying::identified_hits;
pub use measuring::{measured_hits, measured_ids};

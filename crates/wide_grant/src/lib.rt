//! Downlink grants of SystemInformationBlockType1 at any bandwidth, 6 to 100 resource blocks: DCI format 1A, localized
//! and distributed, and format 1C (TS 36.212 section 5.3.3.1, TS 36.213 section 7.1).
//! Tests: the crate `wide_tests`.
#![tactic(auto)]

mod allocated;
mod distributed;
mod fields;
mod format_1a;
mod format_1c;
mod grant;
mod laws;
mod run;
mod sizes;

pub use allocated::allocated_blocks;
pub use format_1a::{bits_1a, grant_1a};
pub use format_1c::{bits_1c, grant_1c};
pub use grant::{Mapping, Refusal, WideGrant};
pub use laws::{blocks_are_distributed, runs_have_values};
pub use run::Run;

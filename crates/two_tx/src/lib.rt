//! A cell with two antenna ports: the plans that can be sent, each port's samples, and synthetic recordings (TS 36.211
//! sections 6.3.3.3 and 6.3.4.3).
//!
//! Tests: the crate `sent_tests`, in `two_antenna_ports.rt`.
#![tactic(auto)]

mod cell;
mod made;
mod sending;

pub use cell::Cell2;
pub use made::{TwoMade, made_is_clean, make};
pub use sending::sample;

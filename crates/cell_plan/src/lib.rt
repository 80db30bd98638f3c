//! Cells that can be sent: plans with their conditions, the transport block of SIB1, and the timing, sample count and
//! gains of a transmission (TS 36.212 section 5.3.2, TS 36.213 section 7.1.7, and own).
//!
//! Tests: `sent_tests/src/transmissions.rt`.
#![tactic(auto)]

mod cell;
mod emission;
mod error;
mod laws;
mod pair;
mod transmission;
mod transport;

pub use cell::{Cell, CellPlan};
pub use emission::Emission;
pub use error::CellError;
pub use laws::{accepted_are_sendable, gains_are_together};
pub use pair::{gain_of_pair, pair_of};
pub use transmission::Transmission;

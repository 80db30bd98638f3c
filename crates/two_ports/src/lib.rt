//! The receiver for cells with two antenna ports and transmit diversity (TS 36.211 section 6.3.4.3). Its list contains
//! every cell with clean reception, since a pair's soft values have the signs of the sent bits.
//!
//! Tests: `list_tests/src/two_antenna_ports.rt`.
#![tactic(auto)]

mod clean;
mod frames;
mod laws;

pub use clean::explain_clean;
pub use explain::Workspace as Workspace2;
pub use frames::{PairSlot, TwoPorts};
pub use laws::{faithful_cells_are_heard, pair_values_speak_for_the_sent_bits};

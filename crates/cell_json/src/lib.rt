//! JSON descriptions of a cell's transmission, for each transmission scheme.
//!
//! With two antenna ports, a description has one more key than with one port, and with four ports three more: the gains
//! of the further ports. The gains must be a clean recording's (`AreGainsOf`), except that with four ports a transmit
//! diversity pair may be weak. If a key occurs twice, the last value counts.
//!
//! If several conditions fail, the first in this order is reported: `Form`, `Sfn`, `Offset`, `Samples`, `Gain`,
//! `Sib1Range`, then the conditions of `Cell::of`.
//!
//! Tests: the crate `sent_tests`, in `descriptions.rt` and `emissions.rt`.
#![tactic(auto)]

mod description;
mod error;
mod form;
mod information;
mod kinds;
mod reading;

pub use error::JsonError;
pub use reading::{read, read_by};

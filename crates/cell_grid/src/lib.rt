//! The resource grid of a transmitted cell: the value at each resource element in a frame, for each transmission
//! scheme.
//!
//! A grid holds synchronisation signals, reference signals and PBCH. Except with the extended cyclic prefix or four
//! antenna ports, it also holds PCFICH, PDCCH and the PDSCH with SystemInformationBlockType1 (TS 36.211 section 6). All
//! other resource elements are empty or carry load (own).
//!
//! Tests: the crate `sent_tests`, through `cell_tx`.
#![tactic(auto)]

mod antenna;
mod bits;
mod block;
mod channels;
mod control;
mod grid;
mod layout;
mod load;
mod points;
mod shared;

pub use antenna::Port;
pub use grid::{Signals, grid_of};
pub use layout::{Carried, Layout, Versions, carried_of, layout_of, versions_of};

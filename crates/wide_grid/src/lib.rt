//! Resource element mapping at any bandwidth, 6 to 100 resource blocks, with one, two or four antenna ports: where
//! PCFICH, PDCCH candidates and PDSCH are in subframe 5 (TS 36.211 section 6).
//! Tests: the crate `wide_tests`.
#![tactic(auto)]

mod candidate;
mod control;
mod group;
mod pdcch;
mod pdsch;
mod phich;

pub use candidate::{CANDIDATES, Candidate, candidate_places, candidates_are, has_candidate};
pub use control::{pcfich_groups, pcfich_places};
pub use group::{WideReg, control_symbols};
pub use pdcch::{pdcch_groups, quadruplet_groups};
pub use pdsch::pdsch_places;
pub use phich::phich_groups;

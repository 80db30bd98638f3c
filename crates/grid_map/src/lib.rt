//! Resource element mapping: where PBCH, PCFICH, PHICH, PDCCH and PDSCH are in a subframe of six resource blocks,
//! with 14 symbols and 72 subcarriers, and how they are scrambled (TS 36.211 section 6).
//! Tests: the crates `code_tests` and `slot_tests`.
#![tactic(auto)]

ghost use Rattle.std.specs.Prelude.{◌≡◌, ◌<◌};
ghost use Rattle.grid_map.specs.Place.{skipping};

mod broadcast;
mod candidate;
mod control;
mod group;
mod interleaver;
mod laws;
mod long_broadcast;
mod scrambling;
mod shared;

pub use broadcast::{pbch, pbch_order, pbch_places};
pub use candidate::{candidate_places, quadruplets_carried};
pub use control::{control_groups, pcfich, pcfich_places, pdcch, phich_symbol};
pub use group::{places_of_groups, reg_places};
pub use interleaver::{quadruplet, quadruplets_permute};
pub use laws::control_places;
pub use long_broadcast::long_places;
pub use scrambling::{indicator_bit, pbch_c_init, pcfich_c_init, pdcch_c_init, pdsch_c_init};
pub use shared::{block_places, block_places_are, pdsch, shared_count, shared_order, shared_place};

/// A resource element of a subframe (TS 36.211 section 6.2.2).
#[derive(Clone, Copy, Debug, PartialEq, Eq)]
pub struct Place {
    /// The symbol, 0 to 13.
    pub symbol: u8,
    /// The subcarrier, 0 to 71.
    pub k: u8,
}

/// A resource-element group (REG): four resource elements in a symbol of the control region (TS 36.211 section
/// 6.2.4).
#[derive(Clone, Copy, Debug, Default, PartialEq, Eq)]
pub struct Reg {
    /// The symbol, 0 to 3.
    pub symbol: u8,
    /// The first subcarrier in the group's span: a multiple of 6 in symbol 0 and of 4 in symbols 1 to 3.
    pub first: u8,
}

// Returns the `n`th natural number other than `reserved`, counted from 0.
fn skipping(n: usize, reserved: usize) -> usize
    requires { n < 5 }
    ensures { result ≡ skipping reserved n }
{
    if n < reserved { n } else { n + 1 }
}

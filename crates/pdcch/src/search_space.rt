//! The soft values of the PDCCH candidate.

ghost use Rattle.std.specs.Prelude.{◌≡◌, ◌/◌, ◌<◌, ◌≤◌, All, IfSome, IsTrue, length};
ghost use Rattle.finite.specs.Sizes.{AllWithin};
ghost use Rattle.grid_map.specs.Group.{is_group};
ghost use Rattle.grid_map.specs.Control.{is_in_region, pdcch_groups, element_count};
ghost use Rattle.pdcch.specs.Candidate.{stream_values_by, candidate_if_by};

use grid_map::{Reg, candidate_places, pdcch, pdcch_c_init};
use lte_types::{CellId, Cfi, Mib};
use soft_bits::{ReadSlot, descramble, fill_slot};

/// Returns the number of control channel elements (CCE) in the control region, each of nine resource element groups (TS
/// 36.211 section 6.8.1): two for indicator 1, and at least four for indicators 2 and 3.
pub fn elements(id: CellId, cfi: Cfi, mib: Mib) -> u8
    ensures count { result ≡ length (pdcch_groups id cfi mib.duration mib.resource) / 9 }
    ensures value { result ≡ element_count cfi mib.duration mib.resource }
{
    (pdcch(id, cfi, mib).len() / 9) as u8
}

/// Returns the descrambled soft values of control channel elements 0 to 3 in slot 10, the first of subframe 5, in the
/// order of the coded bits; `None` if there are fewer than four elements.
#[tactic(auto, using(crate::proofs::Decoded::too_few, crate::proofs::Decoded::enough))]
pub fn candidate<S: ReadSlot>(slot: &S, cfi: Cfi, mib: Mib) -> Option<[i16; 288]>
    requires { (S.seen_as slot.now).number ≡ 10 }
    ensures values { result ≡ candidate_if_by S.values_by (S.seen_as slot.now) cfi mib.duration mib.resource }
    ensures magnitudes { IfSome result (λ values. AllWithin 127 values) }
{
    let groups = pdcch(slot.cell(), cfi, mib);
    if groups.len() < 4 * 9 {
        return None;
    }
    Some(stream(slot, groups.as_slice()))
}

// Returns the candidate's descrambled soft values if the PDCCH occupies `groups`, at least 36 resource element groups.
fn stream<S: ReadSlot>(slot: &S, groups: &[Reg]) -> [i16; 288]
    requires few { length groups.now ≤ 66 }
    requires enough { 36 ≤ length groups.now }
    requires inside { All (λ g. IsTrue (is_group g)) groups.now }
    ensures values { result ≡ stream_values_by S.values_by (S.seen_as slot.now) groups.now }
    ensures magnitudes { AllWithin 127 result }
{
    let places = candidate_places(slot.cell(), groups);
    let mut values = [0; 288];
    fill_slot(slot, &places, &mut values);
    let c_init = pdcch_c_init(slot.cell(), slot.slot_number());
    descramble(c_init, 0, &mut values);
    values
}

//! The soft values of PCFICH and PDCCH candidates.

ghost use Rattle.std.specs.Prelude.{◌≡◌, ◌+◌, ◌*◌, ◌≤◌, IfOk, length};
ghost use Rattle.finite.specs.Sizes.{AllWithin};
ghost use Rattle.wide_grid.specs.Group.{AreGroups};
ghost use Rattle.wide_control.specs.Values.{indicator_values as indicator_values_of};
ghost use Rattle.wide_control.specs.Values.{candidate_values as candidate_values_of};

use grid_map::{pcfich_c_init, pdcch_c_init};
use std::alloc::{AllocError, Global};
use wide_grid::{Candidate, WideReg, candidate_places, pcfich_places};
use wide_slot::{WideSlot, descrambled, soft_values};

// The first slot of subframe 5.
const FIRST_SLOT: u8 = 10;

// Returns the 32 descrambled PCFICH soft values.
pub(crate) fn indicator_values(alloc: Global, slot: &WideSlot) -> Result<Vec<i16>, AllocError>
    requires { slot.now.slot.number ≡ 10 }
    ensures values { IfOk result (λ values. values.items ≡ indicator_values_of slot.now) }
    ensures count { IfOk result (λ values. length values.items ≡ 32) }
    ensures magnitudes { IfOk result (λ values. AllWithin 127 values.items) }
{
    let places = pcfich_places(alloc, slot.cell())?;
    let values = soft_values(alloc, slot, slot, &places)?;
    let c_init = pcfich_c_init(slot.cell().id(), FIRST_SLOT);
    descrambled(alloc, c_init, 0, &values)
}

// Returns a candidate's descrambled soft values, from the PDCCH groups in quadruplet order.
pub(crate) fn candidate_values(
    alloc: Global,
    slot: &WideSlot,
    groups: &[WideReg],
    candidate: Candidate,
) -> Result<Vec<i16>, AllocError>
    requires number { slot.now.slot.number ≡ 10 }
    requires groups { AreGroups slot.now.cell groups.now }
    requires there { 9 * (candidate.first + candidate.level) ≤ length groups.now }
    requires first { candidate.first ≤ 12 }
    requires level { candidate.level ≤ 8 }
    ensures values { IfOk result (λ values. values.items ≡ candidate_values_of slot.now groups.now candidate) }
    ensures count { IfOk result (λ values. length values.items ≤ 576) }
    ensures magnitudes { IfOk result (λ values. AllWithin 127 values.items) }
{
    let places = candidate_places(alloc, slot.cell(), groups, candidate)?;
    let values = soft_values(alloc, slot, slot, &places)?;
    let c_init = pdcch_c_init(slot.cell().id(), FIRST_SLOT);
    descrambled(alloc, c_init, 72 * candidate.first as usize, &values)
}

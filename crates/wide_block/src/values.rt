//! The soft values of a grant.

ghost use Rattle.std.specs.Prelude.{◌≡◌, ◌+◌, ◌≤◌, IfOk, length, take};
ghost use Rattle.finite.specs.Sizes.{AllWithin};
ghost use Rattle.wide_block.specs.Sums.{grant_places, shared_values as shared_values_of};

use dci::SI_RNTI;
use grid_map::pdsch_c_init;
use lte_types::Cfi;
use std::alloc::{AllocError, Global};
use wide_cell::{WideCell, WidePlace};
use wide_grant::{WideGrant, allocated_blocks};
use wide_grid::pdsch_places;
use wide_slot::{WideSlot, descrambled, soft_values};

// The maximum number of resource elements of a grant that are used: 24 resource blocks of 120 elements. (own)
const MOST_PLACES: usize = 2880;

/// Returns the descrambled soft values of a grant, -127 to 127: two for each of its first 2,880 resource elements (TS
/// 36.211 sections 6.3.1 and 6.4). Fails only if an allocation fails.
pub(crate) fn shared_values(
    alloc: Global,
    first: &WideSlot,
    second: &WideSlot,
    cfi: Cfi,
    grant: &WideGrant,
) -> Result<Vec<i16>, AllocError>
    requires first { first.now.slot.number ≡ 10 }
    requires same { second.now.cell ≡ first.now.cell }
    requires run { grant.now.run.start + grant.now.run.blocks ≤ 1000 }
    ensures values { IfOk result (λ values. values.items ≡ shared_values_of first.now second.now cfi grant.now) }
    ensures few { IfOk result (λ values. length values.items ≤ 5760) }
    ensures magnitudes { IfOk result (λ values. AllWithin 127 values.items) }
{
    let places = places_of(alloc, first.cell(), cfi, grant)?;
    let values = soft_values(alloc, first, second, front_of(&places))?;
    let c_init = pdsch_c_init(first.cell().id(), 10, SI_RNTI);
    descrambled(alloc, c_init, 0, &values)
}

// Returns the resource elements that a grant allocates.
fn places_of(
    alloc: Global,
    cell: &WideCell,
    cfi: Cfi,
    grant: &WideGrant,
) -> Result<Vec<WidePlace>, AllocError>
    requires { grant.now.run.start + grant.now.run.blocks ≤ 1000 }
    ensures { IfOk result (λ places. places.items ≡ grant_places cell.now cfi grant.now) }
{
    let first = allocated_blocks(alloc, cell, grant, false)?;
    let second = allocated_blocks(alloc, cell, grant, true)?;
    pdsch_places(alloc, cell, cfi, &first, &second)
}

// Returns the first 2,880 resource elements, or all if there are fewer.
fn front_of(places: &[WidePlace]) -> &[WidePlace]
    ensures front { result.now ≡ take 2880 places.now }
    ensures few { length result.now ≤ 2880 }
{
    &places[..MOST_PLACES.min(places.len())]
}

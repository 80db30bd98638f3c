//! PDSCH resource elements.

ghost use Rattle.std.specs.Prelude.{◌≡◌, ◌+◌, ◌*◌, ◌/◌, ◌%◌, ◌<◌, ◌≤◌, false, slice_index_or, IfOk};
ghost use Rattle.wide_cell.specs.Cell.{subcarriers};
ghost use Rattle.wide_grid.specs.Pdsch.{is_lower_reference, is_upper};
ghost use Rattle.wide_grid.specs.Pdsch.{is_synchronisation as is_synchronisation_of};
ghost use Rattle.wide_grid.specs.Pdsch.{is_allocated as is_allocated_of, is_pdsch as is_pdsch_of, place_at as place_at_of};
ghost use Rattle.wide_grid.specs.Pdsch.{pdsch_places as pdsch_places_of};
ghost use Rattle.crs.specs.Reference.{IsPattern, is_pattern_place, is_upper_reference};
ghost use Rattle.wide_grid.specs.Group.{AreInside};

use crate::group::{add_place, control_symbols};
use crs::{Pattern, first_of_pattern, first_of_upper};
use lte_types::{Carrier, Cfi};
use std::alloc::{AllocError, Global};
use wide_cell::{WideCell, WidePlace};

// Returns whether a resource element carries a reference signal of a pattern.
fn has_pattern(cell: &WideCell, pattern: Pattern, place: WidePlace) -> bool
    requires { IsPattern pattern }
    ensures { result ≡ is_pattern_place pattern cell.now.identity (place.symbol % 7) place.k }
{
    let symbol = place.symbol % 7;
    (symbol == 0 || symbol == pattern.later)
        && place.k % 6 == first_of_pattern(pattern, cell.id(), symbol) as u16
}

// Returns whether a resource element carries a reference signal of antenna port 0 or 1.
fn has_lower_reference(cell: &WideCell, place: WidePlace) -> bool
    ensures { result ≡ is_lower_reference cell.now place }
{
    has_pattern(cell, Pattern::of(Carrier::OnePort, 0), place)
        || cell.ports() > 1 && has_pattern(cell, Pattern::of(Carrier::OnePort, 1), place)
}

// Returns whether a resource element carries a reference signal of antenna port `port`, 2 or 3.
fn has_upper_of(cell: &WideCell, port: u8, place: WidePlace) -> bool
    requires { place.symbol < 14 }
    ensures { result ≡
        is_upper_reference port cell.now.identity (10 + place.symbol / 7) (place.symbol % 7) place.k }
{
    place.symbol % 7 == 1
        && place.k % 6 == first_of_upper(port, cell.id(), 10 + place.symbol / 7) as u16
}

// Returns whether a resource element carries a reference signal of antenna port 2 or 3.
fn has_upper_reference(cell: &WideCell, place: WidePlace) -> bool
    requires { place.symbol < 14 }
    ensures { result ≡ is_upper cell.now place }
{
    cell.ports() == 4 && (has_upper_of(cell, 2, place) || has_upper_of(cell, 3, place))
}

// Returns whether a resource element is reserved for the synchronisation signals.
fn is_synchronisation(cell: &WideCell, place: WidePlace) -> bool
    ensures { result ≡ is_synchronisation_of cell.now place }
{
    let middle = 6 * cell.blocks() as u16;
    (place.symbol == 5 || place.symbol == 6) && middle - 36 <= place.k && place.k < middle + 36
}

// Returns whether item `block` of the list is true; past its end, false.
fn is_set(blocks: &[bool], block: usize) -> bool
    ensures { result ≡ slice_index_or blocks.now block false }
{
    match blocks.get(block) {
        Some(allocated) => *allocated,
        None => false,
    }
}

// Returns whether a resource element is in a block that is allocated in its slot.
fn is_allocated(first: &[bool], second: &[bool], place: WidePlace) -> bool
    ensures { result ≡ is_allocated_of first.now second.now place }
{
    let block = place.k as usize / 12;
    if place.symbol < 7 {
        is_set(first, block)
    } else {
        is_set(second, block)
    }
}

// Returns whether a resource element belongs to the PDSCH of the allocated blocks.
fn is_pdsch(cell: &WideCell, cfi: Cfi, first: &[bool], second: &[bool], place: WidePlace) -> bool
    requires { place.symbol < 14 }
    ensures { result ≡ is_pdsch_of cell.now cfi first.now second.now place }
{
    control_symbols(cell, cfi) <= place.symbol
        && is_allocated(first, second, place)
        && !is_synchronisation(cell, place)
        && !has_lower_reference(cell, place)
        && !has_upper_reference(cell, place)
}

// Returns the resource element with number `n` in the subframe: by symbol, then subcarrier.
fn place_at(cell: &WideCell, n: u16) -> WidePlace
    requires { n < 14 * subcarriers cell.now.blocks }
    ensures value { result ≡ place_at_of cell.now n }
    ensures symbol { result.symbol < 14 }
    ensures k { result.k < subcarriers cell.now.blocks }
{
    WidePlace {
        symbol: (n / cell.subcarriers()) as u8,
        k: n % cell.subcarriers(),
    }
}

/// Returns the PDSCH's resource elements in subframe 5, by symbol, then subcarrier (TS 36.211 sections 6.3.5 and 6.4).
/// `first` and `second` state for each resource block whether it is allocated in slots 10 and 11.
pub fn pdsch_places(
    alloc: Global,
    cell: &WideCell,
    cfi: Cfi,
    first: &[bool],
    second: &[bool],
) -> Result<Vec<WidePlace>, AllocError>
    ensures places { IfOk result (λ places. places.items ≡ pdsch_places_of cell.now cfi first.now second.now) }
    ensures inside { IfOk result (λ places. AreInside cell.now places.items) }
{
    let mut places = Vec::new(alloc);
    for n in 0..14 * cell.subcarriers() {
        let place = place_at(cell, n);
        add_place(
            &mut places,
            place,
            is_pdsch(cell, cfi, first, second, place),
        )?;
    }
    Ok(places)
}

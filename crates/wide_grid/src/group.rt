//! Resource-element groups.

ghost use Rattle.std.specs.Prelude.{◌≡◌, ◌+◌, ◌<◌, ◌≤◌, ◌++◌, [], ◌∷◌, cond, not, map, filter, IsTrue, length, IfOk};
ghost use Rattle.std.specs.List.{range_with_len};
ghost use Rattle.wide_cell.specs.Place.{place};
ghost use Rattle.wide_grid.specs.Group.{region, has_reference as has_reference_by, span as span_of, is_reserved as is_reserved_by};
ghost use Rattle.wide_grid.specs.Group.{is_group, is_group_in, group_places, AreInside};
ghost use Rattle.wide_cell.specs.Cell.{IsCell};

use lte_types::Cfi;
use std::alloc::AllocError;
use wide_cell::{WideCell, WidePlace};

/// A resource-element group (REG): four resource elements in a symbol of the control region (TS 36.211 section
/// 6.2.4).
#[derive(Clone, Copy, Debug, Default, PartialEq, Eq)]
pub struct WideReg {
    /// The symbol, 0 to 3.
    pub symbol: u8,
    /// The first subcarrier in the group's span: a multiple of 4, or of 6 where reference signals are left out.
    pub first: u16,
}

/// Returns the number of symbols in the control region, 1 to 4: `cfi`, and one more if the cell has at most ten
/// resource blocks (TS 36.212 section 5.3.4).
pub fn control_symbols(cell: &WideCell, cfi: Cfi) -> u8
    ensures value { result ≡ region cell.now cfi }
    ensures bounds { (1 ≤ result) × (result ≤ 4) }
{
    let cfi = cfi.value();
    if cell.blocks() <= 10 { cfi + 1 } else { cfi }
}

// Returns whether the groups of a symbol leave out subcarriers of reference signals.
fn has_reference(cell: &WideCell, symbol: u8) -> bool
    ensures value { result ≡ has_reference_by cell.now.ports symbol }
    ensures valid { IsCell cell.now }
{
    let ports = cell.ports();
    symbol == 0 || symbol == 1 && ports == 4
}

// Returns the number of subcarriers that a group of a symbol spans.
pub(crate) fn span(cell: &WideCell, symbol: u8) -> u16
    ensures value { result ≡ span_of cell.now.ports symbol }
    ensures bounds { (4 ≤ result) × (result ≤ 6) }
    ensures valid { IsCell cell.now }
{
    if has_reference(cell, symbol) { 6 } else { 4 }
}

// Returns whether a resource element is reserved for reference signals.
fn is_reserved(cell: &WideCell, place: WidePlace) -> bool
    ensures { result ≡ is_reserved_by cell.now place }
{
    has_reference(cell, place.symbol) && place.k % 3 == cell.id().n2()
}

// Appends a resource element if it is selected.
pub(crate) fn add_place(
    places: &mut Vec<WidePlace>,
    place: WidePlace,
    selected: bool,
) -> Result<(), AllocError>
    ensures items { IfOk result (λ _. places.new.items ≡ places.old.items ++ cond selected (place ∷ []) []) }
{
    if selected {
        places.push(place)?;
    }
    Ok(())
}

// Returns whether a group is in a list.
pub(crate) fn is_taken(groups: &[WideReg], group: WideReg) -> bool
    ensures { result ≡ is_group_in groups.now group }
{
    groups.contains(&group)
}

// Appends a group if it is selected.
pub(crate) fn add_group(
    groups: &mut Vec<WideReg>,
    group: WideReg,
    selected: bool,
) -> Result<(), AllocError>
    ensures items { IfOk result (λ _. groups.new.items ≡ groups.old.items ++ cond selected (group ∷ []) []) }
{
    if selected {
        groups.push(group)?;
    }
    Ok(())
}

// Appends the resource elements of a group, by subcarrier.
pub(crate) fn add_group_places(
    places: &mut Vec<WidePlace>,
    cell: &WideCell,
    group: WideReg,
) -> Result<(), AllocError>
    requires group { IsTrue (is_group cell.now group) }
    ensures items { IfOk result (λ _. places.new.items ≡ places.old.items ++ group_places cell.now group) }
    ensures inside { IfOk result (λ _. AreInside cell.now places.old.items → AreInside cell.now places.new.items) }
    ensures count { IfOk result (λ _. length places.new.items ≡ length places.old.items + 4) }
{
    for k in group.first..group.first + span(cell, group.symbol) {
        let place = WidePlace {
            symbol: group.symbol,
            k,
        };
        add_place(places, place, !is_reserved(cell, place))?;
    }
    Ok(())
}

//! The resource-element groups for PCFICH.

ghost use Rattle.std.specs.Prelude.{◌≡◌, ◌+◌, ◌*◌, ◌/◌, ◌%◌, ◌<◌, ◌≤◌, IsTrue, length, IfOk};
ghost use Rattle.wide_grid.specs.Group.{is_group, AreGroups, AreInside};
ghost use Rattle.wide_grid.specs.Control.{pcfich_group as pcfich_group_of, pcfich_groups as pcfich_groups_of};
ghost use Rattle.wide_grid.specs.Control.{pcfich_places as pcfich_places_of};

use crate::WideReg;
use crate::group::add_group_places;
use std::alloc::{AllocError, Global};
use wide_cell::{WideCell, WidePlace};

// Returns PCFICH group `i`.
fn pcfich_group(cell: &WideCell, i: u16) -> WideReg
    requires { i < 4 }
    ensures value { result ≡ pcfich_group_of cell.now i }
    ensures valid { IsTrue (is_group cell.now result) }
{
    let blocks = cell.blocks() as u16;
    let first = 6 * (cell.id().value() % (2 * blocks)) + 6 * (i * blocks / 2);
    WideReg {
        symbol: 0,
        first: first % cell.subcarriers(),
    }
}

/// Returns the four PCFICH groups, in the order of use (TS 36.211 section 6.7.4).
pub fn pcfich_groups(cell: &WideCell) -> [WideReg; 4]
    ensures groups { result ≡ pcfich_groups_of cell.now }
    ensures valid { AreGroups cell.now result }
{
    [
        pcfich_group(cell, 0),
        pcfich_group(cell, 1),
        pcfich_group(cell, 2),
        pcfich_group(cell, 3),
    ]
}

/// Returns the sixteen PCFICH resource elements, group after group (TS 36.211 section 6.7.4).
pub fn pcfich_places(alloc: Global, cell: &WideCell) -> Result<Vec<WidePlace>, AllocError>
    ensures places { IfOk result (λ places. places.items ≡ pcfich_places_of cell.now) }
    ensures inside { IfOk result (λ places. AreInside cell.now places.items) }
    ensures count { IfOk result (λ places. length places.items ≡ 16) }
{
    let mut places = Vec::new(alloc);
    for i in 0..4 {
        add_group_places(&mut places, cell, pcfich_group(cell, i))?;
    }
    Ok(places)
}

//! The resource-element groups for PHICH.

ghost use Rattle.std.specs.Prelude.{◌≡◌, ◌+◌, ◌*◌, ◌/◌, ◌%◌, ◌<◌, ◌≤◌, ◌++◌, slice_index_or, IfOk};
ghost use Rattle.finite.specs.Lists.{values_below};
ghost use Rattle.wide_grid.specs.Group.{group};
ghost use Rattle.wide_grid.specs.Control.{sixths as sixths_of, phich_count as phich_count_of, free_groups as free_groups_of};
ghost use Rattle.wide_grid.specs.Control.{free_count as free_count_of, phich_group_in as phich_group_in_of};
ghost use Rattle.wide_grid.specs.Control.{phich_group as phich_group_of, phich_groups as phich_groups_of};

use crate::WideReg;
use crate::control::pcfich_groups;
use crate::group::{add_group, is_taken, span};
use grid_map::phich_symbol;
use lte_types::Resource;
use std::alloc::{AllocError, Global};
use wide_cell::WideCell;

// Returns six times N_g.
fn sixths(resource: Resource) -> u16
    ensures value { result ≡ sixths_of resource }
    ensures bound { result ≤ 12 }
{
    match resource {
        Resource::OneSixth => 1,
        Resource::Half => 3,
        Resource::One => 6,
        Resource::Two => 12,
    }
}

// Returns the PHICH group count.
fn phich_count(cell: &WideCell) -> u16
    ensures value { result ≡ phich_count_of cell.now }
    ensures bound { result ≤ 25 }
{
    (sixths(cell.resource()) * cell.blocks() as u16 + 47) / 48
}

// Returns the number of groups in a symbol that the PCFICH does not use.
fn free_count(cell: &WideCell, symbol: u8) -> u32
    ensures value { result ≡ free_count_of cell.now symbol }
    ensures bounds { (8 ≤ result) × (result ≤ 300) }
{
    let groups = (cell.subcarriers() / span(cell, symbol)) as u32;
    if symbol == 0 { groups - 4 } else { groups }
}

// Returns the groups in a symbol that the PCFICH does not use, by subcarrier.
fn free_groups(alloc: Global, cell: &WideCell, symbol: u8) -> Result<Vec<WideReg>, AllocError>
    ensures { IfOk result (λ groups. groups.items ≡ free_groups_of cell.now symbol) }
{
    let taken = pcfich_groups(cell);
    let span = span(cell, symbol);
    let mut groups = Vec::new(alloc);
    for n in 0..cell.subcarriers() / span {
        let group = WideReg {
            symbol,
            first: span * n,
        };
        add_group(&mut groups, group, !is_taken(&taken, group))?;
    }
    Ok(groups)
}

// Returns group `i`; past the end, the first group of symbol 0.
fn group_at(groups: &[WideReg], i: usize) -> WideReg
    ensures { result ≡ slice_index_or groups.now i (group 0 0) }
{
    match groups.get(i) {
        Some(group) => *group,
        None => WideReg {
            symbol: 0,
            first: 0,
        },
    }
}

// Returns the group in a symbol that carries quadruplet `i` of PHICH group `m`.
fn phich_group_in(
    alloc: Global,
    cell: &WideCell,
    symbol: u8,
    m: u16,
    i: u8,
) -> Result<WideReg, AllocError>
    requires m { m < 25 }
    requires i { i < 3 }
    ensures { IfOk result (λ group. group ≡ phich_group_in_of cell.now symbol m i) }
{
    let free = free_groups(alloc, cell, symbol)?;
    let count = free_count(cell, symbol);
    let spread = cell.id().value() as u32 * count / free_count(cell, 0);
    let number = (spread + m as u32 + i as u32 * count / 3) % count;
    Ok(group_at(&free, number as usize))
}

// Returns the group that carries quadruplet `i` of PHICH group `m`.
fn phich_group(alloc: Global, cell: &WideCell, m: u16, i: u8) -> Result<WideReg, AllocError>
    requires m { m < 25 }
    requires i { i < 3 }
    ensures { IfOk result (λ group. group ≡ phich_group_of cell.now m i) }
{
    phich_group_in(alloc, cell, phich_symbol(cell.duration(), i as usize), m, i)
}

// Appends the three groups of PHICH group `m`.
fn add_phich_groups(
    groups: &mut Vec<WideReg>,
    alloc: Global,
    cell: &WideCell,
    m: u16,
) -> Result<(), AllocError>
    requires m { m < 25 }
    ensures items { IfOk result (λ _.
        groups.new.items ≡ groups.old.items ++ values_below 3 (phich_group_of cell.now m)) }
{
    for i in 0..3 {
        groups.push(phich_group(alloc, cell, m, i)?)?;
    }
    Ok(())
}

/// Returns the groups of all PHICH groups, three for each (TS 36.211 section 6.9.3).
pub fn phich_groups(alloc: Global, cell: &WideCell) -> Result<Vec<WideReg>, AllocError>
    ensures groups { IfOk result (λ groups. groups.items ≡ phich_groups_of cell.now) }
{
    let mut groups = Vec::new(alloc);
    for m in 0..phich_count(cell) {
        add_phich_groups(&mut groups, alloc, cell, m)?;
    }
    Ok(groups)
}

//! The resource-element groups for PDCCH.

ghost use Rattle.std.specs.Prelude.{◌≡◌, ◌+◌, ◌*◌, ◌/◌, ◌%◌, ◌<◌, ◌≤◌, ◌&&◌, ℕ, All, IsTrue, nat_lt, not, length, slice_index_or, IfOk};
ghost use Rattle.finite.specs.Lists.{values_below};
ghost use Rattle.grid_map.specs.Control.{quadruplet_at};
ghost use Rattle.wide_cell.specs.Cell.{subcarriers};
ghost use Rattle.wide_grid.specs.Group.{is_group, is_group_in, region, AreGroups};
ghost use Rattle.wide_grid.specs.Control.{numbered as numbered_of, pdcch_groups as pdcch_groups_of};
ghost use Rattle.wide_grid.specs.Control.{quadruplet_group as quadruplet_group_of, quadruplet_groups as quadruplet_groups_of};

use crate::WideReg;
use crate::control::pcfich_groups;
use crate::group::{add_group, control_symbols, is_taken, span};
use crate::phich::phich_groups;
use conv_code::stream_index;
use lte_types::Cfi;
use std::alloc::{AllocError, Global};
use wide_cell::WideCell;

// Returns whether a group is valid.
fn is_valid(cell: &WideCell, group: WideReg) -> bool
    ensures { result ≡ is_group cell.now group }
{
    group.symbol < 4
        && group.first < cell.subcarriers()
        && group.first % span(cell, group.symbol) == 0
}

// Returns the group with number `n`, valid or not; numbers order groups by first subcarrier, then symbol.
fn numbered(n: u16) -> WideReg
    requires { n < 4800 }
    ensures value { result ≡ numbered_of n }
{
    WideReg {
        symbol: (n % 4) as u8,
        first: n / 4,
    }
}

// Returns whether a group is in the control region and is used by neither PCFICH nor PHICH.
fn is_pdcch(
    cell: &WideCell,
    cfi: Cfi,
    group: WideReg,
    pcfich: &[WideReg],
    phich: &[WideReg],
) -> bool
    ensures { result ≡ (is_group cell.now group && nat_lt group.symbol (region cell.now cfi)
        && (not (is_group_in pcfich.now group) && not (is_group_in phich.now group))) }
{
    is_valid(cell, group)
        && group.symbol < control_symbols(cell, cfi)
        && !is_taken(pcfich, group)
        && !is_taken(phich, group)
}

/// Returns the PDCCH groups: those of the control region that PCFICH and PHICH do not use, by first subcarrier, then
/// symbol (TS 36.211 section 6.8.5).
pub fn pdcch_groups(alloc: Global, cell: &WideCell, cfi: Cfi) -> Result<Vec<WideReg>, AllocError>
    ensures groups { IfOk result (λ groups. groups.items ≡ pdcch_groups_of cell.now cfi) }
    ensures valid { IfOk result (λ groups. AreGroups cell.now groups.items) }
    ensures few { IfOk result (λ groups. length groups.items ≤ 4800) }
{
    let pcfich = pcfich_groups(cell);
    let phich = phich_groups(alloc, cell)?;
    let mut groups = Vec::new(alloc);
    for n in 0..4 * cell.subcarriers() {
        let group = numbered(n);
        add_group(
            &mut groups,
            group,
            is_pdcch(cell, cfi, group, &pcfich, &phich),
        )?;
    }
    Ok(groups)
}

// Returns the quadruplets that `count` groups carry.
fn quadruplets(alloc: Global, cell: &WideCell, count: usize) -> Result<Vec<usize>, AllocError>
    requires few { count ≤ 4800 }
    ensures { IfOk result (λ order. order.items ≡ values_below count (quadruplet_at cell.now.identity count)) }
{
    let mut order = Vec::new(alloc);
    for r in 0..count {
        let p = (r + cell.id().value() as usize) % count;
        order.push(stream_index(count, p))?;
    }
    Ok(order)
}

// Returns the group that carries quadruplet `q`, given the quadruplets that the groups carry.
fn quadruplet_group(cell: &WideCell, groups: &[WideReg], order: &[usize], q: usize) -> WideReg
    requires q { q < length groups.now }
    requires order { order.now
        ≡ values_below (length groups.now) (quadruplet_at cell.now.identity (length groups.now)) }
    ensures { result ≡ quadruplet_group_of cell.now groups.now q }
{
    for r in 0..groups.len() {
        if order[r] == q {
            return groups[r];
        }
    }
    unreachable!()
}

/// Returns the PDCCH groups in the order of the quadruplets that the groups carry: quadruplets are interleaved, and
/// cyclically shifted by the identity (TS 36.211 section 6.8.5).
pub fn quadruplet_groups(
    alloc: Global,
    cell: &WideCell,
    groups: &[WideReg],
) -> Result<Vec<WideReg>, AllocError>
    requires few { length groups.now ≤ 4800 }
    requires valid { AreGroups cell.now groups.now }
    ensures groups { IfOk result (λ ordered. ordered.items ≡ quadruplet_groups_of cell.now groups.now) }
    ensures valid { IfOk result (λ ordered. AreGroups cell.now ordered.items) }
{
    let order = quadruplets(alloc, cell, groups.len())?;
    let mut ordered = Vec::new(alloc);
    for q in 0..groups.len() {
        ordered.push(quadruplet_group(cell, groups, &order, q))?;
    }
    Ok(ordered)
}

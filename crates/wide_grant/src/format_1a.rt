//! Format 1A.

ghost use Rattle.std.specs.Prelude.{◌≡◌, ◌+◌, ◌≤◌, ◌<◌, IfOk, length, slice_index_or, false};
ghost use Rattle.wide_cell.specs.Cell.{IsCell};
ghost use Rattle.wide_grant.specs.Grants.{available as available_of, width_1a as width_1a_of, bits_1a as bits_1a_of};
ghost use Rattle.wide_grant.specs.Grants.{mapping_1a as mapping_1a_of, run_1a as run_1a_of};
ghost use Rattle.wide_grant.specs.Grants.{has_run_1a as has_run_1a_of, grant_1a as grant_1a_of};
ghost use Rattle.wide_grant.specs.Runs.{run_count as run_count_of};
ghost use Rattle.wide_grant.specs.declared.run.Run.{Run};
ghost use Rattle.cs_bits.specs.Numbers.{field};

use crate::distributed::virtual_blocks;
use crate::fields::field_of;
use crate::run::{run_count, run_of};
use crate::sizes::size_1a;
use crate::{Mapping, Refusal, Run, WideGrant};
use wide_cell::WideCell;

// Returns the width in bits of the resource indication value in format 1A.
fn width_1a(cell: &WideCell) -> usize
    ensures value { result ≡ width_1a_of cell.now.blocks }
    ensures bound { result ≤ 13 }
{
    match cell.blocks() {
        6 => 5,
        15 => 7,
        25 => 9,
        50 => 11,
        75 => 12,
        _ => 13,
    }
}

/// Returns the number of bits in a payload of format 1A: 21, 22, 25, 27, 27 and 28 for the six bandwidths (TS 36.212
/// section 5.3.3.1.3).
pub fn bits_1a(cell: &WideCell) -> usize
    ensures value { result ≡ bits_1a_of cell.now.blocks }
    ensures bound { result ≤ 29 }
{
    let bits = 15 + width_1a(cell);
    if bits == 20 || bits == 24 || bits == 26 {
        bits + 1
    } else {
        bits
    }
}

// Returns the number of virtual resource blocks of a mapping.
fn available(cell: &WideCell, mapping: Mapping) -> u16
    ensures value { result ≡ available_of cell.now.blocks mapping }
    ensures bound { result ≤ 100 }
{
    let blocks = cell.blocks() as u16;
    match mapping {
        Mapping::Localized => blocks,
        Mapping::FirstGap => virtual_blocks(blocks, false),
        Mapping::SecondGap => virtual_blocks(blocks, true),
    }
}

// Returns the mapping in a payload of format 1A.
fn mapping_1a(cell: &WideCell, bits: &[bool]) -> Mapping
    requires { 15 + width_1a_of cell.now.blocks ≤ length bits.now }
    ensures { result ≡ mapping_1a_of cell.now.blocks bits.now }
{
    if !bits[1] {
        Mapping::Localized
    } else if cell.blocks() >= 50 && bits[10 + width_1a(cell)] {
        Mapping::SecondGap
    } else {
        Mapping::FirstGap
    }
}

/// Returns the grant in a payload of format 1A, or the first reason to refuse it: a flag of format 0, no run or
/// virtual resource blocks that do not exist, a scheme above 26. Other fields are ignored.
pub fn grant_1a(cell: &WideCell, bits: &[bool]) -> Result<WideGrant, Refusal>
    requires { length bits.now ≡ bits_1a_of cell.now.blocks }
    ensures answer { result ≡ grant_1a_of cell.now.blocks bits.now }
    ensures run { IfOk result (λ grant. grant.run.start + grant.run.blocks ≤ 100) }
    ensures rv { IfOk result (λ grant. grant.rv ≤ 3) }
{
    let blocks = cell.blocks() as u16;
    let width = width_1a(cell);
    if !bits[0] {
        return Err(Refusal::NotFormat1A);
    }
    let value = field_of(bits, 2, width);
    if value >= run_count(blocks) {
        return Err(Refusal::BadAllocation);
    }
    let run = run_of(blocks, value);
    let mapping = mapping_1a(cell, bits);
    if run.start + run.blocks > available(cell, mapping) {
        return Err(Refusal::BadAllocation);
    }
    let mcs = field_of(bits, 2 + width, 5);
    if mcs > 26 {
        return Err(Refusal::ReservedMcs);
    }
    Ok(WideGrant {
        mapping,
        run,
        size: size_1a(bits[14 + width], mcs),
        rv: field_of(bits, 11 + width, 2) as u8,
    })
}

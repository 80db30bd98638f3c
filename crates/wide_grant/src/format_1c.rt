//! Format 1C.

ghost use Rattle.std.specs.Prelude.{◌≡◌, ◌+◌, ◌*◌, ◌≤◌, ◌<◌, length, IfOk};
ghost use Rattle.wide_grant.specs.Grants.{step as step_of, steps as steps_of, gap_bits as gap_bits_of};
ghost use Rattle.wide_grant.specs.Grants.{width_1c as width_1c_of, bits_1c as bits_1c_of};
ghost use Rattle.wide_grant.specs.Grants.{has_second_gap as has_second_gap_of, stepped as stepped_of};
ghost use Rattle.wide_grant.specs.Grants.{version_at as version_at_of, grant_1c as grant_1c_of};
ghost use Rattle.wide_grant.specs.Grants.{distributed as distributed_of};
ghost use Rattle.wide_grant.specs.declared.run.Run.{Run};

use crate::distributed::virtual_blocks;
use crate::fields::field_of;
use crate::run::{run_count, run_of};
use crate::sizes::size_1c;
use crate::{Mapping, Refusal, Run, WideGrant};
use lte_types::Sfn;
use wide_cell::WideCell;

// Returns the number of virtual resource blocks in a step.
fn step(cell: &WideCell) -> u16
    ensures value { result ≡ step_of cell.now.blocks }
    ensures bounds { (2 ≤ result) × (result ≤ 4) }
{
    if cell.blocks() < 50 { 2 } else { 4 }
}

// Returns the number of whole steps among the virtual resource blocks of a gap.
fn steps(cell: &WideCell, second: bool) -> u16
    ensures value { result ≡ steps_of cell.now.blocks second }
    ensures bound { result ≤ 50 }
{
    virtual_blocks(cell.blocks() as u16, second) / step(cell)
}

// Returns the number of bits that select the gap.
fn gap_bits(cell: &WideCell) -> usize
    ensures value { result ≡ gap_bits_of cell.now.blocks }
    ensures bound { result ≤ 1 }
{
    if cell.blocks() >= 50 { 1 } else { 0 }
}

// Returns the width in bits of the resource indication value in format 1C.
fn width_1c(cell: &WideCell) -> usize
    ensures value { result ≡ width_1c_of cell.now.blocks }
    ensures bound { result ≤ 9 }
{
    match cell.blocks() {
        6 => 3,
        15 => 5,
        25 => 7,
        50 => 7,
        75 => 8,
        _ => 9,
    }
}

/// Returns the number of bits in a payload of format 1C: 8, 10, 12, 13, 14 and 15 for the six bandwidths (TS 36.212
/// section 5.3.3.1.4).
pub fn bits_1c(cell: &WideCell) -> usize
    ensures value { result ≡ bits_1c_of cell.now.blocks }
    ensures bound { result ≤ 15 }
{
    gap_bits(cell) + width_1c(cell) + 5
}

// Returns whether a payload of format 1C selects the second gap.
fn has_second_gap(cell: &WideCell, bits: &[bool]) -> bool
    requires { 1 ≤ length bits.now }
    ensures { result ≡ has_second_gap_of cell.now.blocks bits.now }
{
    cell.blocks() >= 50 && bits[0]
}

// Returns the distributed mapping by the first or the second gap.
fn distributed(second: bool) -> Mapping
    ensures { result ≡ distributed_of second }
{
    if second {
        Mapping::SecondGap
    } else {
        Mapping::FirstGap
    }
}

// Returns the virtual resource blocks of a run of steps, with `length` blocks in a step.
fn stepped(length: u16, run: Run) -> Run
    requires length { length ≤ 4 }
    requires bounds { (run.start ≤ 100) × (run.blocks ≤ 102) }
    ensures value { result ≡ stepped_of length run }
    ensures bounds { (result.start ≤ 400) × (result.blocks ≤ 408) }
{
    Run {
        start: length * run.start,
        blocks: length * run.blocks,
    }
}

// Returns the redundancy version of SIB1 in a frame (TS 36.321 section 5.3.1).
fn version_at(sfn: Sfn) -> u8
    ensures value { result ≡ version_at_of sfn }
    ensures bound { result ≤ 3 }
{
    let quarter = (sfn.value() / 2 % 4) as u8;
    (3 * quarter + 1) / 2 % 4
}

/// Returns the grant in a payload of format 1C in frame `sfn`, or the reason to refuse it: the resource indication
/// value has no run.
pub fn grant_1c(cell: &WideCell, sfn: Sfn, bits: &[bool]) -> Result<WideGrant, Refusal>
    requires { length bits.now ≡ bits_1c_of cell.now.blocks }
    ensures answer { result ≡ grant_1c_of cell.now.blocks sfn bits.now }
    ensures run { IfOk result (λ grant. grant.run.start + grant.run.blocks ≤ 1000) }
    ensures rv { IfOk result (λ grant. grant.rv ≤ 3) }
{
    let second = has_second_gap(cell, bits);
    let steps = steps(cell, second);
    let gap = gap_bits(cell);
    let width = width_1c(cell);
    let value = field_of(bits, gap, width);
    if value >= run_count(steps) {
        return Err(Refusal::BadAllocation);
    }
    Ok(WideGrant {
        mapping: distributed(second),
        run: stepped(step(cell), run_of(steps, value)),
        size: size_1c(field_of(bits, gap + width, 5)),
        rv: version_at(sfn),
    })
}

//! The resource blocks of a grant.

ghost use Rattle.std.specs.Prelude.{◌≡◌, ◌+◌, ◌≤◌, ◌<◌, IfOk};
ghost use Rattle.wide_cell.specs.Cell.{IsBlockCount};
ghost use Rattle.wide_grant.specs.Grants.{block_at as block_at_of, is_allocated as is_allocated_of};
ghost use Rattle.wide_grant.specs.Grants.{allocated_blocks as allocated_blocks_of};

use crate::distributed::physical;
use crate::{Mapping, WideGrant};
use std::alloc::{AllocError, Global};
use wide_cell::WideCell;

// Returns the resource block of virtual resource block `v` in a slot with an even or odd number.
fn block_at(blocks: u16, mapping: Mapping, odd: bool, v: u16) -> u16
    requires blocks { IsBlockCount blocks }
    requires v { v ≤ 1000 }
    ensures { result ≡ block_at_of blocks mapping odd v }
{
    match mapping {
        Mapping::Localized => v,
        Mapping::FirstGap => physical(blocks, false, odd, v),
        Mapping::SecondGap => physical(blocks, true, odd, v),
    }
}

// Returns whether resource block `b` is allocated in a slot with an even or odd number.
fn is_allocated(blocks: u16, grant: &WideGrant, odd: bool, b: u16) -> bool
    requires blocks { IsBlockCount blocks }
    requires run { grant.now.run.start + grant.now.run.blocks ≤ 1000 }
    ensures { result ≡ is_allocated_of blocks grant.now odd b }
{
    let run = grant.run;
    for v in run.start..run.start + run.blocks {
        if block_at(blocks, grant.mapping, odd, v) == b {
            return true;
        }
    }
    false
}

/// Returns for each resource block whether the grant allocates it in slots with an even or odd number (TS 36.211
/// section 6.2.3). The grant's run ends at 1,000 or below.
pub fn allocated_blocks(
    alloc: Global,
    cell: &WideCell,
    grant: &WideGrant,
    odd: bool,
) -> Result<Vec<bool>, AllocError>
    requires run { grant.now.run.start + grant.now.run.blocks ≤ 1000 }
    ensures { IfOk result (λ allocated. allocated.items ≡ allocated_blocks_of cell.now.blocks grant.now odd) }
{
    let blocks = cell.blocks() as u16;
    let mut allocated = Vec::new(alloc);
    for b in 0..blocks {
        allocated.push(is_allocated(blocks, grant, odd, b))?;
    }
    Ok(allocated)
}

//! Distributed virtual resource blocks.

ghost use Rattle.std.specs.Prelude.{◌≡◌, ◌+◌, ◌*◌, ◌≤◌, ◌<◌};
ghost use Rattle.wide_cell.specs.Cell.{IsBlockCount};
ghost use Rattle.wide_grant.specs.Distributed.{gap as gap_of, virtual_blocks as virtual_blocks_of, unit as unit_of};
ghost use Rattle.wide_grant.specs.Distributed.{group_size as group_size_of, rows as rows_of, nulls as nulls_of};
ghost use Rattle.wide_grant.specs.Distributed.{interleaved as interleaved_at, in_slot as in_slot_of};
ghost use Rattle.wide_grant.specs.Distributed.{after_gap as after_gap_of, physical as physical_of};

// Returns the first or the second gap.
fn gap(blocks: u16, second: bool) -> u16
    requires blocks { (6 ≤ blocks) × (blocks ≤ 100) }
    ensures value { result ≡ gap_of blocks second }
    ensures bounds { (3 ≤ result) × (result ≤ 48) }
{
    if second {
        if blocks < 64 { 9 } else { 16 }
    } else if blocks <= 10 {
        (blocks + 1) / 2
    } else if blocks <= 19 {
        8
    } else if blocks <= 26 {
        12
    } else if blocks <= 63 {
        27
    } else if blocks <= 79 {
        32
    } else {
        48
    }
}

// Returns the number of distributed virtual resource blocks.
pub(crate) fn virtual_blocks(blocks: u16, second: bool) -> u16
    requires blocks { (6 ≤ blocks) × (blocks ≤ 100) }
    ensures value { result ≡ virtual_blocks_of blocks second }
    ensures bound { result ≤ 100 }
{
    let gap = gap(blocks, second);
    if second {
        blocks / (2 * gap) * (2 * gap)
    } else {
        2 * gap.min(blocks.saturating_sub(gap))
    }
}

// Returns the number of virtual resource blocks that are interleaved together.
fn unit(blocks: u16, second: bool) -> u16
    requires blocks { IsBlockCount blocks }
    ensures value { result ≡ unit_of blocks second }
    ensures bounds { (6 ≤ result) × (result ≤ 100) }
{
    if second {
        2 * gap(blocks, second)
    } else {
        virtual_blocks(blocks, second)
    }
}

// Returns the size of a resource block group.
fn group_size(blocks: u16) -> u16
    ensures value { result ≡ group_size_of blocks }
    ensures bounds { (1 ≤ result) × (result ≤ 4) }
{
    if blocks <= 10 {
        1
    } else if blocks <= 26 {
        2
    } else if blocks <= 63 {
        3
    } else {
        4
    }
}

// Returns the number of rows of the interleaver.
fn rows(blocks: u16, second: bool) -> u16
    requires blocks { IsBlockCount blocks }
    ensures value { result ≡ rows_of blocks second }
    ensures bound { result ≤ 500 }
{
    let group = group_size(blocks);
    (unit(blocks, second) + (4 * group - 1)) / (4 * group) * group
}

// Returns the number of NULL elements of the interleaver.
fn nulls(blocks: u16, second: bool) -> u16
    requires blocks { IsBlockCount blocks }
    ensures value { result ≡ nulls_of blocks second }
    ensures bound { result ≤ 2000 }
{
    (4 * rows(blocks, second)).saturating_sub(unit(blocks, second))
}

// Returns the index after interleaving in slots with an even number.
fn interleaved(rows: u16, nulls: u16, unit: u16, v: u16) -> u16
    requires rows { rows ≤ 500 }
    requires nulls { nulls ≤ 2000 }
    requires v { v ≤ 100 }
    ensures value { result ≡ interleaved_at rows nulls unit v }
    ensures bound { result ≤ 2000 }
{
    if v < unit.saturating_sub(nulls) {
        let skipped = if v % 4 >= 2 { nulls / 2 } else { 0 };
        (rows * (v % 4) + v / 4).saturating_sub(skipped)
    } else if v % 2 == 1 {
        rows + v / 2
    } else {
        (v / 2 + nulls / 2).saturating_sub(rows)
    }
}

// Returns the index after interleaving in a slot with an even or odd number.
fn in_slot(unit: u16, odd: bool, i: u16) -> u16
    requires unit { (6 ≤ unit) × (unit ≤ 100) }
    requires i { i ≤ 2000 }
    ensures value { result ≡ in_slot_of unit odd i }
    ensures bound { result ≤ 2000 }
{
    if odd { (i + unit / 2) % unit } else { i }
}

// Returns the resource block for an index after interleaving.
fn after_gap(unit: u16, gap: u16, i: u16) -> u16
    requires unit { unit ≤ 100 }
    requires gap { gap ≤ 48 }
    requires i { i ≤ 4000 }
    ensures value { result ≡ after_gap_of unit gap i }
{
    if i < unit / 2 { i } else { i + gap - unit / 2 }
}

// Returns the resource block of distributed virtual resource block `v` in a slot with an even or odd number (TS 36.211
// section 6.2.3.2).
pub(crate) fn physical(blocks: u16, second: bool, odd: bool, v: u16) -> u16
    requires blocks { IsBlockCount blocks }
    requires v { v ≤ 1000 }
    ensures value { result ≡ physical_of blocks second odd v }
{
    let unit = unit(blocks, second);
    let even = interleaved(rows(blocks, second), nulls(blocks, second), unit, v % unit);
    after_gap(
        unit,
        gap(blocks, second),
        in_slot(unit, odd, even) + v / unit * unit,
    )
}

//! The resource indication value (TS 36.213 section 7.1.6.3).

ghost use Rattle.std.specs.Prelude.{◌≡◌, ℕ, ◌≤◌};
ghost use Rattle.lte_types.specs.Assignment.{AreBlocks};
ghost use Rattle.dci.specs.Assignment.{riv_of};

/// Returns the resource indication value for `blocks` resource blocks from `start` (TS 36.213 section 7.1.6.3).
/// `blocks` is at least 1 and `start + blocks` at most 6.
pub fn riv(start: u8, blocks: u8) -> u8
    requires { AreBlocks start blocks }
    ensures value { result ≡ riv_of start blocks }
    ensures bound { result ≤ 20 }
{
    if blocks <= 4 {
        6 * (blocks - 1) + start
    } else {
        6 * (7 - blocks) + (5 - start)
    }
}

// Returns the first resource block and the block count for the resource indication value `riv`, 0 to 20.
pub(crate) fn blocks_of(riv: u8) -> (u8, u8)
    requires { riv ≤ 20 }
    ensures blocks { AreBlocks result.0 result.1 }
    ensures value { riv_of result.0 result.1 ≡ riv }
{
    let (start, blocks) = (riv % 6, riv / 6 + 1);
    if start + blocks <= 6 {
        (start, blocks)
    } else {
        (5 - start, 8 - blocks)
    }
}

/// A law: each resource indication value from 0 to 20 stands for exactly one assignment, and no assignment has a value
/// above 20.
pub fn assignments_used_once()
    ensures bound { (start blocks : ℕ) → AreBlocks start blocks → riv_of start blocks ≤ 20 }
    ensures used { (riv : ℕ) → riv ≤ 20 →
        (start : ℕ) × ((blocks : ℕ) × AreBlocks start blocks × (riv_of start blocks ≡ riv)) }
    ensures once { (start blocks other others : ℕ) → AreBlocks start blocks → AreBlocks other others →
        riv_of start blocks ≡ riv_of other others → (start ≡ other) × (blocks ≡ others) }
{}

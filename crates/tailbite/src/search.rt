//! The search for the minimum key, over the states in which a word may start and end. A key is a word's cost times
//! 2^64 plus the word as a number: keys distinguish words with equal cost, and the minimum key belongs to the
//! minimum-cost word.
//!
//! A backward pass, in which paths may end in any state, gives each state the minimum cost of a path that starts there.
//! A forward pass, in which a start costs less where this minimum is higher, then gives each state a lower bound: a
//! path that starts and ends in the state costs at least the minimum cost of reaching the state, less the cost of the
//! start there. If a state's bound is below the key of a word already found, the key of the minimum-cost path from the
//! state, in whichever state that path ends, is another bound. The start states are then searched in order of their
//! bounds, until no bound is below the minimum key found so far.

ghost use Rattle.std.specs.Prelude.{◌≡◌, ℕ, ◌+◌, ◌-◌, ◌*◌, ◌^◌, ◌<◌, ◌≤◌, length, slice_index};
ghost use Rattle.finite.specs.Sizes.{RowsWithin};
ghost use Rattle.trellis.specs.Least.{ends_in};
ghost use Rattle.conv_code.specs.Cost.{word_cost};
ghost use Rattle.tailbite.specs.Costs.{HaveCosts};
ghost use Rattle.tailbite.specs.Keys.{AreBounds, IsBound, IsKeyOrFar, IsLeastKey, far, scale};
ghost use Rattle.tailbite.specs.Passes.{IsFreePass};
ghost use Rattle.tailbite.specs.LeastWord.{IsLeastWord};

use crate::costs::{StepCosts, fill_costs};
use crate::memory::Trellis;
use crate::passes::{CostRow, pass, reach, walk};
use cs_bits::Bits;

const STATES: usize = 64;

/// The weight of one cost unit in a key: more than any word as a number.
const SCALE: u128 = 0x1_0000_0000_0000_0000;

/// A cost that is more than the cost of any word.
const FAR: u32 = 0x4000_0000;

/// Returns the key for a cost and a word as a number.
fn key_of(cost: u32, word: u64) -> u128
    ensures { result ≡ cost * scale + word }
{
    cost as u128 * SCALE + word as u128
}

/// Returns the end costs if paths may end in any state: 0 for each.
fn free_ends() -> CostRow
    ensures { (x : ℕ) → x < 64 → slice_index result x ≡ 0 }
{
    [0; STATES]
}

/// Returns the start or end costs if only `state`, below 64, is allowed: 0 for `state`, and more than any word costs
/// for every other state.
pub fn free_at(state: usize) -> CostRow
    requires { state < 64 }
    ensures row { (x : ℕ) → x < 64 → slice_index result x ≡ ends_in far state x }
    ensures room { (x : ℕ) → x < 64 → slice_index result x ≤ 2 ^ 30 }
{
    let mut row = [FAR; STATES];
    row[state] = 0;
    row
}

/// Returns the minimum key of the words whose path starts and ends in state `start`.
fn key_from(values: &[[i32; 3]], tables: &[StepCosts], rows: &mut [CostRow], start: usize) -> u128
    requires low { 6 ≤ length values.now }
    requires high { length values.now ≤ 64 }
    requires tables { length values.now ≤ length tables.now }
    requires rows { length values.now < length rows.old }
    requires costs { HaveCosts values.now tables.now (length values.now) }
    requires start { start < 64 }
    ensures bound { IsBound values.now start result }
    ensures reached { IsKeyOrFar values.now result }
    ensures count { length rows.new ≡ length rows.old }
{
    pass(values, tables, &free_at(start), rows);
    let (word, _) = walk(tables, rows, values.len(), start);
    key_of(rows[0][start], word)
}

/// Returns the start costs for the forward pass, given the minimum cost from each state: the higher this minimum, the
/// lower the start cost.
fn starts_by(from: &CostRow) -> CostRow
    ensures starts { (x : ℕ) → x < 64 → slice_index result x ≡ far - slice_index from.now x }
    ensures room { (x : ℕ) → x < 64 → slice_index result x ≤ 2 ^ 30 }
{
    let mut starts = [0; STATES];
    for x in 0..STATES {
        starts[x] = FAR.saturating_sub(from[x]);
    }
    starts
}

/// Writes each state's bound as a key: the minimum cost of reaching the state, in `to`, less the cost of a start there,
/// in `starts`. The word in the key is 0.
fn fill_bounds(starts: &CostRow, to: &CostRow, bounds: &mut [u128; 64])
    ensures { (x : ℕ) → x < 64 →
        slice_index bounds.new x ≡ (slice_index to.now x - slice_index starts.now x) * scale }
{
    for x in 0..STATES {
        bounds[x] = key_of(to[x].saturating_sub(starts[x]), 0);
    }
}

/// Raises each bound below `least` to the key of the minimum-cost path from its state. Returns the minimum of `least`
/// and the keys of the paths that end in their start state, since only such paths belong to words.
fn raise_bounds(
    values: &[[i32; 3]],
    tables: &[StepCosts],
    free: &[CostRow],
    bounds: &mut [u128; 64],
    least: u128,
) -> u128
    requires low { 6 ≤ length values.now }
    requires high { length values.now ≤ 64 }
    requires tables { length values.now ≤ length tables.now }
    requires rows { length values.now < length free.now }
    requires costs { HaveCosts values.now tables.now (length values.now) }
    requires pass { IsFreePass values.now free.now }
    requires bounds { AreBounds values.now bounds.old }
    requires reached { IsKeyOrFar values.now least }
    ensures bounds { AreBounds values.now bounds.new }
    ensures reached { IsKeyOrFar values.now result }
{
    let mut least = least;
    for start in 0..STATES {
        if bounds[start] < least {
            let (word, end) = walk(tables, free, values.len(), start);
            let key = key_of(free[0][start], word);
            bounds[start] = bounds[start].max(key);
            if end == start {
                least = least.min(key);
            }
        }
    }
    least
}

/// Returns the first state with the minimum bound.
fn state_of_least(bounds: &[u128; 64]) -> usize
    ensures state { result < 64 }
    ensures least { (x : ℕ) → x < 64 → slice_index bounds.now result ≤ slice_index bounds.now x }
{
    let mut least = 0;
    for x in 1..STATES {
        if bounds[x] < bounds[least] {
            least = x;
        }
    }
    least
}

/// Returns the minimum key among all words, given the step costs.
fn least_key(
    values: &[[i32; 3]],
    tables: &[StepCosts],
    free: &mut [CostRow],
    rows: &mut [CostRow],
) -> u128
    requires low { 6 ≤ length values.now }
    requires high { length values.now ≤ 64 }
    requires magnitudes { RowsWithin (2 ^ 20) values.now }
    requires tables { length values.now ≤ length tables.now }
    requires free { length values.now < length free.old }
    requires rows { length values.now < length rows.old }
    requires costs { HaveCosts values.now tables.now (length values.now) }
    ensures { IsLeastKey values.now result }
{
    let mut bounds = [0; STATES];
    pass(values, tables, &free_ends(), free);
    let starts = starts_by(&free[0]);
    fill_bounds(&starts, &reach(values, tables, &starts), &mut bounds);
    let mut start = state_of_least(&bounds);
    let mut least = key_from(values, tables, rows, start);
    bounds[start] = least;
    least = raise_bounds(values, tables, free, &mut bounds, least);
    start = state_of_least(&bounds);
    while bounds[start] < least {
        // The minimum key from a state is its best bound, and is no longer below `least`.
        let key = key_from(values, tables, rows, start);
        bounds[start] = key;
        least = least.min(key);
        start = state_of_least(&bounds);
    }
    least
}

/// Returns the minimum-cost word of N bits and its cost, given the step costs.
fn least_of<const N: usize>(
    values: &[[i32; 3]; N],
    tables: &[StepCosts],
    free: &mut [CostRow],
    rows: &mut [CostRow],
) -> (Bits<N>, u32)
    requires low { 6 ≤ N }
    requires high { N ≤ 64 }
    requires magnitudes { RowsWithin (2 ^ 20) values.now }
    requires tables { N ≤ length tables.now }
    requires free { N < length free.old }
    requires rows { N < length rows.old }
    requires costs { HaveCosts values.now tables.now N }
    ensures word { IsLeastWord values.now result.0 }
    ensures cost { result.1 ≡ word_cost values.now result.0 }
{
    let key = least_key(values, tables, free, rows);
    (Bits::of_number((key % SCALE) as u64), (key / SCALE) as u32)
}

/// Returns the word of N bits with the minimum cost, the lexicographically first of several, and its cost: the summed
/// magnitude of the values that contradict its coded bits. A positive value stands for bit 0.
pub fn least<const N: usize>(values: &[[i32; 3]; N], work: &mut Trellis) -> (Bits<N>, u32)
    requires low { 6 ≤ N }
    requires high { N ≤ 64 }
    requires magnitudes { RowsWithin (2 ^ 20) values.now }
    ensures word { IsLeastWord values.now result.0 }
    ensures cost { result.1 ≡ word_cost values.now result.0 }
{
    fill_costs(values, &mut work.tables);
    least_of(values, &work.tables, &mut work.free, &mut work.rows)
}

/// Returns the minimum-cost word and its cost as `least` does, given step costs that `fill_costs` wrote.
pub fn least_by<const N: usize>(
    values: &[[i32; 3]; N],
    tables: &[StepCosts],
    work: &mut Trellis,
) -> (Bits<N>, u32)
    requires low { 6 ≤ N }
    requires high { N ≤ 64 }
    requires magnitudes { RowsWithin (2 ^ 20) values.now }
    requires tables { N ≤ length tables.now }
    requires costs { HaveCosts values.now tables.now N }
    ensures word { IsLeastWord values.now result.0 }
    ensures cost { result.1 ≡ word_cost values.now result.0 }
{
    least_of(values, tables, &mut work.free, &mut work.rows)
}

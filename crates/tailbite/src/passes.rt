//! Passes over the trellis: the minimum cost from each state to a path's end, and from any start to each state.

ghost use Rattle.std.specs.Prelude.{◌≡◌, ◌≢◌, ℕ, ◌+◌, ◌*◌, ◌^◌, ◌<◌, ◌≤◌, false, [], length};
ghost use Rattle.std.specs.Prelude.{slice_index, slice_index_or};
ghost use Rattle.trellis.specs.Least.{IsLeastTo};
ghost use Rattle.trellis.specs.Paths.{end_of, walked};
ghost use Rattle.trellis.specs.Rows.{bit_out, least_out};
ghost use Rattle.cs_bits.specs.Numbers.{number};
ghost use Rattle.tailbite.specs.Machine.{first_from, shift, step_cost};
ghost use Rattle.tailbite.specs.Costs.{HaveCosts, shared_cost, shared_least};
ghost use Rattle.tailbite.specs.Passes.{IsPass, decoded_bit};

use crate::costs::StepCosts;
use crate::steps::next;

/// A row of the trellis: one cost per state.
pub type CostRow = [u32; 64];

/// Writes to `earlier` the minimum cost from each state, given the row of minimum costs one step later.
// If the function were inlined, its loops would not be compiled into vector instructions; nor would a loop that writes
// both states of a pair.
#[inline(never)]
fn step_back(costs: &StepCosts, row: &CostRow, earlier: &mut CostRow)
    requires small { (y : ℕ) → y < 64 → slice_index costs.now y ≤ 3 * 2 ^ 20 }
    requires room { (x : ℕ) → x < 64 → slice_index row.now x ≤ 2 ^ 31 }
    ensures least { (x : ℕ) → x < 64 → slice_index earlier.new x ≡ least_out shift (shared_cost costs.now) row.now x }
    ensures growth { (x : ℕ) → x < 64 → slice_index earlier.new x ≤ slice_index row.now (shift x false) + 3 * 2 ^ 20 }
{
    let mut even = [0; 32];
    let mut odd = [0; 32];
    for h in 0..32 {
        even[h] = (costs[h] + row[h]).min(costs[h + 32] + row[h + 32]);
        odd[h] = (costs[h + 32] + row[h]).min(costs[h] + row[h + 32]);
    }
    for h in 0..32 {
        earlier[2 * h] = even[h];
        earlier[2 * h + 1] = odd[h];
    }
}

/// Writes row `i`, the minimum costs from each state, from row `i + 1` and the step costs at position `i`.
fn write_earlier(costs: &StepCosts, rows: &mut [CostRow], i: usize)
    requires inside { i + 1 < length rows.old }
    requires small { (y : ℕ) → y < 64 → slice_index costs.now y ≤ 3 * 2 ^ 20 }
    requires room { (x : ℕ) → x < 64 → slice_index (slice_index_or rows.old (i + 1) []) x ≤ 2 ^ 31 }
    ensures least { (x : ℕ) → x < 64 →
        slice_index (slice_index_or rows.new i []) x
        ≡ least_out shift (shared_cost costs.now) (slice_index_or rows.old (i + 1) []) x }
    ensures growth { (x : ℕ) → x < 64 →
        slice_index (slice_index_or rows.new i []) x
        ≤ slice_index (slice_index_or rows.old (i + 1) []) (shift x false) + 3 * 2 ^ 20 }
    ensures others { (k : ℕ) → k ≢ i → slice_index_or rows.new k [] ≡ slice_index_or rows.old k [] }
    ensures count { length rows.new ≡ length rows.old }
{
    let (earlier, later) = rows.split_at_mut(i + 1);
    step_back(costs, &later[0], &mut earlier[i]);
}

/// Writes, for each position, the row of minimum costs from each state to a path's end, including the end state's cost
/// in `ends`. The row after the last position is `ends`.
pub(crate) fn pass(values: &[[i32; 3]], tables: &[StepCosts], ends: &CostRow, rows: &mut [CostRow])
    requires places { length values.now ≤ 64 }
    requires tables { length values.now ≤ length tables.now }
    requires rows { length values.now < length rows.old }
    requires costs { HaveCosts values.now tables.now (length values.now) }
    requires ends { (x : ℕ) → x < 64 → slice_index ends.now x ≤ 2 ^ 30 }
    ensures pass { IsPass values.now (slice_index ends.now) rows.new }
    ensures count { length rows.new ≡ length rows.old }
{
    let mut i = values.len();
    rows[i] = *ends;
    while i > 0 {
        i -= 1;
        write_earlier(&tables[i], rows, i);
    }
}

/// Returns the row of minimum costs to each state, one step after `row`. Costs in `row` are at most 2^31, step costs at
/// most 3 * 2^20.
#[inline(never)]
pub fn step_on(costs: &StepCosts, row: &CostRow) -> CostRow
    requires small { (y : ℕ) → y < 64 → slice_index costs.now y ≤ 3 * 2 ^ 20 }
    requires room { (x : ℕ) → x < 64 → slice_index row.now x ≤ 2 ^ 31 }
    ensures least { (x : ℕ) → x < 64 → slice_index result x ≡ shared_least costs.now row.now x }
    ensures growth { (x : ℕ) → x < 64 → slice_index result x ≤ slice_index row.now (first_from x) + 3 * 2 ^ 20 }
    ensures size { length result ≡ 64 }
{
    let mut later = [0; 64];
    for h in 0..32 {
        later[h] = (row[2 * h] + costs[h]).min(row[2 * h + 1] + costs[h + 32]);
        later[h + 32] = (row[2 * h] + costs[h + 32]).min(row[2 * h + 1] + costs[h]);
    }
    later
}

/// Returns the row of minimum costs of a path through all positions to each state, including the start state's cost in
/// `starts`.
pub(crate) fn reach(values: &[[i32; 3]], tables: &[StepCosts], starts: &CostRow) -> CostRow
    requires places { length values.now ≤ 64 }
    requires tables { length values.now ≤ length tables.now }
    requires costs { HaveCosts values.now tables.now (length values.now) }
    requires starts { (x : ℕ) → x < 64 → slice_index starts.now x ≤ 2 ^ 30 }
    ensures { (x : ℕ) → x < 64 →
        IsLeastTo shift (step_cost values.now) (slice_index starts.now) 64 (length values.now) x
        (slice_index result x) }
{
    let mut row = *starts;
    for i in 0..values.len() {
        row = step_on(&tables[i], &row);
    }
    row
}

/// Returns the first input bit on the minimum-cost path from `state`, if `row` has the minimum cost from each state one
/// step later. If both bits cost the same, returns 0, whose word is lexicographically first.
fn bit_from(costs: &StepCosts, row: &CostRow, state: usize) -> bool
    requires state { state < 64 }
    requires small { (y : ℕ) → y < 64 → slice_index costs.now y ≤ 3 * 2 ^ 20 }
    requires room { (x : ℕ) → x < 64 → slice_index row.now x ≤ 2 ^ 31 }
    ensures { result ≡ bit_out shift (shared_cost costs.now) row.now state }
{
    let half = state / 2;
    let (same, opposite) = if state % 2 == 0 {
        (half, half + 32)
    } else {
        (half + 32, half)
    };
    costs[opposite] + row[half + 32] < costs[same] + row[half]
}

/// Returns the word of `count` bits along the minimum-cost path from state `start`, as a number, and the state in which
/// the path ends.
pub(crate) fn walk(
    tables: &[StepCosts],
    rows: &[CostRow],
    count: usize,
    start: usize,
) -> (u64, usize)
    requires few { count ≤ 64 }
    requires tables { count ≤ length tables.now }
    requires rows { count < length rows.now }
    requires small { (k y : ℕ) → k < count → y < 64 → slice_index (slice_index_or tables.now k []) y ≤ 3 * 2 ^ 20 }
    requires room { (k x : ℕ) → k ≤ count → x < 64 → slice_index (slice_index_or rows.now k []) x ≤ 2 ^ 31 }
    requires start { start < 64 }
    ensures word { result.0 ≡ number (walked shift (decoded_bit tables.now rows.now) 0 count start) }
    ensures end { result.1 ≡ end_of shift start (walked shift (decoded_bit tables.now rows.now) 0 count start) }
{
    let mut state = start;
    let mut word: u64 = 0;
    for k in 0..count {
        let bit = bit_from(&tables[k], &rows[k + 1], state);
        word = 2 * word + bit as u64;
        state = next(state, bit);
    }
    (word, state)
}

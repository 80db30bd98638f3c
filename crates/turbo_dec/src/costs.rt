//! The encoder's step costs (branch metrics), and the rows of minimum costs.

ghost use Rattle.std.specs.Prelude.{◌≡◌, ℕ, ◌+◌, ◌*◌, ◌/◌, ◌^◌, ◌<◌, ◌≤◌, All, false, length, nat_abs, slice_index};
ghost use Rattle.trellis.specs.Least.{IsLeastVia};
ghost use Rattle.turbo_dec.specs.Decoder.{IsSmall};
ghost use Rattle.turbo_code.specs.Machine.{register, parity_bit, next, first_from};
ghost use Rattle.turbo_dec.specs.Costs.{edge_cost, tail_step_cost, tail_cost, forward_least, backward_least};

use cs_bits::disagreement_of;
use turbo_code::{before, bit_to, next, parity_bit, tail_bit, tail_parity};

const STATES: usize = 8;

/// A step's soft values: `sum` is the information bit's value plus its prior, and `parity` the parity bit's value.
#[derive(Drop)]
pub(crate) struct Soft {
    pub(crate) sum: i32,
    pub(crate) parity: i32,
    ghost sum_small: { nat_abs sum ≤ 8192 },
    ghost parity_small: { nat_abs parity ≤ 4096 },
}

/// Returns the cost of the step from state `x`, 0 to 7, with information bit `u`.
fn edge(soft: &Soft, x: usize, u: bool) -> u32
    requires state { x < 8 }
    ensures cost { result ≡ edge_cost soft.now.sum soft.now.parity x u }
    ensures bound { result ≤ 12288 }
{
    disagreement_of(soft.sum, u) + disagreement_of(soft.parity, parity_bit(x, u))
}

/// Returns the minimum cost to state `x`, given the row of minimum costs to each state one step before.
fn forward_at(soft: &Soft, row: &[u32; 8], x: usize) -> u32
    requires state { x < 8 }
    requires room { (y : ℕ) → y < 8 → slice_index row.now y ≤ 2 ^ 31 }
    ensures least { result ≡ forward_least soft.now.sum soft.now.parity row.now x }
    ensures growth { result ≤ slice_index row.now (first_from x) + 12288 }
{
    let (first, second) = before(x);
    let by_first = row[first] + edge(soft, first, bit_to(first, x));
    let by_second = row[second] + edge(soft, second, bit_to(second, x));
    by_first.min(by_second)
}

/// Returns the minimum cost from state `x`, given the row of minimum costs from each state one step later.
fn backward_at(soft: &Soft, row: &[u32; 8], x: usize) -> u32
    requires state { x < 8 }
    requires room { (y : ℕ) → y < 8 → slice_index row.now y ≤ 2 ^ 31 }
    ensures least { result ≡ backward_least soft.now.sum soft.now.parity row.now x }
    ensures growth { result ≤ slice_index row.now (next x false) + 12288 }
{
    let zero = edge(soft, x, false) + row[next(x, false)];
    let one = edge(soft, x, true) + row[next(x, true)];
    zero.min(one)
}

/// Returns the row of minimum costs to each state, one step after `row`.
pub(crate) fn forward_row(soft: &Soft, row: &[u32; 8]) -> [u32; 8]
    requires room { (y : ℕ) → y < 8 → slice_index row.now y ≤ 2 ^ 31 }
    ensures least { (x : ℕ) → x < 8 →
        slice_index result x ≡ forward_least soft.now.sum soft.now.parity row.now x }
    ensures growth { (x : ℕ) → x < 8 → slice_index result x ≤ slice_index row.now (first_from x) + 12288 }
    ensures size { length result ≡ 8 }
{
    let mut later = [0; STATES];
    for x in 0..STATES {
        later[x] = forward_at(soft, row, x);
    }
    later
}

/// Returns the row of minimum costs from each state, one step before `row`.
pub(crate) fn backward_row(soft: &Soft, row: &[u32; 8]) -> [u32; 8]
    requires room { (y : ℕ) → y < 8 → slice_index row.now y ≤ 2 ^ 31 }
    ensures least { (x : ℕ) → x < 8 →
        slice_index result x ≡ backward_least soft.now.sum soft.now.parity row.now x }
    ensures growth { (x : ℕ) → x < 8 → slice_index result x ≤ slice_index row.now (next x false) + 12288 }
    ensures size { length result ≡ 8 }
{
    let mut earlier = [0; STATES];
    for x in 0..STATES {
        earlier[x] = backward_at(soft, row, x);
    }
    earlier
}

/// Returns the minimum cost over paths whose step has information bit `b`, given the costs to each state before the
/// step and from each state after it.
pub(crate) fn least_through(soft: &Soft, before: &[u32; 8], after: &[u32; 8], b: bool) -> u32
    requires before { (y : ℕ) → y < 8 → slice_index before.now y ≤ 2 ^ 30 }
    requires after { (y : ℕ) → y < 8 → slice_index after.now y ≤ 2 ^ 30 }
    ensures least { IsLeastVia next (edge_cost soft.now.sum soft.now.parity)
        (slice_index before.now) (slice_index after.now) b 8 result }
    ensures bound { result ≤ slice_index before.now 0 + 12288 + slice_index after.now (next 0 b) }
{
    let mut least = before[0] + edge(soft, 0, b) + after[next(0, b)];
    for x in 1..STATES {
        least = least.min(before[x] + edge(soft, x, b) + after[next(x, b)]);
    }
    least
}

/// Returns the cost of tail step `j`, 0 to 2, from state `x`, 0 to 7.
fn tail_step(tail: &[i32; 6], j: usize, x: usize) -> u32
    requires step { j < 3 }
    requires small { All IsSmall tail.now }
    ensures cost { result ≡ tail_step_cost tail.now j x }
    ensures bound { result ≤ 8192 }
{
    disagreement_of(tail[2 * j], tail_bit(x)) + disagreement_of(tail[2 * j + 1], tail_parity(x))
}

/// Returns the cost of the three tail steps from state `x`, 0 to 7.
fn tail_at(tail: &[i32; 6], x: usize) -> u32
    requires state { x < 8 }
    requires small { All IsSmall tail.now }
    ensures cost { result ≡ tail_cost tail.now x }
    ensures bound { result ≤ 24576 }
{
    tail_step(tail, 0, x) + tail_step(tail, 1, x / 2) + tail_step(tail, 2, x / 2 / 2)
}

/// Returns the total cost of the three tail steps from each of the 8 states.
pub(crate) fn tail_row(tail: &[i32; 6]) -> [u32; 8]
    requires small { All IsSmall tail.now }
    ensures row { (x : ℕ) → x < 8 → slice_index result x ≡ tail_cost tail.now x }
    ensures room { (x : ℕ) → x < 8 → slice_index result x ≤ 24576 }
    ensures size { length result ≡ 8 }
{
    let mut row = [0; STATES];
    for x in 0..STATES {
        row[x] = tail_at(tail, x);
    }
    row
}

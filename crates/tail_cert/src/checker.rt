//! The check of a certificate.
//!
//! The stated cost must be the word's cost. Along each branch, a table's bound may rise by at most the branch's cost,
//! unless the bound before the branch is the entry that states none. For each start state, the cost may be at most the
//! bound for 40 steps back to it: in the state's own table if it has one, otherwise in the general table.

ghost use Rattle.std.specs.Prelude.{◌≡◌, ◌+◌, ◌*◌, ◌^◌, ◌<◌, ◌≤◌, ◌↔◌, ℕ, IsTrue, length, slice_index};
ghost use Rattle.finite.specs.Sizes.{RowsWithin};
ghost use Rattle.conv_code.specs.Cost.{word_cost};
ghost use Rattle.tail_cert.specs.Certificate.{from_any, from_state, IsAccepted, IsLowerBound, StartHolds, StepsHold};
ghost use Rattle.tail_cert.specs.Steps.{BothHold, RowHolds, StepHolds};
ghost use Rattle.tail_cert.specs.Stored.{HaveTables, shown_at};

use crate::Certificate;
use crate::certificate::{Table, has};
use crate::costs::PathCosts;
use conv_code::{against, encode};
use cs_bits::Bits;
use tailbite::{StepCosts, cost_at, fill_costs, next};

const STATES: usize = 64;

const STEPS: usize = 40;

/// The table entry that states no bound.
const UNBOUNDED: u32 = 0xffff_ffff;

/// Returns whether the bound rises from `from` to `to` by at most the branch's cost, or `from` states no bound.
fn step_holds(cost: u32, from: u32, to: u32) -> bool
    ensures { IsTrue result ↔ StepHolds cost from to }
{
    from == UNBOUNDED || to as u64 <= from as u64 + cost as u64
}

/// Returns whether the inequalities hold for both branches from state `x`, whose bound is `from`, to the states in the
/// row `to`.
fn both_hold(costs: &StepCosts, from: u32, to: &[u32; 64], x: usize) -> bool
    requires { x < 64 }
    ensures { IsTrue result ↔ BothHold costs.now from to.now x }
{
    step_holds(cost_at(costs, x, false), from, to[next(x, false)])
        && step_holds(cost_at(costs, x, true), from, to[next(x, true)])
}

/// Returns whether the inequalities hold for all branches from states `2 * h` and `2 * h + 1`, between the rows `from`
/// and `to`.
fn pair_holds(costs: &StepCosts, from: &[u32; 64], to: &[u32; 64], h: usize) -> bool
    requires { h < 32 }
    ensures { IsTrue result ↔ (BothHold costs.now (slice_index from.now (2 * h)) to.now (2 * h)
        × BothHold costs.now (slice_index from.now (2 * h + 1)) to.now (2 * h + 1)) }
{
    both_hold(costs, from[2 * h], to, 2 * h) && both_hold(costs, from[2 * h + 1], to, 2 * h + 1)
}

/// Returns whether the inequalities hold for all branches of one step, between the rows `from` and `to`.
fn row_holds(costs: &StepCosts, from: &[u32; 64], to: &[u32; 64]) -> bool
    ensures { IsTrue result ↔ RowHolds costs.now from.now to.now }
{
    for h in 0..STATES / 2 {
        if !pair_holds(costs, from, to, h) {
            return false;
        }
    }
    true
}

/// Returns whether the inequalities hold for all steps of `table`, with the bounds `first` before the first step.
fn steps_hold(costs: &PathCosts, first: &[u32; 64], table: &Table) -> bool
    ensures { IsTrue result ↔ StepsHold costs.now.values.now (λ x. slice_index first.now x) table.now }
{
    let mut from = first;
    for i in 0..STEPS {
        if !row_holds(&costs.steps[i], from, &table[i]) {
            return false;
        }
        from = &table[i];
    }
    true
}

/// Returns the bounds before the first step for paths that start in state `s`: 0 for `s`, and no bound for any other
/// state.
fn row_from(s: usize) -> [u32; 64]
    requires { s < 64 }
    ensures { (x : ℕ) → x < 64 → slice_index result x ≡ from_state s x }
{
    let mut row = [UNBOUNDED; 64];
    row[s] = 0;
    row
}

/// Returns whether start state `s` is accepted: `cost` is at most the bound for 40 steps to `s`, in the state's own
/// table, whose inequalities must all hold, or in the general table if it has none.
fn start_holds(
    costs: &PathCosts,
    cost: u32,
    general: &Table,
    set: &Bits<64>,
    tables: &[Table],
    s: usize,
) -> bool
    requires state { s < 64 }
    requires room { HaveTables set.now tables.now }
    ensures { IsTrue result
        ↔ StartHolds costs.now.values.now cost general.now s (shown_at set.now tables.now s) }
{
    if has(set, s) {
        steps_hold(costs, &row_from(s), &tables[s]) && cost <= tables[s][STEPS - 1][s]
    } else {
        cost <= general[STEPS - 1][s]
    }
}

/// Returns whether every start state is accepted: `cost` is at most the bound for 40 steps back to the state, and the
/// inequalities of the state's own table, if there is one, hold.
fn starts_hold(
    costs: &PathCosts,
    cost: u32,
    general: &Table,
    set: &Bits<64>,
    tables: &[Table],
) -> bool
    requires { HaveTables set.now tables.now }
    ensures { IsTrue result ↔ ((s : ℕ) → s < 64 →
        StartHolds costs.now.values.now cost general.now s (shown_at set.now tables.now s)) }
{
    for s in 0..STATES {
        if !start_holds(costs, cost, general, set, tables, s) {
            return false;
        }
    }
    true
}

/// Returns whether the inequalities of the general table hold, and every start state is accepted.
fn tables_hold(
    values: &[[i32; 3]; 40],
    cost: u32,
    general: &Table,
    set: &Bits<64>,
    tables: &[Table],
) -> bool
    requires magnitudes { RowsWithin (2 ^ 20) values.now }
    requires room { HaveTables set.now tables.now }
    ensures { IsTrue result ↔ (StepsHold values.now from_any general.now × ((s : ℕ) → s < 64 →
        StartHolds values.now cost general.now s (shown_at set.now tables.now s))) }
{
    let mut steps = [[0; 64]; 40];
    fill_costs(values, &mut steps);
    let costs = PathCosts {
        values,
        steps: &steps,
    };
    steps_hold(&costs, &[0; STATES], general) && starts_hold(&costs, cost, general, set, tables)
}

/// Returns the cost of `word`: the summed magnitudes of the values that contradict the word's coded bits.
fn cost_of(values: &[[i32; 3]; 40], word: &Bits<40>) -> u32
    requires magnitudes { RowsWithin (2 ^ 20) values.now }
    requires bits { length word.now ≡ 40 }
    ensures { result ≡ word_cost values.now word.now }
{
    let coded = encode(word);
    let mut cost = 0;
    for k in 0..STEPS {
        cost += against(&values[k], &coded[k]);
    }
    cost
}

/// Returns whether a certificate is accepted: its stated cost is its word's cost, and its tables show that no path with
/// equal start and end states costs less. No 40-bit word costs less than an accepted certificate's cost.
pub fn check(certificate: &Certificate) -> bool
    ensures accepted { IsTrue result ↔ IsAccepted certificate.now }
    ensures least { IsTrue result → IsLowerBound certificate.now.values certificate.now.cost }
{
    cost_of(&certificate.values, &certificate.word) == certificate.cost
        && tables_hold(
            &certificate.values,
            certificate.cost,
            &certificate.general,
            &certificate.set,
            &certificate.tables,
        )
}

//! The filling of a certificate.
//!
//! The general table holds the minimum costs from any start state. A start state has its own table if its bound in the
//! general table, after 40 steps back to it, is below the word's cost. A start state's own table holds the minimum
//! costs from this state, where a start in any other state costs 2^30.

ghost use Rattle.std.specs.Prelude.{◌≡◌, ◌*◌, ◌^◌, ◌<◌, ◌≤◌, ℕ, [], length, nat_lt, slice_index, slice_index_or, true};
ghost use Rattle.finite.specs.Sizes.{RowsWithin};
ghost use Rattle.tailbite.specs.LeastWord.{IsLeastWord};
ghost use Rattle.tail_cert.specs.Certificate.{IsAccepted, IsTable, bound, from_any};
ghost use Rattle.tail_cert.specs.Forward.{HasLeastRows, IsFilled, IsTableFrom};
ghost use Rattle.tail_cert.specs.Stored.{AreStored, has_table};

use crate::Certificate;
use crate::certificate::{Table, has, make_tables};
use crate::costs::PathCosts;
use cs_bits::Bits;
use tailbite::{Trellis, fill_costs, free_at, least_by, step_on};

const STATES: usize = 64;

const STEPS: usize = 40;

/// Fills `table` with the minimum costs to each state after each step, from the start costs in `start`.
fn fill_table(costs: &PathCosts, start: &[u32; 64], table: &mut Table)
    requires room { (y : ℕ) → y < 64 → slice_index start.now y ≤ 2 ^ 30 }
    ensures rows { HasLeastRows costs.now.values.now start.now table.new 40 }
    ensures size { length table.new ≡ 40 }
{
    let mut row = *start;
    for k in 0..STEPS {
        row = step_on(&costs.steps[k], &row);
        table[k] = row;
    }
}

/// Fills `table` for start state `s`: the minimum costs of paths from `s`, where a start in any other state costs 2^30.
fn fill_start(costs: &PathCosts, s: usize, table: &mut Table)
    requires state { s < 64 }
    ensures bounds { IsTableFrom costs.now.values.now s table.new }
    ensures whole { IsTable table.new }
{
    fill_table(costs, &free_at(s), table);
}

/// Returns the set of start states whose bound in the general table, after 40 steps back to them, is below `cost`.
fn states_below(cost: u32, general: &Table) -> Bits<64>
    ensures needed { (s : ℕ) → s < 64 → has_table result s ≡ nat_lt (bound from_any general.now 40 s) cost }
    ensures states { length result ≡ 64 }
{
    let mut set = [false; 64];
    for s in 0..STATES {
        set[63 - s] = general[STEPS - 1][s] < cost;
    }
    Bits::new(set)
}

/// Fills the tables of the start states in `set`.
fn fill_tables(costs: &PathCosts, set: &Bits<64>, tables: &mut [Table])
    requires tables { AreStored set.now tables.old }
    ensures bounds { (s : ℕ) → s < 64 → has_table set.now s ≡ true →
        IsTableFrom costs.now.values.now s (slice_index_or tables.new s []) }
    ensures tables { AreStored set.now tables.new }
{
    for s in 0..STATES {
        if has(set, s) {
            fill_start(costs, s, &mut tables[s]);
        }
    }
}

/// Returns a copy of the three soft values of a position.
fn triple_of(values: &[i32; 3]) -> [i32; 3]
    ensures same { result ≡ values.now }
    ensures count { length result ≡ 3 }
{
    *values
}

/// Returns a copy of all soft values, three per position.
fn copy_of(values: &[[i32; 3]; 40]) -> [[i32; 3]; 40]
    ensures same { result ≡ values.now }
    ensures count { (k : ℕ) → k < 40 → length (slice_index_or result k []) ≡ 3 }
{
    let mut copy = [[0; 3]; 40];
    for k in 0..STEPS {
        copy[k] = triple_of(&values[k]);
    }
    copy
}

/// Fills a certificate with `values`, three per position and each at most 2,032 in magnitude, their minimum-cost word,
/// its cost, and the tables. The certificate is then accepted.
pub fn fill(certificate: &mut Certificate, values: &[[i32; 3]; 40], work: &mut Trellis)
    requires { RowsWithin 2032 values.now }
    ensures accepted { IsAccepted certificate.new }
    ensures values { certificate.new.values ≡ values.now }
    ensures word { IsLeastWord values.now certificate.new.word }
    ensures filled { IsFilled certificate.new }
{
    let mut steps = [[0; 64]; 40];
    fill_costs(values, &mut steps);
    let (word, cost) = least_by(values, &steps, work);
    let costs = PathCosts {
        values,
        steps: &steps,
    };
    let copied = copy_of(costs.values);
    fill_table(&costs, &[0; STATES], &mut certificate.general);
    certificate.set = states_below(cost, &certificate.general);
    make_tables(&certificate.set, &mut certificate.tables);
    fill_tables(&costs, &certificate.set, &mut certificate.tables);
    certificate.values = copied;
    certificate.word = word;
    certificate.cost = cost;
}

//! Step costs, computed once for all passes.

ghost use Rattle.std.specs.Prelude.{◌≡◌, ℕ, ◌*◌, ◌^◌, ◌<◌, ◌≤◌, length, slice_index};
ghost use Rattle.finite.specs.Sizes.{AllWithin, RowsWithin};
ghost use Rattle.tailbite.specs.Costs.{AreCosts, HaveCosts, code_cost, shared_cost, spread_costs};

use crate::steps::next;
use conv_code::against;

/// The step costs at one position. Entry h is the cost of the steps from state 2h with input bit 0 and from 2h + 1 with
/// 1, which have the same coded bits. Entry h + 32 is the cost of the steps from 2h with 1 and from 2h + 1 with 0,
/// which have the complementary bits.
pub type StepCosts = [u32; 64];

/// Returns the cost of each combination of three coded bits against one position's values. The index is the bits as a
/// number, the first stream's bit most significant.
fn code_costs(values: &[i32; 3]) -> [u32; 8]
    requires { AllWithin (2 ^ 20) values.now }
    ensures costs { (p : ℕ) → p < 8 → slice_index result p ≡ code_cost values.now p }
    ensures small { (p : ℕ) → p < 8 → slice_index result p ≤ 3 * 2 ^ 20 }
{
    let mut costs = [0; 8];
    for p in 0..8 {
        costs[p] = against(values, &[p / 4 % 2 == 1, p / 2 % 2 == 1, p % 2 == 1]);
    }
    costs
}

/// Returns one position's step cost table, given the cost of each combination of three coded bits.
// The table is written out, so the compiler assembles it from parts of vectors; in a loop it would look up each cost
// separately.
fn spread(by_code: &[u32; 8]) -> StepCosts
    ensures { result ≡ spread_costs by_code.now }
{
    [
        by_code[0], by_code[4], by_code[1], by_code[5], by_code[6], by_code[2], by_code[7],
        by_code[3], by_code[7], by_code[3], by_code[6], by_code[2], by_code[1], by_code[5],
        by_code[0], by_code[4], by_code[3], by_code[7], by_code[2], by_code[6], by_code[5],
        by_code[1], by_code[4], by_code[0], by_code[4], by_code[0], by_code[5], by_code[1],
        by_code[2], by_code[6], by_code[3], by_code[7], by_code[7], by_code[3], by_code[6],
        by_code[2], by_code[1], by_code[5], by_code[0], by_code[4], by_code[0], by_code[4],
        by_code[1], by_code[5], by_code[6], by_code[2], by_code[7], by_code[3], by_code[4],
        by_code[0], by_code[5], by_code[1], by_code[2], by_code[6], by_code[3], by_code[7],
        by_code[3], by_code[7], by_code[2], by_code[6], by_code[5], by_code[1], by_code[4],
        by_code[0],
    ]
}

/// Returns the table of step costs for one position's values, which are at most 2^20 in magnitude.
fn costs_of(values: &[i32; 3]) -> StepCosts
    requires { AllWithin (2 ^ 20) values.now }
    ensures { AreCosts values.now result }
{
    spread(&code_costs(values))
}

/// Writes the table of step costs for each position to `tables`, which is at least as long as `values`. Values have
/// magnitude at most 2^20.
pub fn fill_costs(values: &[[i32; 3]], tables: &mut [StepCosts])
    requires room { length values.now ≤ length tables.old }
    requires magnitudes { RowsWithin (2 ^ 20) values.now }
    ensures costs { HaveCosts values.now tables.new (length values.now) }
    ensures count { length tables.new ≡ length tables.old }
{
    for k in 0..values.len() {
        tables[k] = costs_of(&values[k]);
    }
}

/// Returns the cost of the step from state `x`, below 64, with input bit `b`.
pub fn cost_at(costs: &StepCosts, x: usize, b: bool) -> u32
    requires { x < 64 }
    ensures { result ≡ shared_cost costs.now x b }
{
    costs[next(x, b ^ (x % 2 == 1))]
}

//! Sums of the broadcast channel's soft values over all frames.

ghost use Rattle.std.specs.Prelude.{◌≡◌, ◌+◌, ◌*◌, ◌^◌, ◌<◌, ◌≤◌, ◌+ℤ◌, length, nat_abs};
ghost use Rattle.finite.specs.Sizes.{AllWithin, RowsWithin};
ghost use Rattle.finite.specs.Lists.{values_below};
ghost use Rattle.added_master.specs.Sums.{period_sums as period_sums_of, sums_in_period as sums_in_period_of};
ghost use Rattle.added_master.specs.Sums.{added_sums as added_sums_of, added_to, added_row, turned};

use crate::counting::changed_bits;
use lte_types::CellId;
use pbch::{Received, WordSums, sums_of};

/// Returns the combined soft values in each of five periods, by coded bit, from `frames`, at most 17. The first frame's
/// number modulo 4 is `phase`, 0 to 3.
pub fn period_sums(id: CellId, phase: usize, frames: &[Received]) -> [WordSums; 5]
    requires phase { phase < 4 }
    requires few { length frames.now ≤ 17 }
    ensures { result ≡ period_sums_of id phase frames.now }
{
    [
        sums_in_period(id, phase, 0, frames),
        sums_in_period(id, phase, 1, frames),
        sums_in_period(id, phase, 2, frames),
        sums_in_period(id, phase, 3, frames),
        sums_in_period(id, phase, 4, frames),
    ]
}

// Returns the combined soft values in period `d`, by coded bit.
fn sums_in_period(id: CellId, phase: usize, d: usize, frames: &[Received]) -> WordSums
    requires phase { phase < 4 }
    requires period { d < 5 }
    requires few { length frames.now ≤ 17 }
    ensures { result ≡ sums_in_period_of id phase frames.now d }
{
    let end = (4 * d + 4 - phase).min(frames.len());
    let start = (4 * d).saturating_sub(phase).min(end);
    let first = 480 * phase.saturating_sub(4 * d);
    WordSums::new(&sums_of(id, first, &frames[start..end]))
}

/// Returns the 120 sums over all periods. Each period's soft values are first counted back to the first period, in
/// which the upper eight frame number bits are `upper`.
pub fn added_sums(sums: &[WordSums; 5], upper: u8) -> [[i32; 3]; 40]
    ensures sums { result ≡ added_sums_of sums.now upper }
    ensures magnitudes { RowsWithin (2 ^ 20) result }
{
    let mut added = [[0; 3]; 40];
    for d in 0..5 {
        added = plus(&added, &sums[d].rows(), &changed_bits(upper, d as u8));
    }
    added
}

// Returns `sums` with `values` added, or subtracted where the coded bit is 1.
fn plus(sums: &[[i32; 3]; 40], values: &[[i32; 3]; 40], coded: &[[bool; 3]; 40]) -> [[i32; 3]; 40]
    requires sums { RowsWithin (2 ^ 16) sums.now }
    requires values { RowsWithin 2032 values.now }
    ensures { result ≡ added_to sums.now values.now coded.now }
{
    let mut out = [[0; 3]; 40];
    for k in 0..40 {
        out[k] = row_plus(&sums[k], &values[k], &coded[k]);
    }
    out
}

// Returns the row `sums` with `values` added, or subtracted where the coded bit is 1.
fn row_plus(sums: &[i32; 3], values: &[i32; 3], coded: &[bool; 3]) -> [i32; 3]
    requires sums { AllWithin (2 ^ 16) sums.now }
    requires values { AllWithin 2032 values.now }
    ensures { result ≡ values_below 3 (added_row sums.now values.now coded.now) }
{
    [
        one_plus(sums[0], values[0], coded[0]),
        one_plus(sums[1], values[1], coded[1]),
        one_plus(sums[2], values[2], coded[2]),
    ]
}

// Returns `sum` plus `value`, or less `value` if `bit` is 1.
fn one_plus(sum: i32, value: i32, bit: bool) -> i32
    requires sum { nat_abs sum ≤ 2 ^ 16 }
    requires value { nat_abs value ≤ 2032 }
    ensures { result ≡ sum +ℤ turned bit value }
{
    if bit { sum - value } else { sum + value }
}

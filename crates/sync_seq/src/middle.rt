//! The central 62 of 72 subcarriers, which carry the synchronisation signals.

ghost use Rattle.std.specs.Prelude.{◌≡◌, ◌<◌};
ghost use Rattle.finite.specs.Lists.{values_below};
ghost use Rattle.cs_num.specs.Complex.{value_at};
ghost use Rattle.sync_seq.specs.Middle.{is_middle as is_in_middle, in_middle as middle_grid};
ghost use Rattle.lte_types.specs.Numerology.{subcarriers};

use cs_num::Cpx;
use lte_types::SUBCARRIERS;

/// The subcarrier that carries the first of a sequence's 62 values; the other values follow in order (TS 36.211
/// sections 6.11.1.2 and 6.11.2.2).
pub const MIDDLE: usize = 5;

/// Returns whether subcarrier `k` is one of the central 62.
pub fn is_middle(k: usize) -> bool
    ensures { result ≡ is_in_middle k }
{
    MIDDLE <= k && k < MIDDLE + 62
}

/// Returns the 72 subcarriers of a symbol that carries `values` on the central 62, and 0 elsewhere.
pub fn in_middle(values: &[Cpx; 62]) -> [Cpx; SUBCARRIERS]
    ensures { result ≡ values_below subcarriers (middle_grid (value_at values.now)) }
{
    let mut grid = [Cpx::ZERO; SUBCARRIERS];
    for k in 0..SUBCARRIERS {
        grid[k] = middle_value(values, k);
    }
    grid
}

// Returns the value on subcarrier `k`, 0 outside the central 62.
#[tactic(auto, using(std::proofs::lemmas::Bool::Decides::nat_tests))]
fn middle_value(values: &[Cpx; 62], k: usize) -> Cpx
    requires { k < subcarriers }
    ensures { result ≡ middle_grid (value_at values.now) k }
{
    if is_middle(k) {
        values[k - MIDDLE]
    } else {
        Cpx::ZERO
    }
}

//! The inverse transform: from 72 subcarriers to a symbol's useful part.

ghost use Rattle.std.specs.Prelude.{◌≡◌, ℕ, ◌*◌, ◌%◌, ◌<◌, All, slice_index_or};
ghost use Rattle.finite.specs.Lists.{values_below};
ghost use Rattle.cs_num.specs.Complex.{IsWithin, times, value_at};
ghost use Rattle.fold128.specs.Tables.{w_at};
ghost use Rattle.fold128.specs.Symbol.{frequency, useful_part};
ghost use Rattle.fold128.specs.Folding.{empty_quartet, unfolded, added, AreWithin};
ghost use Rattle.lte_types.specs.Numerology.{subcarriers, useful_length};

use crate::quartet::{Quartet, unfold_four};
use crate::tables::w;
use cs_num::Cpx;
use lte_types::{SUBCARRIERS, USEFUL_LENGTH};

/// Synthesises the 128 samples of a symbol's useful part from its 72 subcarrier values, scaled by 2^-17 and rounded
/// (TS 36.211 section 6.12, in integers). Components of the values have magnitude at most 127.
pub fn synth(grid: &[Cpx; SUBCARRIERS]) -> [Cpx; USEFUL_LENGTH]
    requires { All (IsWithin 127) grid.now }
    ensures { result ≡ useful_part (value_at grid.now) }
{
    let mut parts = [Quartet::EMPTY; 32];
    for k in 0..SUBCARRIERS {
        add_tone(&mut parts, grid[k], frequency_of(k));
    }
    let samples = unfold(&parts);
    let mut out = [Cpx::ZERO; USEFUL_LENGTH];
    for n in 0..USEFUL_LENGTH {
        out[n] = samples[n % 32].of_residue(n / 32).round_shift(17);
    }
    out
}

// Adds one subcarrier's contribution to each quartet, at the residue of `frequency` modulo 4.
fn add_tone(parts: &mut [Quartet; 32], value: Cpx, frequency: usize)
    requires small { All (AreWithin 1073741824) parts.old }
    requires value { IsWithin 127 value }
    requires frequency { frequency < useful_length }
    ensures { (m : ℕ) → m < 32 → slice_index_or parts.new m empty_quartet
        ≡ added (slice_index_or parts.old m empty_quartet) (frequency % 4) (times value (w_at (frequency * m))) }
{
    if value.re == 0 && value.im == 0 {
        return;
    }
    for m in 0..32 {
        parts[m].add(frequency % 4, value.mul(w(frequency * m)));
    }
}

// Unfolds the 32 quartets to 128 samples. Each quartet gives four samples at distance 32.
fn unfold(parts: &[Quartet; 32]) -> [Quartet; 32]
    requires { All (AreWithin 1073741824) parts.now }
    ensures value { result ≡ values_below 32 (λ m. unfolded (slice_index_or parts.now m empty_quartet)) }
    ensures small { All (AreWithin 4294967296) result }
{
    let mut samples = [Quartet::EMPTY; 32];
    for m in 0..32 {
        samples[m] = unfold_four(parts[m]);
    }
    samples
}

// Returns subcarrier `k`'s frequency, modulo 128.
pub(crate) fn frequency_of(k: usize) -> usize
    requires { k < subcarriers }
    ensures value { result ≡ frequency k }
    ensures small { result < useful_length }
{
    if k < 36 { k + 92 } else { k - 35 }
}

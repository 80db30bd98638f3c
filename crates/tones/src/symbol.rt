//! Demodulation of one symbol.

ghost use Rattle.std.specs.Prelude.{◌≡◌, ◌+◌, ◌-◌, ◌^◌, ◌<◌, ◌≤◌, All, IfOk, length};
ghost use Rattle.cs_num.specs.Complex.{IsWithin};
ghost use Rattle.wide_cell.specs.Cell.{points as points_at, subcarriers};
ghost use Rattle.tones.specs.Seen.{frequency, seen_symbol, wide_start as wide_start_of};
ghost use Rattle.tones.specs.Folding.{value_from};

use crate::Tones;
use crate::folding::{fold, tone_sum};
use cs_num::Cpx;
use halving::WideRecording;
use lte_types::Prefix;
use std::alloc::{AllocError, Global};
use wide_cell::points;

/// Demodulates the symbol whose useful part begins at sample `start`: the DFT at a cell's subcarriers, divided by
/// 2^(16 + rate) and rounded. Components are within 2^25. Fails only if an allocation fails. (own; TS 36.211 section
/// 6.12 inverted)
pub fn demodulate(
    alloc: Global,
    tones: &Tones,
    wide: &WideRecording,
    blocks: u8,
    start: usize,
) -> Result<Vec<Cpx>, AllocError>
    requires within { subcarriers blocks < points_at wide.now.rate }
    requires inside { start + points_at wide.now.rate ≤ length wide.now.samples }
    ensures value { IfOk result (λ values. values.items ≡ seen_symbol wide.now blocks start) }
    ensures small { IfOk result (λ values. All (IsWithin (2 ^ 25)) values.items) }
{
    let rate = wide.rate();
    let folded = fold(alloc, &wide.as_slice()[start..start + points(rate)])?;
    let count = 12 * blocks as usize;
    let mut values = Vec::with_capacity(alloc, count)?;
    for k in 0..count {
        values.push(value_of(tones, &folded, rate, frequency_of(rate, blocks, k)))?;
    }
    Ok(values)
}

// Returns the value received at a frequency, from folded samples.
fn value_of(tones: &Tones, folded: &[Cpx], rate: u8, frequency: usize) -> Cpx
    requires rate { rate ≤ 4 }
    requires folded { length folded.now ≡ points_at rate }
    requires frequency { frequency < points_at rate }
    requires small { All (IsWithin 131072) folded.now }
    ensures value { result ≡ value_from folded.now rate frequency }
    ensures small { IsWithin (2 ^ 25) result }
{
    let quarter = folded.len() / 4;
    let first = frequency % 4 * quarter;
    let row = &folded[first..first + quarter];
    tone_sum(tones, row, stride(rate) * frequency).round_shift(16 + u32::from(rate))
}

// Returns the distance in T of the entries that belong to a rate.
fn stride(rate: u8) -> usize
    requires { rate ≤ 4 }
    ensures value { result ≡ 2 ^ (4 - rate) }
    ensures small { result ≤ 16 }
{
    1 << (4 - rate)
}

// Returns subcarrier `k`'s frequency, modulo the number of points.
fn frequency_of(rate: u8, blocks: u8, k: usize) -> usize
    requires rate { rate ≤ 4 }
    requires within { subcarriers blocks < points_at rate }
    requires k { k < subcarriers blocks }
    ensures value { result ≡ frequency rate blocks k }
    ensures small { result < points_at rate }
{
    let half = 6 * blocks as usize;
    if k < half {
        points(rate) + k - half
    } else {
        k + 1 - half
    }
}

/// Returns the sample at which a symbol's useful part begins, for a frame that begins at sample `frame` at 1.92 million
/// samples per second. `rate` is at most 4, and `frame` below 2^40.
pub fn wide_start(rate: u8, frame: usize, slot: u8, symbol: u8) -> usize
    requires rate { rate ≤ 4 }
    requires frame { frame < 2 ^ 40 }
    ensures { result ≡ wide_start_of rate frame slot symbol }
{
    (1 << rate) * Prefix::NORMAL.useful_start(frame, slot as usize, symbol as usize)
}

//! The detection of a cell at a candidate.

ghost use Rattle.std.specs.Prelude.{◌≡◌, ◌*◌, ◌^◌, ◌≤◌, length, nat_abs, IfSome};
ghost use Rattle.finite.specs.Sizes.{AllWithin};
ghost use Rattle.finite.specs.Lists.{values_below};
ghost use Rattle.lte_types.specs.Numerology.{normal, subcarriers, symbol_step};
ghost use Rattle.pss_search.specs.Correlation.{pss_grid, wave_list};
ghost use Rattle.accumulated_sss.specs.Signs.{last_end, next_half as half_after};
ghost use Rattle.accumulated_sss.specs.Detection.{IsDetection, above_0, detection_at, power_of};
ghost use Rattle.accumulated_sss.specs.Steps.{signal_sum_by};

use crate::best::{Pair, most_matching};
use crate::matching::{signed_sum, signs};
use crate::rows::row;
use cs_num::Cpx;
use fold128::synth;
use lte_types::{Half, SUBCARRIERS, USEFUL_LENGTH};
use pss_search::signal_power;
use sample_file::Recording;
use sync_seq::{in_middle, pss, sss};

// How many of 124 signs have to match.
const LEAST_MATCHES: u8 = 93;

/// What is detected at a candidate. (own)
#[derive(Clone, Copy, Debug, PartialEq, Eq)]
pub struct Detection {
    /// The identity group, 0 to 167.
    pub n1: u16,
    /// The half of a frame, 0 or 5 by its first subframe, to which half-frames of even number belong.
    pub half: Half,
    /// How many of 124 signs match, 93 to 124.
    pub matches: u8,
    /// About the energy of 24 received reference signals of the cell, in the unit of a demodulated value's square.
    pub power: u64,
}

/// Detects a cell at position `t`, at least 137, of the primary signal `n2` in the first `halves` half-frames, at least
/// one; the recording has their primary symbols. Returns `None` if fewer than 93 of 124 signs match. (own)
pub fn detect(recording: &Recording, halves: usize, t: usize, n2: u8) -> Option<Detection>
    requires first { symbol_step normal ≤ t }
    requires some { 1 ≤ halves }
    requires covered { last_end halves t ≤ length recording.now }
    requires member { n2 ≤ 2 }
    ensures value { result ≡ detection_at recording.now halves t n2 }
    ensures right { IfSome result (IsDetection recording.now halves t n2) }
{
    let wave = wave_of(n2);
    let count = recording.len();
    prove!(count <= 1_920_000);
    let even = row(recording, halves, t, n2, &wave, 0);
    let odd = row(recording, halves, t, n2, &wave, 1);
    let pair = most_matching(&signs(&even.votes), &signs(&odd.votes), n2);
    if pair.matches < LEAST_MATCHES {
        return None;
    }
    let sum = signal_sum(&even.products, &odd.products, n2, pair);
    Some(Detection {
        n1: pair.n1,
        half: pair.half,
        matches: pair.matches,
        power: power(halves, n2, sum),
    })
}

// Returns the elements of a symbol that carries the primary signal `n2` alone.
fn grid_of(n2: u8) -> [Cpx; SUBCARRIERS]
    requires { n2 ≤ 2 }
    ensures { result ≡ values_below subcarriers (pss_grid n2) }
{
    in_middle(&pss(n2))
}

// Returns the 128 samples of the primary signal `n2`.
fn wave_of(n2: u8) -> [Cpx; USEFUL_LENGTH]
    requires { n2 ≤ 2 }
    ensures { result ≡ wave_list n2 }
{
    synth(&grid_of(n2))
}

// Returns the sum of all products, each times the sign of the pair's group. `even` and `odd` are the products summed
// over half-frames of even and of odd number.
fn signal_sum(even: &[i128; 62], odd: &[i128; 62], n2: u8, pair: Pair) -> i128
    requires even { AllWithin (2 ^ 64) even.now }
    requires odd { AllWithin (2 ^ 64) odd.now }
    requires member { n2 ≤ 2 }
    requires group { pair.n1 ≤ 167 }
    ensures value { result ≡ signal_sum_by even.now odd.now n2 pair.n1 pair.half }
    ensures small { nat_abs result ≤ 2 ^ 71 }
{
    signed_sum(even, &sss(pair.n1, n2, pair.half))
        + signed_sum(odd, &sss(pair.n1, n2, next_half(pair.half)))
}

// Returns the half-frame after `half`.
fn next_half(half: Half) -> Half
    ensures { result ≡ half_after half }
{
    match half {
        Half::Zero => Half::Five,
        Half::Five => Half::Zero,
    }
}

// Returns the power of the cell's pilots from the sum of its products.
fn power(halves: usize, n2: u8, sum: i128) -> u64
    requires some { 1 ≤ halves }
    requires member { n2 ≤ 2 }
    requires small { nat_abs sum ≤ 2 ^ 71 }
    ensures { result ≡ power_of halves n2 sum }
{
    (24 * 8_128 * above_zero(sum) / (62 * halves as u128 * signal_power(n2) as u128)) as u64
}

// Returns `number`, or 0 in place of a negative one.
fn above_zero(number: i128) -> u128
    ensures { result ≡ above_0 number }
{
    if number < 0 { 0 } else { number.unsigned_abs() }
}

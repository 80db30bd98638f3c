//! OFDM demodulation of one symbol: the 128-point DFT of its useful part at 72 subcarriers, rounded.
//! Tests: the crates `low_tests` and `code_tests`.
#![tactic(auto)]

ghost use Rattle.std.specs.Prelude.{◌≡◌, ℕ, ◌+◌, ◌^◌, ◌≤◌, All, length, slice_range};
ghost use Rattle.cs_num.specs.Complex.{IsWithin, value_at, sample_at};
ghost use Rattle.observe.specs.Seen.{seen_symbol};
ghost use Rattle.observe.specs.Steps.{seen_of, rounded_values};
ghost use Rattle.lte_types.specs.Numerology.{useful_length};

use cs_num::{Cpx, Sample};
use fold128::transform;
use lte_types::{SUBCARRIERS, USEFUL_LENGTH};
use sample_file::Recording;

/// Returns the symbol whose useful part begins at sample `start`, demodulated: its 128-point DFT at 72 subcarriers,
/// divided by 2^12 and rounded. Components have magnitude at most 23,726,080, below 2^25. (own; TS 36.211 section 6.12
/// inverted)
pub fn symbol(recording: &Recording, start: usize) -> [Cpx; SUBCARRIERS]
    requires { start + useful_length ≤ length recording.now }
    ensures value { result ≡ seen_symbol recording.now start }
    ensures small { All (IsWithin (2 ^ 25)) result }
    ensures bound { All (IsWithin 23726080) result }
{
    values_of(&window(recording, start))
}

// Returns the demodulated values at 72 subcarriers for a useful part of 128 samples.
fn values_of(samples: &[Sample; USEFUL_LENGTH]) -> [Cpx; SUBCARRIERS]
    ensures value { result ≡ seen_of (sample_at samples.now) }
    ensures small { All (IsWithin 23726080) result }
{
    round_all(&transform(samples))
}

// Returns the 128 samples of `recording` from sample `start`.
fn window(recording: &Recording, start: usize) -> [Sample; USEFUL_LENGTH]
    requires { start + useful_length ≤ length recording.now }
    ensures { result ≡ slice_range recording.now start (start + useful_length) }
{
    let mut samples = [Sample { re: 0, im: 0 }; USEFUL_LENGTH];
    samples.copy_from_slice(&recording.as_slice()[start..start + USEFUL_LENGTH]);
    samples
}

// Returns the DFT sums divided by 2^12 and rounded.
fn round_all(sums: &[Cpx; SUBCARRIERS]) -> [Cpx; SUBCARRIERS]
    requires { All (IsWithin 97182023680) sums.now }
    ensures value { result ≡ rounded_values (value_at sums.now) }
    ensures small { All (IsWithin 23726080) result }
{
    let mut out = [Cpx::ZERO; SUBCARRIERS];
    for k in 0..SUBCARRIERS {
        out[k] = sums[k].round_shift(12);
    }
    out
}

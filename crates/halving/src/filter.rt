//! One half-band filter stage.

ghost use Rattle.std.specs.Prelude.{◌≡◌, ◌^◌, ◌<◌, ◌≤◌, IfOk, length, nat_abs};
ghost use Rattle.cs_num.specs.Complex.{IsWithin};
ghost use Rattle.cs_num.specs.Sums.{complex_sum_below};
ghost use Rattle.halving.specs.Halved.{delayed, tap_term, halved};
ghost use Rattle.halving.specs.Steps.{folded_part, folded_sum};

use cs_num::{Cpx, Sample};
use std::alloc::{AllocError, Global};

/// Returns a recording at half its sample rate: every second output sample of a half-band filter, each component
/// rounded and clamped to 16 bits. Outside the recording the signal is 0. Fails only if an allocation fails. (own)
pub fn halve(alloc: Global, samples: &[Sample]) -> Result<Vec<Sample>, AllocError>
    requires { length samples.now < 2 ^ 40 }
    ensures { IfOk result (λ half. half.items ≡ halved samples.now) }
{
    let count = samples.len() / 2;
    let mut half = Vec::with_capacity(alloc, count)?;
    for i in 0..count {
        half.push(filtered(samples, i).round_shift(12).nearest_sample())?;
    }
    Ok(half)
}

// Returns the filtered sum for output sample `i`. Symmetric taps are added first, and the taps that are 0 left out.
fn filtered(samples: &[Sample], i: usize) -> Cpx
    requires { i < 2 ^ 40 }
    ensures value { result ≡ complex_sum_below 15 (tap_term samples.now i) }
    ensures small { IsWithin 177733632 result }
{
    weighted(
        near(samples, 2 * i + 7),
        near(samples, 2 * i + 6) + near(samples, 2 * i + 8),
        near(samples, 2 * i + 4) + near(samples, 2 * i + 10),
        near(samples, 2 * i + 2) + near(samples, 2 * i + 12),
        near(samples, 2 * i) + near(samples, 2 * i + 14),
    )
}

// Returns sample `i` - 7, and 0 outside the recording.
fn near(samples: &[Sample], i: usize) -> Cpx
    ensures value { result ≡ delayed samples.now i }
    ensures small { IsWithin 32768 result }
{
    if i < 7 || samples.len() <= i - 7 {
        Cpx::ZERO
    } else {
        samples[i - 7].into()
    }
}

// Returns the filter's sum from its middle sample and the sums of its samples at distances 1, 3, 5 and 7.
fn weighted(middle: Cpx, first: Cpx, third: Cpx, fifth: Cpx, seventh: Cpx) -> Cpx
    requires middle { IsWithin 32768 middle }
    requires first { IsWithin 65536 first }
    requires third { IsWithin 65536 third }
    requires fifth { IsWithin 65536 fifth }
    requires seventh { IsWithin 65536 seventh }
    ensures value { result ≡ folded_sum middle first third fifth seventh }
    ensures small { IsWithin 177733632 result }
{
    Cpx {
        re: component(middle.re, first.re, third.re, fifth.re, seventh.re),
        im: component(middle.im, first.im, third.im, fifth.im, seventh.im),
    }
}

// Returns one component of the filter's sum.
fn component(middle: i64, first: i64, third: i64, fifth: i64, seventh: i64) -> i64
    requires middle { nat_abs middle ≤ 32768 }
    requires first { nat_abs first ≤ 65536 }
    requires third { nat_abs third ≤ 65536 }
    requires fifth { nat_abs fifth ≤ 65536 }
    requires seventh { nat_abs seventh ≤ 65536 }
    ensures value { result ≡ folded_part middle first third fifth seventh }
    ensures small { nat_abs result ≤ 177733632 }
{
    2052 * middle + 1257 * first - 311 * third + 97 * fifth - 21 * seventh
}

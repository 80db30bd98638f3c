//! The residual of samples for a gain: each sample less the transmitted sample times the gain.

ghost use Rattle.std.specs.Prelude.{◌≡◌, ◌^◌, ◌<◌, ◌≤◌, length, max};
ghost use Rattle.cs_num.specs.Complex.{IsWithin, value_of, minus, times, largest_part as greatest_part_of};
ghost use Rattle.cs_num.specs.Rounding.{in_16_bits as in_16_bits_of, nearest_sample as nearest_sample_of};
ghost use Rattle.cancel.specs.Gain.{greatest_below};
ghost use Rattle.cancel.specs.Steps.{left_of, greatest_of as greatest_left};

use cs_num::{Cpx, Gain, Sample};
use std::marker::Model;

// The number of samples after which the search compares the largest residual component with the limit.
const PIECE: usize = 256;

// A residual with 32-bit components, so that the processor handles four numbers at a time. Contracts see it as a
// complex number.
#[derive(Clone, Copy)]
pub(crate) struct Remainder {
    re: i32,
    im: i32,
}

impl Model for Remainder {
    ghost use Rattle.cs_num.specs.declared.Cpx.{Cpx as Number};
    ghost use Rattle.cs_num.specs.Gain.{with_parts};

    ghost Value = { Number };

    ghost view = { λ left. with_parts left.re left.im };

    ghost inverse = { λ z. record { re = z.re; im = z.im } };
}

/// Returns the residual `sample - gain * sent`.
pub(crate) fn left(sample: Sample, sent: Sample, gain: Gain) -> Remainder
    ensures value { result ≡ minus (value_of sample) (times gain (value_of sent)) }
    ensures small { IsWithin (2 ^ 22) result }
{
    left_of_value(&Cpx::from(sample), &Cpx::from(sent), &gain.value())
}

// Returns the residual `value - gain * sent`.
fn left_of_value(value: &Cpx, sent: &Cpx, gain: &Cpx) -> Remainder
    requires value { IsWithin 32768 value.now }
    requires sent { IsWithin 32768 sent.now }
    requires gain { IsWithin 28 gain.now }
    ensures value { result ≡ minus value.now (times gain.now sent.now) }
    ensures small { IsWithin (2 ^ 22) result }
{
    Remainder {
        re: value.re as i32 - (gain.re as i32 * sent.re as i32 - gain.im as i32 * sent.im as i32),
        im: value.im as i32 - (gain.re as i32 * sent.im as i32 + gain.im as i32 * sent.re as i32),
    }
}

impl Remainder {
    // Returns the larger of the two component magnitudes.
    fn greatest_part(&self) -> u32
        requires { IsWithin (2 ^ 22) self.now }
        ensures value { result ≡ greatest_part_of self.now }
        ensures small { result ≤ 2 ^ 22 }
    {
        greater_part(self.re.unsigned_abs(), self.im.unsigned_abs())
    }

    /// Returns the nearest sample: each component clamped to 16 bits.
    pub(crate) fn nearest_sample(&self) -> Sample
        ensures { result ≡ nearest_sample_of self.now }
    {
        Sample {
            re: in_16_bits(&self.re),
            im: in_16_bits(&self.im),
        }
    }
}

// Returns `x` clamped to 16 bits.
fn in_16_bits(x: &i32) -> i16
    ensures { result ≡ in_16_bits_of x.now }
{
    (*x).clamp(-32_768, 32_767) as i16
}

// Returns the larger of two magnitudes.
fn greater_part(a: u32, b: u32) -> u32
    ensures { result ≡ max a b }
{
    a.max(b)
}

// Returns the largest residual component of the samples below index `to`, given the largest one (`before`) below index
// `from`.
fn greatest_to(
    samples: &[Sample],
    sent: &[Sample],
    gain: Gain,
    from: usize,
    to: usize,
    before: u32,
) -> u32
    requires count { length sent.now ≡ length samples.now }
    requires from { from ≤ to }
    requires to { to ≤ length samples.now }
    requires before { before ≡ greatest_below from (left_of samples.now sent.now gain) }
    requires small { before ≤ 2 ^ 22 }
    ensures value { result ≡ greatest_below to (left_of samples.now sent.now gain) }
    ensures small { result ≤ 2 ^ 22 }
{
    let mut greatest = before;
    for i in from..to {
        greatest = greater_part(greatest, left(samples[i], sent[i], gain).greatest_part());
    }
    greatest
}

/// Returns the largest residual component if it is below `end`, and otherwise a number of at least `end`.
pub(crate) fn greatest_of(samples: &[Sample], sent: &[Sample], gain: Gain, end: u32) -> u32
    requires { length sent.now ≡ length samples.now }
    ensures below { result < end → result ≡ greatest_left samples.now sent.now gain }
    ensures past { end ≤ result → end ≤ greatest_left samples.now sent.now gain }
    ensures small { result ≤ 2 ^ 22 }
{
    let mut greatest = 0;
    for k in 0..samples.len() / PIECE + 1 {
        if greatest >= end {
            return greatest;
        }
        let from = PIECE * k;
        let to = (from + PIECE).min(samples.len());
        greatest = greatest_to(samples, sent, gain, from, to, greatest);
    }
    greatest
}

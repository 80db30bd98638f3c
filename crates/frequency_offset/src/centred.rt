//! A recording with its mean.

ghost use Rattle.std.specs.Prelude.{◌≡◌, ◌*◌, ◌<◌, ◌≤◌, length};
ghost use Rattle.cs_num.specs.Complex.{IsWithin};
ghost use Rattle.frequency_offset.specs.Turned.{mean as mean_of_all, sum_of as sum_of_all, turned as turned_by};
ghost use Rattle.lte_types.specs.Numerology.{most_samples};

use crate::at_turn::Turned;
use cs_num::{Cpx, Sample};
use sample_file::Recording;
use std::marker::Model;

// A recording with its mean. Contracts see only the samples.
#[derive(Drop)]
pub(crate) struct Centred<'a> {
    samples: &'a [Sample],
    mean: Cpx,
}

impl<'a> Model for Centred<'a> {
    ghost use Rattle.std.specs.Prelude.{List};
    ghost use Rattle.cs_num.specs.declared.Sample.{Sample as SampleValue};
    ghost use Rattle.frequency_offset.specs.Steps.{IsCentred};

    ghost Value = { List SampleValue };

    ghost view = { λ c. c.samples.now };

    ghost invariant = { λ c. IsCentred c.samples.now c.mean };
}

impl<'a> Centred<'a> {
    // Computes the mean of a recording, once for all offsets.
    pub(crate) fn new(recording: &'a Recording) -> Centred<'a>
        ensures { result ≡ recording.now }
    {
        let samples = recording.as_slice();
        let mean = mean(samples);
        Centred { samples, mean }
    }

    // Returns the recording corrected by offset `m`.
    pub(crate) fn turned(&self, m: i16) -> Turned<'a>
        ensures { result ≡ turned_by self.now m }
    {
        Turned::new(self.samples, self.mean, m)
    }
}

/// Returns the mean of 1 to 30,720,000 samples, a second at up to 30.72 million per second, each component rounded to
/// nearest, halves up. (own)
pub fn mean(samples: &[Sample]) -> Cpx
    requires some { 0 < length samples.now }
    requires few { length samples.now ≤ 16 * most_samples }
    ensures value { result ≡ mean_of_all samples.now }
    ensures small { IsWithin 32768 result }
{
    sum_of(samples).quotient(samples.len() as u64)
}

fn sum_of(samples: &[Sample]) -> Cpx
    requires { length samples.now ≤ 16 * most_samples }
    ensures value { result ≡ sum_of_all samples.now }
    ensures small { IsWithin (length samples.now * 32768) result }
{
    let mut sum = Cpx::ZERO;
    for i in 0..samples.len() {
        sum = sum + Cpx::from(samples[i]);
    }
    sum
}

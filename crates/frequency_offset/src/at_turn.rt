//! A corrected recording, computed sample by sample.

ghost use Rattle.std.specs.Prelude.{◌≡◌, ◌*◌, ◌<◌, ◌≤◌, IfOk, length, take, slice_index_or};
ghost use Rattle.cs_num.specs.Complex.{IsWithin, value_of, silence};
ghost use Rattle.lte_types.specs.Numerology.{least_samples, most_samples};
ghost use Rattle.sample_file.specs.Recording.{IsRecording};
ghost use Rattle.explain.specs.Deciding.{deciding_length};
ghost use Rattle.frequency_offset.specs.Turned.{angle as angle_of, turned_back as turned_back_by, turned as turned_by};
ghost use Rattle.frequency_offset.specs.Steps.{IsCentred};

use crate::table::w_at;
use cs_num::{Cpx, Sample};
use explain::DECIDING_SAMPLES;
use lte_types::LEAST_SAMPLES;
use sample_file::Recording;
use std::alloc::{AllocError, Global};
use std::marker::Model;

// The number of samples that the PSS search reads.
const LOOKED_AT: usize = 19_473;

// A corrected recording whose samples are computed on demand. Contracts see it as a list of samples.
#[derive(Drop)]
pub(crate) struct Turned<'a> {
    samples: &'a [Sample],
    mean: Cpx,
    turn: i16,
}

impl<'a> Model for Turned<'a> {
    ghost use Rattle.std.specs.Prelude.{List};
    ghost use Rattle.cs_num.specs.declared.Sample.{Sample as SampleValue};
    ghost use Rattle.frequency_offset.specs.Turned.{turned};
    ghost use Rattle.frequency_offset.specs.Steps.{IsCentred};

    ghost Value = { List SampleValue };

    ghost view = { λ t. turned t.samples.now t.turn };

    ghost invariant = { λ t. IsCentred t.samples.now t.mean };
}

impl<'a> Turned<'a> {
    // Creates a view of `samples`, whose mean is `mean`, corrected by offset `m`.
    pub(crate) fn new(samples: &'a [Sample], mean: Cpx, m: i16) -> Turned<'a>
        requires { IsCentred samples.now mean }
        ensures { result ≡ turned_by samples.now m }
    {
        Turned {
            samples,
            mean,
            turn: m,
        }
    }

    // Returns the number of samples.
    pub(crate) fn len(&self) -> usize
        ensures value { result ≡ length self.now }
        ensures valid { IsRecording self.now }
    {
        self.samples.len()
    }

    // Returns sample `i` of the corrected recording.
    pub(crate) fn at(&self, i: usize) -> Sample
        requires { i < length self.now }
        ensures { result ≡ slice_index_or self.now i silence }
    {
        let samples = self.samples;
        turned_back(samples[i], self.mean, angle(&self.turn, i))
    }

    // Returns the complete corrected recording.
    pub(crate) fn whole(&self, alloc: Global) -> Result<Recording, AllocError>
        ensures value { IfOk result (λ whole. whole ≡ self.now) }
        ensures valid { IfOk result IsRecording }
    {
        let end = self.len();
        self.with_first(alloc, end, end)
    }

    // Returns the samples that determine the cell list: the first 17 frames, or all if there are fewer.
    pub(crate) fn front(&self, alloc: Global) -> Result<Recording, AllocError>
        ensures { IfOk result (λ front. front ≡ take deciding_length self.now) }
    {
        let count = self.len().min(DECIDING_SAMPLES);
        self.with_first(alloc, count, count)
    }

    // Returns the shortest recording with the same hits: the samples that the PSS search reads, padded with zeros.
    pub(crate) fn looked_at(&self, alloc: Global) -> Result<Recording, AllocError>
        ensures { IfOk result (λ front. take 19473 front ≡ take 19473 self.now) }
    {
        let end = self.len();
        prove!(LOOKED_AT <= end);
        self.with_first(alloc, LOOKED_AT, LEAST_SAMPLES)
    }

    // Returns the first `count` corrected samples, padded with zeros to `whole` samples.
    fn with_first(&self, alloc: Global, count: usize, whole: usize) -> Result<Recording, AllocError>
        requires count { count ≤ length self.now }
        requires room { count ≤ whole }
        requires least { least_samples ≤ whole }
        requires most { whole ≤ most_samples }
        ensures length { IfOk result (λ front. length front ≡ whole) }
        ensures value { IfOk result (λ front. take count front ≡ take count self.now) }
    {
        let mut samples = vec![in alloc; Sample { re: 0, im: 0 }; whole]?;
        self.write(count, &mut samples);
        match Recording::new(samples) {
            Some(front) => Ok(front),
            None => unreachable!(),
        }
    }

    // Overwrites the first `count` samples in `others` with corrected samples.
    fn write(&self, count: usize, others: &mut [Sample])
        requires count { count ≤ length self.now }
        requires room { count ≤ length others.old }
        ensures length { length others.new ≡ length others.old }
        ensures value { take count others.new ≡ take count self.now }
    {
        for i in 0..count {
            others[i] = self.at(i);
        }
    }
}

// Returns the phase for offset `m` at sample `i`, in 1/128 of a cycle.
fn angle(m: &i16, i: usize) -> i64
    requires { i < most_samples }
    ensures { result ≡ angle_of m.now i }
{
    (*m as i64 * i as i64) >> 7
}

/// Returns `sample` minus `mean`, whose components are within 32,768, rotated back by the phase `angle`, in 1/128 of a
/// cycle; rounded, and clamped to 16 bits. (own)
pub fn turned_back(sample: Sample, mean: Cpx, angle: i64) -> Sample
    requires { IsWithin 32768 mean }
    ensures { result ≡ turned_back_by (value_of sample) mean angle }
{
    let centred = Cpx::from(sample) - mean;
    centred
        .mul(w_at(angle).conj())
        .round_shift(14)
        .nearest_sample()
}

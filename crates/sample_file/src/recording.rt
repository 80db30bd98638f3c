//! A recording in memory.

ghost use Rattle.std.specs.Prelude.{◌≡◌, ◌<◌, ◌↔◌, List, length, slice_index_or, IsSome, IfSome};
ghost use Rattle.cs_num.specs.declared.Sample.{Sample};
ghost use Rattle.sample_file.specs.Recording.{IsRecording};
ghost use Rattle.cs_num.specs.Complex.{silence};

use cs_num::Sample;
use lte_types::{LEAST_SAMPLES, MOST_SAMPLES};
use std::marker::Model;

/// A recording of 57,600 to 1,920,000 samples at 1.92 million samples per second, 30 ms to 1 s. Contracts see it as the
/// list of its samples. (own)
#[derive(Drop)]
pub struct Recording {
    samples: Vec<Sample>,
}

impl Model for Recording {
    ghost Value = { List Sample };

    ghost view = { λ r. r.samples.items };

    ghost invariant = { λ r. IsRecording r.samples.items };
}

impl Recording {
    /// Returns the recording that consists of `samples`, or `None` if their number is below 57,600 or above 1,920,000.
    pub fn new(samples: Vec<Sample>) -> Option<Self>
        ensures valid { IsSome result ↔ IsRecording samples.items }
        ensures value { IfSome result (λ recording. recording ≡ samples.items) }
    {
        if (LEAST_SAMPLES..=MOST_SAMPLES).contains(&samples.len()) {
            Some(Recording { samples })
        } else {
            None
        }
    }

    /// Returns the number of samples, 57,600 to 1,920,000.
    pub fn len(&self) -> usize
        ensures value { result ≡ length self.now }
        ensures valid { IsRecording self.now }
    {
        self.samples.len()
    }

    /// Returns sample `i`, which is below the number of samples.
    pub fn get(&self, i: usize) -> Sample
        requires { i < length self.now }
        ensures { result ≡ slice_index_or self.now i silence }
    {
        self.samples[i]
    }

    /// Returns all samples in order.
    pub fn as_slice(&self) -> &[Sample]
        ensures value { result.now ≡ self.now }
        ensures valid { IsRecording self.now }
    {
        &self.samples
    }
}

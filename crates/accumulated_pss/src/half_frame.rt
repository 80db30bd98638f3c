//! The samples of one half-frame as a recording of their own, which PSS detection can sweep.

ghost use Rattle.std.specs.Prelude.{◌≡◌, ◌+◌, ◌≤◌, IfOk, slice_index_or};
ghost use Rattle.cs_num.specs.Complex.{silence};
ghost use Rattle.lte_types.specs.Numerology.{most_samples};
ghost use Rattle.accumulated_pss.specs.Steps.{window_of};

use cs_num::Sample;
use lte_types::LEAST_SAMPLES;
use sample_file::Recording;
use std::alloc::{AllocError, Global};

// Returns 57,600 samples, the minimum of a recording, from sample `start`; 0 past the end.
pub(crate) fn window(
    alloc: Global,
    samples: &[Sample],
    start: usize,
) -> Result<Recording, AllocError>
    requires { start ≤ most_samples }
    ensures { IfOk result (λ window. window ≡ window_of samples.now start) }
{
    let mut copy = Vec::with_capacity(alloc, LEAST_SAMPLES)?;
    for k in 0..LEAST_SAMPLES {
        copy.push(sample_or_silence(samples, start + k))?;
    }
    match Recording::new(copy) {
        Some(recording) => Ok(recording),
        None => unreachable!(),
    }
}

// Returns sample `i`, or 0 past the end.
fn sample_or_silence(samples: &[Sample], i: usize) -> Sample
    ensures { result ≡ slice_index_or samples.now i silence }
{
    if i < samples.len() {
        samples[i]
    } else {
        Sample { re: 0, im: 0 }
    }
}

//! A wide recording, corrected by its estimated offset.

ghost use Rattle.std.specs.Prelude.{◌≡◌, ◌*◌, ◌^◌, ◌≤◌, IfOk, length};
ghost use Rattle.lte_types.specs.Numerology.{least_samples, most_samples};
ghost use Rattle.frequency_offset.specs.Estimation.{IsEstimated};
ghost use Rattle.halving.specs.Wide.{narrowed as narrowed_of};
ghost use Rattle.wide_turn.specs.Turned.{front as front_of, IsApplied};

use crate::turned;
use cs_num::Sample;
use explain::DECIDING_SAMPLES;
use frequency_offset::{tell, turn_of};
use halving::{WideRecording, narrowed};
use sample_file::Recording;
use std::alloc::{AllocError, Global};

/// Corrects a recording of 30 ms to one second by the frequency offset that its first 170 ms give, if any. The rate is
/// 2^`rate` times 1.92 million samples per second, `rate` at most 4. (own)
pub fn applied(alloc: Global, samples: Vec<Sample>, rate: u8) -> Result<Vec<Sample>, AllocError>
    requires rate { rate ≤ 4 }
    requires least { least_samples * 2 ^ rate ≤ length samples.items }
    requires most { length samples.items ≤ most_samples * 2 ^ rate }
    ensures { IfOk result (λ applied. IsApplied rate samples.items applied.items) }
{
    let narrow = narrow_front(alloc, &samples, rate)?;
    let estimate = tell(alloc, &narrow)?;
    Ok(turned(samples, rate, turn_of(&estimate)))
}

// Returns the first 170 ms of a wide recording at 1.92 million samples per second.
fn narrow_front(alloc: Global, samples: &[Sample], rate: u8) -> Result<Recording, AllocError>
    requires rate { rate ≤ 4 }
    requires least { least_samples * 2 ^ rate ≤ length samples.now }
    ensures { IfOk result (λ narrow. narrow ≡ narrowed_of (front_of rate samples.now)) }
{
    let wide = front(alloc, samples, rate)?;
    narrowed(alloc, &wide)
}

// Returns the first 170 ms of a wide recording.
fn front(alloc: Global, samples: &[Sample], rate: u8) -> Result<WideRecording, AllocError>
    requires rate { rate ≤ 4 }
    requires least { least_samples * 2 ^ rate ≤ length samples.now }
    ensures { IfOk result (λ wide. wide ≡ front_of rate samples.now) }
{
    let count = samples.len().min(DECIDING_SAMPLES << rate);
    let kept = samples[..count].to_vec(alloc)?;
    match WideRecording::new(kept, rate) {
        Some(wide) => Ok(wide),
        None => unreachable!(),
    }
}

//! Recordings at 1.92 * 2^r million samples per second.

ghost use Rattle.std.specs.Prelude.{◌≡◌, ◌^◌, ◌<◌, ◌≤◌, ◌↔◌, IfOk, IfSome, IsSome, length};
ghost use Rattle.lte_types.specs.Numerology.{least_samples};
ghost use Rattle.halving.specs.Halved.{halved_by};
ghost use Rattle.halving.specs.Wide.{Wide, IsWide, most_kept, narrowed as narrowed_of};

use crate::halve;
use cs_num::Sample;
use sample_file::Recording;
use std::alloc::{AllocError, Global};
use std::marker::Model;

/// A list of samples at 1.92 * 2^rate million samples per second, where `rate` is 0 to 4: 57,600 * 2^rate to 326,400 *
/// 2^rate samples of 4 bytes, 30 ms to 170 ms, so at most 20.9 MB. Contracts see the samples and the rate exponent.
/// (own)
#[derive(Drop)]
pub struct WideRecording {
    samples: Vec<Sample>,
    rate: u8,
}

impl Model for WideRecording {
    ghost Value = { Wide };

    ghost view = { λ w. record { samples = w.samples.items; rate = w.rate } };

    ghost invariant = { λ w. IsWide (record { samples = w.samples.items; rate = w.rate }) };
}

impl WideRecording {
    /// Returns the recording with these samples and rate exponent, or `None` exactly if `rate` is above 4, or the
    /// number of samples is below 57,600 * 2^`rate` or above 326,400 * 2^`rate`.
    pub fn new(samples: Vec<Sample>, rate: u8) -> Option<Self>
        ensures valid { IsSome result ↔ IsWide (record { samples = samples.items; rate = rate }) }
        ensures value { IfSome result (λ wide. wide ≡ record { samples = samples.items; rate = rate }) }
    {
        if rate <= 4 && (57_600 << rate..=326_400 << rate).contains(&samples.len()) {
            Some(WideRecording { samples, rate })
        } else {
            None
        }
    }

    /// Returns the rate exponent, 0 to 4.
    pub fn rate(&self) -> u8
        ensures value { result ≡ self.now.rate }
        ensures valid { IsWide self.now }
    {
        self.rate
    }

    /// Returns all samples in order.
    pub fn as_slice(&self) -> &[Sample]
        ensures value { result.now ≡ self.now.samples }
        ensures valid { IsWide self.now }
    {
        &self.samples
    }
}

/// Returns a wide recording at 1.92 million samples per second: 57,600 to 326,400 samples, at most 1.3 MB. Meanwhile
/// two intermediate recordings occupy up to 15.7 MB. Fails only if an allocation fails. (own)
pub fn narrowed(alloc: Global, wide: &WideRecording) -> Result<Recording, AllocError>
    ensures value { IfOk result (λ narrow. narrow ≡ narrowed_of wide.now) }
    ensures most { IfOk result (λ narrow. length narrow ≤ most_kept) }
{
    let samples = halved_often(alloc, wide.as_slice(), wide.rate())?;
    Ok(recording_of(samples))
}

// Returns a recording halved `rate` times. Each halved recording is freed once it has been halved again.
fn halved_often(alloc: Global, samples: &[Sample], rate: u8) -> Result<Vec<Sample>, AllocError>
    requires { length samples.now < 2 ^ 40 }
    ensures { IfOk result (λ narrow. narrow.items ≡ halved_by rate samples.now) }
{
    if rate == 0 {
        return copied(alloc, samples);
    }
    let mut narrow = halve(alloc, samples)?;
    for _ in 1..rate {
        narrow = halve(alloc, &narrow)?;
    }
    Ok(narrow)
}

// Returns a copy of the samples.
fn copied(alloc: Global, samples: &[Sample]) -> Result<Vec<Sample>, AllocError>
    ensures { IfOk result (λ copy. copy.items ≡ samples.now) }
{
    let copy = samples.to_vec(alloc)?;
    Ok(copy)
}

// Returns the recording with samples that are enough for one.
fn recording_of(samples: Vec<Sample>) -> Recording
    requires least { least_samples ≤ length samples.items }
    requires most { length samples.items ≤ most_kept }
    ensures { result ≡ samples.items }
{
    match Recording::new(samples) {
        Some(recording) => recording,
        None => unreachable!(),
    }
}

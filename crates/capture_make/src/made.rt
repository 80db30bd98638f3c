//! Synthetic recordings, each made from its number.

ghost use Rattle.std.specs.Prelude.{◌≡◌, ◌≤◌, ℕ, All, IfOk, nat_abs, pos, ℤ};
ghost use Rattle.lte_types.specs.declared.carrier.Carrier.{Carrier as AnyCarrier};
ghost use Rattle.lte_types.specs.declared.carrier.Carrier.TheVariants.{OnePort};
ghost use Rattle.cs_num.specs.Complex.{IsWithin, value_of};
ghost use Rattle.sample_file.specs.Recording.{IsRecording};
ghost use Rattle.cell_plan.specs.Plan.{IsSendable, IsSendableBy};
ghost use Rattle.cell_tx.specs.Emission.{emitted_samples};
ghost use Rattle.capture_make.specs.Recipe.{plan, IsBound};
ghost use Rattle.capture_make.specs.Errors.{with_errors as with_errors_of};
ghost use Rattle.capture_make.specs.Made.{samples_by, IsMadeBy, IsCleanNumber, IsMade, IsCleanlyMade};
ghost use Rattle.capture_make.specs.declared.made.Made.{Made as MadeValue};

use crate::errors::add_errors;
use crate::recipe::{bound, emission};
use cell_plan::{Emission, Transmission};
use cell_tx::{emit, sum_is_clean};
use cs_num::Sample;
use lte_types::Carrier;
use sample_file::Recording;
use std::alloc::{AllocError, Global};

/// Recording number `n` for a transmission scheme, and the emission that the recording contains.
#[derive(Drop)]
pub struct MadeBy {
    /// The emission that the recording contains.
    pub sent: Emission,
    /// The maximum error component magnitude: the largest bound that a clean recording with the emission's gains
    /// allows.
    pub bound: i16,
    /// The samples of the recording, errors included.
    pub recording: Recording,
}

/// Recording number `n` with one antenna port, and the transmission that the recording contains.
#[derive(Drop)]
pub struct Made {
    /// The transmission that the recording contains.
    pub sent: Transmission,
    /// The maximum error component magnitude: the largest integer that is at most twice the gain's magnitude.
    pub bound: i16,
    /// The samples of the recording, errors included.
    pub recording: Recording,
}

// Returns the samples of the emission without errors, in newly allocated memory.
fn emitted_samples(alloc: Global, sent: &Emission) -> Result<Vec<Sample>, AllocError>
    ensures { IfOk result (λ samples. samples.items ≡ emitted_samples sent.now) }
{
    let mut samples = vec![in alloc; Sample { re: 0, im: 0 }; sent.samples as usize]?;
    emit(sent, &mut samples);
    Ok(samples)
}

// Returns `samples` plus the errors of recording `n`. Sample components must have magnitudes up to 32,284; error
// components have magnitudes up to `bound`, which is at most 56.
fn with_errors(n: u32, bound: u16, mut samples: Vec<Sample>) -> Vec<Sample>
    requires bound { bound ≤ 56 }
    requires room { All (λ s. IsWithin 32284 (value_of s)) samples.items }
    ensures { result.items ≡ with_errors_of n bound samples.items }
{
    add_errors(n, bound, &mut samples);
    samples
}

// Returns the recording together with its emission and error bound.
fn with_bound(sent: Emission, bound: u16, recording: Recording) -> MadeBy
    requires { bound ≤ 56 }
    ensures sent { result.sent ≡ sent }
    ensures bound { result.bound ≡ pos bound }
    ensures recording { result.recording ≡ recording }
{
    MadeBy {
        sent,
        bound: bound as i16,
        recording,
    }
}

/// Makes recording `n` for transmission scheme `carrier`, 10 to 99 frames long, by the recipe in `docs/FORMATS.md`.
/// Error components are drawn up to the largest bound that a clean recording allows. Fails only if an allocation fails.
/// (own)
pub fn make_by(alloc: Global, carrier: Carrier, n: u32) -> Result<MadeBy, AllocError>
    ensures made { IfOk result (IsMadeBy carrier n) }
    ensures sendable { IsSendableBy carrier (plan n) }
    ensures clean { IfOk result (λ made. IsCleanNumber carrier n made.recording (nat_abs made.bound)) }
    ensures valid { IfOk result (λ made. IsRecording made.recording) }
{
    let sent = emission(carrier, n);
    let bound = bound(carrier, n);
    let samples = emitted_samples(alloc, &sent)?;
    let samples = with_errors(n, bound, samples);
    numbers_are_clean();
    match Recording::new(samples) {
        Some(recording) => Ok(with_bound(sent, bound, recording)),
        None => unreachable!(),
    }
}

// Returns the recording `made`, which has one antenna port, with its transmission.
fn of_one_port(n: u32, made: MadeBy) -> Made
    requires { IsMadeBy OnePort n made }
    ensures made { IsMade n result }
    ensures recording { result.recording ≡ made.recording }
{
    Made {
        sent: Transmission::of(made.sent),
        bound: made.bound,
        recording: made.recording,
    }
}

/// Makes recording `n` with one antenna port, as `make_by` does. Error components are at most twice the gain's
/// magnitude. Fails only if an allocation fails. (own)
pub fn make(alloc: Global, n: u32) -> Result<Made, AllocError>
    ensures made { IfOk result (IsMade n) }
    ensures sendable { IsSendable (plan n) }
    ensures clean { IfOk result IsCleanlyMade }
    ensures valid { IfOk result (λ made. IsRecording made.recording) }
{
    let made = make_by(alloc, Carrier::OnePort, n)?;
    made_is_clean();
    Ok(of_one_port(n, made))
}

/// A law: every synthetic recording is a clean recording of its emission, for each transmission scheme.
pub fn numbers_are_clean()
    ensures { (carrier : AnyCarrier) (n : ℕ) (bound : ℤ) → IsBound carrier n bound →
        IsCleanNumber carrier n (samples_by carrier n (nat_abs bound)) (nat_abs bound) }
{
    sum_is_clean();
}

/// A law: every synthetic recording with one antenna port is a clean recording of its transmission.
pub fn made_is_clean()
    ensures { (n : ℕ) (made : MadeValue) → IsMade n made → IsCleanlyMade made }
{
    numbers_are_clean();
}

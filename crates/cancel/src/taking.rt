//! The cancellation of a cell in a recording.

ghost use Rattle.std.specs.Prelude.{◌≡◌, ◌+◌, ◌^◌, ◌≤◌, ◌<◌, IfOk, length};
ghost use Rattle.finite.specs.Lists.{values_below};
ghost use Rattle.cs_num.specs.Complex.{minus, times, square, value_of, sample_of};
ghost use Rattle.cs_num.specs.Rounding.{nearest_sample};
ghost use Rattle.lte_types.specs.Numerology.{frame_length, most_samples};
ghost use Rattle.cancel.specs.Residue.{sent_at, power_of as sum_of};
ghost use Rattle.cancel.specs.Residue.{IsSubtraction, TakesLoadedOff, TakesCleanOff};
ghost use Rattle.cancel.specs.Steps.{left_of, IsTakenOff};

use crate::Subtracted;
use crate::choosing::{GainChoice, best};
use crate::estimating::estimate;
use crate::leaving::left;
use cell_plan::{Cell, pair_of};
use cell_tx::{Port, Sender, sequence};
use cs_num::{Cpx, Gain, Sample};
use lte_types::{Carrier, Sfn, Timing};
use sample_file::Recording;
use std::alloc::{AllocError, Global};

/// Cancels a cell that begins the frame numbered `sfn` at sample `start`, below 19,200: subtracts its samples times the
/// best gain. Returns `None` if no gain is a candidate. Fails only if an allocation fails. (own)
pub fn subtract(
    alloc: Global,
    recording: &Recording,
    cell: &Cell,
    start: u32,
    sfn: Sfn,
) -> Result<Option<Subtracted>, AllocError>
    requires { start < frame_length }
    ensures answer { IfOk result (IsSubtraction recording.now cell.now start sfn) }
    ensures loaded { IfOk result (TakesLoadedOff recording.now cell.now start sfn) }
    ensures clean { IfOk result (TakesCleanOff recording.now cell.now start sfn) }
{
    let count = recording.len();
    prove!(57_600 <= count);
    let power = power_of(recording) as u128;
    subtract_from(alloc, recording, power, cell, start, sfn)
}

/// Cancels a cell as `subtract` does, with the recording's `power`, which is known from an earlier cancellation. (own)
pub fn subtract_from(
    alloc: Global,
    recording: &Recording,
    power: u128,
    cell: &Cell,
    start: u32,
    sfn: Sfn,
) -> Result<Option<Subtracted>, AllocError>
    requires start { start < frame_length }
    requires power { power ≡ sum_of recording.now }
    ensures { IfOk result (IsSubtraction recording.now cell.now start sfn) }
{
    let sent = sent_samples(alloc, recording.len(), cell, start, sfn)?;
    let middle = estimate(recording, cell, start);
    match best(recording.as_slice(), &sent, middle) {
        Some(choice) => {
            let taken = taken_off(alloc, recording, power, &sent, choice)?;
            Ok(Some(taken))
        }
        None => Ok(None),
    }
}

// Returns the `count` samples that the cell transmits, from the recording's first sample.
fn sent_samples(
    alloc: Global,
    count: usize,
    cell: &Cell,
    start: u32,
    sfn: Sfn,
) -> Result<Vec<Sample>, AllocError>
    requires start { start < frame_length }
    requires count { count ≤ most_samples }
    ensures { IfOk result (λ sent. sent.items ≡ values_below count (λ i. sample_of (sent_at cell.now start sfn i))) }
{
    let mut sent = vec![in alloc; Sample { re: 0, im: 0 }; count]?;
    let sender = Sender {
        cell,
        port: Port {
            carrier: Carrier::OnePort,
            number: 0,
        },
        timing: Timing::before(start, sfn),
        load: None,
    };
    sequence(&sender, &mut sent);
    Ok(sent)
}

// Returns the residual `sample - gain * sent`, clamped to 16 bits.
fn sample_left(sample: Sample, sent: Sample, gain: Gain) -> Sample
    ensures { result ≡ nearest_sample (minus (value_of sample) (times gain (value_of sent))) }
{
    left(sample, sent, gain).nearest_sample()
}

// Writes the residual of `samples` for `gain` to `residue`, clamped to 16 bits.
fn write_left(samples: &[Sample], sent: &[Sample], gain: Gain, residue: &mut [Sample])
    requires count { length sent.now ≡ length samples.now }
    requires room { length residue.old ≡ length samples.now }
    ensures { residue.new
        ≡ values_below (length samples.now) (λ i. nearest_sample (left_of samples.now sent.now gain i)) }
{
    for i in 0..samples.len() {
        residue[i] = sample_left(samples[i], sent[i], gain);
    }
}

// Returns the residual of `samples` for `gain`, clamped to 16 bits, in newly allocated memory.
fn residue_samples(
    alloc: Global,
    samples: &[Sample],
    sent: &[Sample],
    gain: Gain,
) -> Result<Vec<Sample>, AllocError>
    requires { length sent.now ≡ length samples.now }
    ensures { IfOk result (λ residue. residue.items
        ≡ values_below (length samples.now) (λ i. nearest_sample (left_of samples.now sent.now gain i))) }
{
    let mut residue = vec![in alloc; Sample { re: 0, im: 0 }; samples.len()]?;
    write_left(samples, sent, gain, &mut residue);
    Ok(residue)
}

// Returns the squared magnitude of a sample.
fn square_of(sample: Sample) -> u64
    ensures value { result ≡ square (value_of sample) }
    ensures small { result ≤ 2 ^ 31 }
{
    Cpx::from(sample).norm() as u64
}

/// Returns the power of a recording: the sum of its samples' squared magnitudes. (own)
pub fn power_of(recording: &Recording) -> u64
    ensures { result ≡ sum_of recording.now }
{
    let samples = recording.as_slice();
    let count = samples.len();
    prove!(count <= 1_920_000);
    let mut sum = 0;
    for i in 0..samples.len() {
        sum = sum + square_of(samples[i]);
    }
    sum
}

// Returns `samples` as a recording. There must be as many as in `recording`.
fn recording_of(recording: &Recording, samples: Vec<Sample>) -> Recording
    requires { length samples.items ≡ length recording.now }
    ensures { result ≡ samples.items }
{
    let count = recording.len();
    prove!(57_600 <= count && count <= 1_920_000);
    match Recording::new(samples) {
        Some(residue) => residue,
        None => unreachable!(),
    }
}

// Subtracts the transmitted samples `sent`, times the gain of `choice`, from a recording with power `before`.
fn taken_off(
    alloc: Global,
    recording: &Recording,
    before: u128,
    sent: &[Sample],
    choice: GainChoice,
) -> Result<Subtracted, AllocError>
    requires before { before ≡ sum_of recording.now }
    requires count { length sent.now ≡ length recording.now }
    ensures { IfOk result (IsTakenOff recording.now sent.now choice) }
{
    let samples = residue_samples(alloc, recording.as_slice(), sent, choice.gain)?;
    let residue = recording_of(recording, samples);
    let after = power_of(&residue) as u128;
    Ok(Subtracted {
        gain: pair_of(choice.gain.value()),
        greatest: choice.greatest,
        before,
        after,
        residue,
    })
}

//! Frequency correction of recordings.

ghost use Rattle.std.specs.Prelude.{◌*◌, ◌^◌, ◌≤◌, IfOk, IfErr, OnOk, length};
ghost use Rattle.cs_outside.specs.Outside.{SourceState, SinkState};
ghost use Rattle.lte_types.specs.Numerology.{least_samples, most_samples};
ghost use Rattle.lte_args.specs.declared.form.Form.TheVariants.{Apply};
ghost use Rattle.lte_args.specs.Words.{exponent_of};
ghost use Rattle.lte_top.specs.Run.{IsDone, Ends};
ghost use Rattle.lte_top.specs.Signals.{plain, rated};
ghost use Rattle.lte_top.specs.Tuning.{IsTurned, IsTurnedWide};

use crate::reading::{recording_of, samples_of};
use crate::status::Status;
use cs_num::Sample;
use cs_outside::{Failed, Sink, Source};
use frequency_offset::{applied, turned};
use lte_args::{Rate, RecordingForm, Turn};
use sample_file::{Recording, SampleForm, write_samples};
use std::alloc::{AllocError, Global};

// Reads a recording to the end of its source, and writes the corrected recording in 16-bit samples. All memory is
// allocated before the first write.
#[inline(never)]
pub(crate) fn apply_turn<S: Source, K: Sink>(
    alloc: Global,
    turn: Turn,
    form: RecordingForm,
    source: &mut S,
    sink: &mut K,
) -> Result<(), Status>
    ensures done { OnOk result (IsDone (Apply turn form)
        (S.state source.old, K.state sink.old) (S.state source.new, K.state sink.new)) }
    ensures ended { IfErr result (Ends (Apply turn form)
        (S.state source.old, K.state sink.old) (S.state source.new, K.state sink.new)) }
    ensures reads { (S.state source.old).faults ≤ (S.state source.new).faults }
    ensures writes { (K.state sink.old).faults ≤ (K.state sink.new).faults }
{
    match form.rate {
        None => apply_plain(alloc, turn, form.samples, source, sink),
        Some(rate) => apply_wide(alloc, turn, form.samples, rate, source, sink),
    }
}

// Corrects a recording without a rate, as `apply_turn` does.
fn apply_plain<S: Source, K: Sink>(
    alloc: Global,
    turn: Turn,
    form: SampleForm,
    source: &mut S,
    sink: &mut K,
) -> Result<(), Status>
    ensures done { OnOk result (IsDone (Apply turn (plain form))
        (S.state source.old, K.state sink.old) (S.state source.new, K.state sink.new)) }
    ensures ended { IfErr result (Ends (Apply turn (plain form))
        (S.state source.old, K.state sink.old) (S.state source.new, K.state sink.new)) }
    ensures reads { (S.state source.old).faults ≤ (S.state source.new).faults }
    ensures writes { (K.state sink.old).faults ≤ (K.state sink.new).faults }
{
    let recording = recording_of(alloc, form, source)?;
    let turned = turned_by(alloc, turn, &recording)?;
    match write_samples(sink, turned.as_slice()) {
        Ok(()) => Ok(()),
        Err(Failed) => Err(Status::WriteFault),
    }
}

// Corrects a recording with a rate, as `apply_turn` does.
fn apply_wide<S: Source, K: Sink>(
    alloc: Global,
    turn: Turn,
    form: SampleForm,
    rate: Rate,
    source: &mut S,
    sink: &mut K,
) -> Result<(), Status>
    ensures done { OnOk result (IsDone (Apply turn (rated form rate))
        (S.state source.old, K.state sink.old) (S.state source.new, K.state sink.new)) }
    ensures ended { IfErr result (Ends (Apply turn (rated form rate))
        (S.state source.old, K.state sink.old) (S.state source.new, K.state sink.new)) }
    ensures reads { (S.state source.old).faults ≤ (S.state source.new).faults }
    ensures writes { (K.state sink.old).faults ≤ (K.state sink.new).faults }
{
    let samples = samples_of(alloc, form, rate, source)?;
    let turned = wide_turned_by(alloc, turn, samples, rate)?;
    match write_samples(sink, &turned) {
        Ok(()) => Ok(()),
        Err(Failed) => Err(Status::WriteFault),
    }
}

// Returns `recording` corrected by its estimated frequency offset or by a given one.
fn turned_by(alloc: Global, turn: Turn, recording: &Recording) -> Result<Recording, AllocError>
    ensures { IfOk result (IsTurned turn recording.now) }
{
    match turn {
        Turn::AsEstimated => applied(alloc, recording),
        Turn::Steps(m) => turned(alloc, recording, m),
    }
}

// Returns the samples of a recording with a rate, corrected by its estimated frequency offset or by a given one.
fn wide_turned_by(
    alloc: Global,
    turn: Turn,
    samples: Vec<Sample>,
    rate: Rate,
) -> Result<Vec<Sample>, AllocError>
    requires least { 2 ^ exponent_of rate * least_samples ≤ length samples.items }
    requires most { length samples.items ≤ 2 ^ exponent_of rate * most_samples }
    ensures { IfOk result (λ turned. IsTurnedWide turn (exponent_of rate) samples.items turned.items) }
{
    match turn {
        Turn::AsEstimated => wide_turn::applied(alloc, samples, rate.exponent()),
        Turn::Steps(m) => Ok(wide_turn::turned(samples, rate.exponent(), m)),
    }
}

//! Reading recordings, at 1.92 million samples per second or at a given rate.

ghost use Rattle.std.specs.Prelude.{◌≡◌, ◌*◌, ◌^◌, ◌≤◌, IfOk, IfErr, ℕ, List, length};
ghost use Rattle.cs_outside.specs.Outside.{SourceState};
ghost use Rattle.halving.specs.Wide.{most_kept};
ghost use Rattle.lte_types.specs.Numerology.{least_samples, most_samples};
ghost use Rattle.sample_file.specs.Reading.{HasReadRecording, HasReadRecordingAt, HasReadFront};
ghost use Rattle.sample_file.specs.Recording.{IsRecording};
ghost use Rattle.lte_args.specs.declared.form.Form.TheVariants.{Report as Reports};
ghost use Rattle.lte_args.specs.declared.form.Output.{Output as OutputValue};
ghost use Rattle.lte_args.specs.Words.{exponent_of};
ghost use Rattle.lte_top.specs.Forms.{recording};
ghost use Rattle.lte_top.specs.Reports.{IsReport, kept_for as kept_in, kept_for_list as kept_in_list};
ghost use Rattle.lte_top.specs.Reports.{wide_for as wide_in};
ghost use Rattle.lte_top.specs.Run.{Cause, HasOutput};
ghost use Rattle.lte_top.specs.Signals.{plain, rated, HasReadNarrow, HasReadWide, IsConverted};

use crate::detecting::used_length;
use crate::status::Status;
use cs_num::Sample;
use cs_outside::Source;
use explain::DECIDING_SAMPLES;
use halving::{WideRecording, narrowed};
use lte_args::{Rate, RecordingForm, Report, Rule};
use lte_types::{LEAST_SAMPLES, MOST_SAMPLES};
use sample_file::{Recording, SampleForm, read_as, read_front, read_front_at};
use std::alloc::Global;

// A recording as a report needs it: its samples at 1.92 million per second and, if the report needs them too, the
// samples at the given rate.
#[derive(Drop)]
pub(crate) struct Signal {
    pub narrow: Recording,
    pub wide: Option<WideRecording>,
}

// ---- for a report

// Reads a recording to the end of its source, and returns as much of it as a report needs.
pub(crate) fn signal_for<S: Source>(
    alloc: Global,
    report: &Report,
    form: RecordingForm,
    source: &mut S,
) -> Result<Signal, Status>
    ensures ok { IfOk result (λ signal. (output : OutputValue) (text : List ℕ) →
        IsReport report.now output signal text →
        HasOutput (Reports report.now output form) text (S.state source.old) (S.state source.new)) }
    ensures valid { IfOk result (λ signal. IsRecording signal.narrow) }
    ensures converted { IfOk result IsConverted }
    ensures err { IfErr result (Cause (recording form) (S.state source.old) (S.state source.new)) }
    ensures never_falls { (S.state source.old).faults ≤ (S.state source.new).faults }
{
    match form.rate {
        None => plain_signal(alloc, report, form.samples, source),
        Some(rate) => wide_signal(alloc, report, form.samples, rate, source),
    }
}

// Reads a recording without a rate, as `signal_for` does.
fn plain_signal<S: Source>(
    alloc: Global,
    report: &Report,
    form: SampleForm,
    source: &mut S,
) -> Result<Signal, Status>
    ensures ok { IfOk result (λ signal. (output : OutputValue) (text : List ℕ) →
        IsReport report.now output signal text →
        HasOutput (Reports report.now output (plain form)) text (S.state source.old) (S.state source.new)) }
    ensures valid { IfOk result (λ signal. IsRecording signal.narrow) }
    ensures converted { IfOk result IsConverted }
    ensures err { IfErr result (Cause (recording (plain form)) (S.state source.old) (S.state source.new)) }
    ensures never_falls { (S.state source.old).faults ≤ (S.state source.new).faults }
{
    let narrow = front_of(alloc, form, kept_for(report), source)?;
    Ok(Signal { narrow, wide: None })
}

// Reads a recording with a rate, as `signal_for` does. Samples at this rate that the report does not need are freed.
fn wide_signal<S: Source>(
    alloc: Global,
    report: &Report,
    form: SampleForm,
    rate: Rate,
    source: &mut S,
) -> Result<Signal, Status>
    ensures ok { IfOk result (λ signal. (output : OutputValue) (text : List ℕ) →
        IsReport report.now output signal text →
        HasOutput (Reports report.now output (rated form rate)) text (S.state source.old) (S.state source.new)) }
    ensures valid { IfOk result (λ signal. IsRecording signal.narrow) }
    ensures converted { IfOk result IsConverted }
    ensures err { IfErr result (Cause (recording (rated form rate)) (S.state source.old) (S.state source.new)) }
    ensures never_falls { (S.state source.old).faults ≤ (S.state source.new).faults }
{
    let wide = wide_of(alloc, form, rate, source)?;
    let narrow = narrowed(alloc, &wide)?;
    let kept = wide_for(report, wide);
    Ok(Signal { narrow, wide: kept })
}

// Returns the number of leading samples that a report without a rate needs.
fn kept_for(report: &Report) -> usize
    ensures value { result ≡ kept_in report.now }
    ensures some { least_samples ≤ result }
    ensures few { result ≤ most_samples }
{
    match report {
        Report::Hits => LEAST_SAMPLES,
        Report::Ids => LEAST_SAMPLES,
        Report::Deep(span) => used_length(*span),
        Report::Search(rule) => kept_for_list(*rule),
        Report::Evidence(_) => MOST_SAMPLES,
        Report::Tell => MOST_SAMPLES,
        Report::Why(_, _) => DECIDING_SAMPLES,
    }
}

// Returns the number of leading samples that a cell list needs.
fn kept_for_list(rule: Rule) -> usize
    ensures value { result ≡ kept_in_list rule }
    ensures some { least_samples ≤ result }
    ensures few { result ≤ most_samples }
{
    match rule {
        Rule::Of(_) => DECIDING_SAMPLES,
        Rule::Cancel => MOST_SAMPLES,
        Rule::All => DECIDING_SAMPLES,
    }
}

// Returns the samples at the given rate if the report needs them, and frees them otherwise.
fn wide_for(report: &Report, wide: WideRecording) -> Option<WideRecording>
    ensures { result ≡ wide_in report.now wide }
{
    match report {
        Report::Search(Rule::Of(_)) => Some(wide),
        Report::Search(Rule::All) => Some(wide),
        Report::Evidence(_) => Some(wide),
        _ => None,
    }
}

// ---- complete recordings

// Reads a recording to the end of its source, and returns its signal at 1.92 million samples per second.
pub(crate) fn narrow_of<S: Source>(
    alloc: Global,
    form: RecordingForm,
    source: &mut S,
) -> Result<Recording, Status>
    ensures ok { IfOk result (λ narrow. HasReadNarrow form narrow (S.state source.old) (S.state source.new)) }
    ensures err { IfErr result (Cause (recording form) (S.state source.old) (S.state source.new)) }
    ensures never_falls { (S.state source.old).faults ≤ (S.state source.new).faults }
{
    match form.rate {
        None => recording_of(alloc, form.samples, source),
        Some(rate) => narrowed_of(alloc, form.samples, rate, source),
    }
}

// Reads a recording with a rate, as `narrow_of` does.
fn narrowed_of<S: Source>(
    alloc: Global,
    form: SampleForm,
    rate: Rate,
    source: &mut S,
) -> Result<Recording, Status>
    ensures ok { IfOk result (λ narrow.
        HasReadNarrow (rated form rate) narrow (S.state source.old) (S.state source.new)) }
    ensures err { IfErr result (Cause (recording (rated form rate)) (S.state source.old) (S.state source.new)) }
    ensures never_falls { (S.state source.old).faults ≤ (S.state source.new).faults }
{
    let wide = wide_of(alloc, form, rate, source)?;
    let narrow = narrowed(alloc, &wide)?;
    Ok(narrow)
}

// Reads a recording without a rate to the end of its source, and keeps all its samples.
pub(crate) fn recording_of<S: Source>(
    alloc: Global,
    form: SampleForm,
    source: &mut S,
) -> Result<Recording, Status>
    ensures ok { IfOk result (λ samples. HasReadRecording form samples (S.state source.old) (S.state source.new)) }
    ensures valid { IfOk result IsRecording }
    ensures err { IfErr result (Cause (recording (plain form)) (S.state source.old) (S.state source.new)) }
    ensures never_falls { (S.state source.old).faults ≤ (S.state source.new).faults }
{
    let recording = read_as(alloc, source, form)?;
    Ok(recording)
}

// Reads a recording with a rate to the end of its source, and keeps all its samples.
pub(crate) fn samples_of<S: Source>(
    alloc: Global,
    form: SampleForm,
    rate: Rate,
    source: &mut S,
) -> Result<Vec<Sample>, Status>
    ensures ok { IfOk result (λ samples.
        HasReadRecordingAt (2 ^ exponent_of rate) form samples.items (S.state source.old) (S.state source.new)) }
    ensures least { IfOk result (λ samples. 2 ^ exponent_of rate * least_samples ≤ length samples.items) }
    ensures most { IfOk result (λ samples. length samples.items ≤ 2 ^ exponent_of rate * most_samples) }
    ensures err { IfErr result (Cause (recording (rated form rate)) (S.state source.old) (S.state source.new)) }
    ensures never_falls { (S.state source.old).faults ≤ (S.state source.new).faults }
{
    let factor = rate.factor();
    let samples = read_front_at(alloc, source, form, factor, factor * MOST_SAMPLES)?;
    Ok(samples)
}

// ---- parts of recordings

// Reads a recording without a rate to the end of its source, and keeps its first `most` samples.
fn front_of<S: Source>(
    alloc: Global,
    form: SampleForm,
    most: usize,
    source: &mut S,
) -> Result<Recording, Status>
    requires some { least_samples ≤ most }
    requires few { most ≤ most_samples }
    ensures ok { IfOk result (λ front. HasReadFront form most front (S.state source.old) (S.state source.new)) }
    ensures valid { IfOk result IsRecording }
    ensures err { IfErr result (Cause (recording (plain form)) (S.state source.old) (S.state source.new)) }
    ensures never_falls { (S.state source.old).faults ≤ (S.state source.new).faults }
{
    let front = read_front(alloc, source, form, most)?;
    Ok(front)
}

// Reads a recording with a rate to the end of its source, and keeps its first 170 ms.
fn wide_of<S: Source>(
    alloc: Global,
    form: SampleForm,
    rate: Rate,
    source: &mut S,
) -> Result<WideRecording, Status>
    ensures ok { IfOk result (λ wide. HasReadWide form rate wide (S.state source.old) (S.state source.new)) }
    ensures err { IfErr result (Cause (recording (rated form rate)) (S.state source.old) (S.state source.new)) }
    ensures never_falls { (S.state source.old).faults ≤ (S.state source.new).faults }
{
    let factor = rate.factor();
    let samples = read_front_at(alloc, source, form, factor, factor * DECIDING_SAMPLES)?;
    Ok(wide_recording(samples, rate))
}

// Returns the wide recording with 30 ms to 170 ms of samples.
fn wide_recording(samples: Vec<Sample>, rate: Rate) -> WideRecording
    requires least { 2 ^ exponent_of rate * least_samples ≤ length samples.items }
    requires most { length samples.items ≤ 2 ^ exponent_of rate * most_kept }
    ensures { result ≡ record { samples = samples.items; rate = exponent_of rate } }
{
    match WideRecording::new(samples, rate.exponent()) {
        Some(wide) => wide,
        None => unreachable!(),
    }
}

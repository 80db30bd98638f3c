//! Reading a recording from a source of bytes, which may return them in pieces of any size. If an error occurs, the
//! samples read are dropped.

ghost use Rattle.std.specs.Prelude.{◌≡◌, ◌+◌, ◌*◌, ◌^◌, ◌<◌, ◌≤◌, length, take, List, IfOk, IsOk, IsErr, IsErrOf};
ghost use Rattle.cs_num.specs.declared.Sample.{Sample as SampleValue};
ghost use Rattle.lte_types.specs.Numerology.{least_samples, most_samples};
ghost use Rattle.cs_outside.specs.Outside.{SourceState};
ghost use Rattle.cs_outside.specs.Streams.{HasReadPart, HasReadPast, HasReadFault};
ghost use Rattle.sample_file.specs.Reading.{HasReadRecording, HasReadFront, HasReadRagged, HasReadTooShort};
ghost use Rattle.sample_file.specs.Reading.{HasReadFrontAt, HasReadRaggedAt, HasReadTooShortAt};
ghost use Rattle.sample_file.specs.Reading.{most_bytes, most_bytes_at};
ghost use Rattle.sample_file.specs.Recording.{IsRecording, width as width_of};
ghost use Rattle.sample_file.specs.Steps.{AreKept, TakesFront};
ghost use Rattle.sample_file.specs.declared.form.SampleForm.TheVariants.{Ci16, Cu8};
ghost use Rattle.sample_file.specs.declared.reading.FileError.TheVariants.{OutOfMemory};

use crate::SampleForm;
use crate::recording::Recording;
use cs_num::Sample;
use cs_outside::{Failed, Source, read_at};
use lte_types::{LEAST_SAMPLES, MOST_SAMPLES};
use std::alloc::{AllocError, Global};
use std::fmt;
use thiserror::Error;

/// The reason why no recording was read. Sample counts are for 1.92 million samples per second; `read_front_at`
/// multiplies them by its factor.
#[derive(Clone, Copy, Debug, PartialEq, Eq, Error)]
pub enum FileError {
    /// The input ended within a sample.
    Ragged,
    /// The input ended after fewer than 57,600 samples.
    TooShort,
    /// The input is longer than 1,920,000 samples.
    TooLong,
    /// Reading from the source failed.
    ReadFault,
    /// An allocation failed.
    OutOfMemory,
}

impl fmt::Display for FileError {
    ghost use Rattle.std.specs.Prelude.{Some};
    ghost use Rattle.sample_file.specs.Words.{error_text};

    ghost output = { λ error. Some (error_text error) };

    fn fmt<W: fmt::Write>(&self, f: &mut fmt::Formatter<W>) -> fmt::Result {
        match self {
            FileError::Ragged => f.write_str("ragged"),
            FileError::TooShort => f.write_str("too short"),
            FileError::TooLong => f.write_str("too long"),
            FileError::ReadFault => f.write_str("read fault"),
            FileError::OutOfMemory => f.write_str("out of memory"),
        }
    }
}

impl From<AllocError> for FileError {
    ghost from_gives = { λ _ error. error ≡ OutOfMemory };

    fn from(_error: AllocError) -> FileError {
        FileError::OutOfMemory
    }
}

// The maximum number of bytes that one call to a source requests.
const PIECE: usize = 16_384;

// The samples of the input that are kept, and the number of all samples read.
#[derive(Drop)]
struct Front {
    samples: Vec<Sample>,
    count: usize,
}

/// Reads 57,600 to 1,920,000 samples in format `form`, to the end of the source. Input that ends within a sample is
/// `Ragged`, even if it is also too short. Reads at most one byte past the limit. (own)
pub fn read_as<S: Source>(
    alloc: Global,
    source: &mut S,
    form: SampleForm,
) -> Result<Recording, FileError>
    ensures ok { IfOk result (λ recording.
        HasReadRecording form recording (S.state source.old) (S.state source.new)) }
    ensures valid { IfOk result IsRecording }
    ensures ragged { IsErrOf result FileError.Ragged →
        HasReadRagged form (S.state source.old) (S.state source.new) }
    ensures too_short { IsErrOf result FileError.TooShort →
        HasReadTooShort form (S.state source.old) (S.state source.new) }
    ensures too_long { IsErrOf result FileError.TooLong →
        HasReadPast (most_bytes form) (S.state source.old) (S.state source.new) }
    ensures fault { IsErrOf result FileError.ReadFault →
        HasReadFault (most_bytes form) (S.state source.old) (S.state source.new) }
    ensures memory { IsErrOf result FileError.OutOfMemory →
        HasReadPart (most_bytes form) (S.state source.old) (S.state source.new) }
    ensures never_falls { (S.state source.old).faults ≤ (S.state source.new).faults }
{
    read_front(alloc, source, form, MOST_SAMPLES)
}

/// Reads a complete recording as `read_as` does, but keeps only its first `most` samples, 57,600 to 1,920,000. Later
/// samples are only counted. (own)
pub fn read_front<S: Source>(
    alloc: Global,
    source: &mut S,
    form: SampleForm,
    most: usize,
) -> Result<Recording, FileError>
    requires some { least_samples ≤ most }
    requires few { most ≤ most_samples }
    ensures ok { IfOk result (λ front. HasReadFront form most front (S.state source.old) (S.state source.new)) }
    ensures valid { IfOk result IsRecording }
    ensures ragged { IsErrOf result FileError.Ragged →
        HasReadRagged form (S.state source.old) (S.state source.new) }
    ensures too_short { IsErrOf result FileError.TooShort →
        HasReadTooShort form (S.state source.old) (S.state source.new) }
    ensures too_long { IsErrOf result FileError.TooLong →
        HasReadPast (most_bytes form) (S.state source.old) (S.state source.new) }
    ensures fault { IsErrOf result FileError.ReadFault →
        HasReadFault (most_bytes form) (S.state source.old) (S.state source.new) }
    ensures memory { IsErrOf result FileError.OutOfMemory →
        HasReadPart (most_bytes form) (S.state source.old) (S.state source.new) }
    ensures never_falls { (S.state source.old).faults ≤ (S.state source.new).faults }
{
    let samples = read_front_at(alloc, source, form, 1, most)?;
    recording_of(samples)
}

/// Reads a recording of 30 ms to one second at `factor` (1 to 16) times 1.92 million samples per second, and returns
/// its first `most` samples. Errors are those of `read_as`, at this rate. (own)
pub fn read_front_at<S: Source>(
    alloc: Global,
    source: &mut S,
    form: SampleForm,
    factor: usize,
    most: usize,
) -> Result<Vec<Sample>, FileError>
    requires positive { 1 ≤ factor }
    requires factor { factor ≤ 16 }
    requires some { factor * least_samples ≤ most }
    requires few { most ≤ factor * most_samples }
    ensures ok { IfOk result (λ front.
        HasReadFrontAt factor form most front.items (S.state source.old) (S.state source.new)) }
    ensures least { IfOk result (λ front. factor * least_samples ≤ length front.items) }
    ensures most { IfOk result (λ front. length front.items ≤ most) }
    ensures ragged { IsErrOf result FileError.Ragged →
        HasReadRaggedAt factor form (S.state source.old) (S.state source.new) }
    ensures too_short { IsErrOf result FileError.TooShort →
        HasReadTooShortAt factor form (S.state source.old) (S.state source.new) }
    ensures too_long { IsErrOf result FileError.TooLong →
        HasReadPast (most_bytes_at factor form) (S.state source.old) (S.state source.new) }
    ensures fault { IsErrOf result FileError.ReadFault →
        HasReadFault (most_bytes_at factor form) (S.state source.old) (S.state source.new) }
    ensures memory { IsErrOf result FileError.OutOfMemory →
        HasReadPart (most_bytes_at factor form) (S.state source.old) (S.state source.new) }
    ensures never_falls { (S.state source.old).faults ≤ (S.state source.new).faults }
{
    let limit = bytes_read(form, factor * MOST_SAMPLES, 0);
    let mut front = Front {
        samples: Vec::new(alloc),
        count: 0,
    };
    let mut buffer = [0u8; PIECE];
    let mut begun = 0;
    loop {
        let read = bytes_read(form, front.count, begun);
        let end = PIECE.min(begun + (limit + 1 - read));
        match read_at(source, &mut buffer, begun, end) {
            Err(Failed) => return Err(FileError::ReadFault),
            Ok(0) if begun == 0 => return enough(factor, front),
            Ok(0) => return Err(FileError::Ragged),
            Ok(n) => begun = take_front(form, most, &mut buffer, begun + n, &mut front)?,
        }
        if bytes_read(form, front.count, begun) > limit {
            return Err(FileError::TooLong);
        }
    }
}

/// Reads a recording of signed 16-bit components, four bytes per sample, as `read_as` does with `Ci16`. Reads at most
/// byte 7,680,001 of an input that is too long. (own)
pub fn read_recording<S: Source>(alloc: Global, source: &mut S) -> Result<Recording, FileError>
    ensures ok { IfOk result (λ recording.
        HasReadRecording Ci16 recording (S.state source.old) (S.state source.new)) }
    ensures valid { IfOk result IsRecording }
    ensures ragged { IsErrOf result FileError.Ragged →
        HasReadRagged Ci16 (S.state source.old) (S.state source.new) }
    ensures too_short { IsErrOf result FileError.TooShort →
        HasReadTooShort Ci16 (S.state source.old) (S.state source.new) }
    ensures too_long { IsErrOf result FileError.TooLong →
        HasReadPast (most_bytes Ci16) (S.state source.old) (S.state source.new) }
    ensures fault { IsErrOf result FileError.ReadFault →
        HasReadFault (most_bytes Ci16) (S.state source.old) (S.state source.new) }
    ensures memory { IsErrOf result FileError.OutOfMemory →
        HasReadPart (most_bytes Ci16) (S.state source.old) (S.state source.new) }
    ensures never_falls { (S.state source.old).faults ≤ (S.state source.new).faults }
{
    read_as(alloc, source, SampleForm::Ci16)
}

/// Reads a recording of 8-bit components, two bytes per sample, as `read_as` does with `Cu8`. Reads at most byte
/// 3,840,001 of an input that is too long. (own)
pub fn read_cu8<S: Source>(alloc: Global, source: &mut S) -> Result<Recording, FileError>
    ensures ok { IfOk result (λ recording.
        HasReadRecording Cu8 recording (S.state source.old) (S.state source.new)) }
    ensures valid { IfOk result IsRecording }
    ensures ragged { IsErrOf result FileError.Ragged →
        HasReadRagged Cu8 (S.state source.old) (S.state source.new) }
    ensures too_short { IsErrOf result FileError.TooShort →
        HasReadTooShort Cu8 (S.state source.old) (S.state source.new) }
    ensures too_long { IsErrOf result FileError.TooLong →
        HasReadPast (most_bytes Cu8) (S.state source.old) (S.state source.new) }
    ensures fault { IsErrOf result FileError.ReadFault →
        HasReadFault (most_bytes Cu8) (S.state source.old) (S.state source.new) }
    ensures memory { IsErrOf result FileError.OutOfMemory →
        HasReadPart (most_bytes Cu8) (S.state source.old) (S.state source.new) }
    ensures never_falls { (S.state source.old).faults ≤ (S.state source.new).faults }
{
    read_as(alloc, source, SampleForm::Cu8)
}

// Returns the number of bytes in `samples` complete samples and `begun` bytes of an incomplete one.
fn bytes_read(form: SampleForm, samples: usize, begun: usize) -> usize
    requires samples { samples ≤ 2 ^ 40 }
    requires begun { begun ≤ 4 }
    ensures { result ≡ width_of form * samples + begun }
{
    match form {
        SampleForm::Ci16 => 4 * samples + begun,
        SampleForm::Cu8 => 2 * samples + begun,
    }
}

// Returns the recording that consists of `samples`, 57,600 to 1,920,000.
fn recording_of(samples: Vec<Sample>) -> Result<Recording, FileError>
    requires least { least_samples ≤ length samples.items }
    requires most { length samples.items ≤ most_samples }
    ensures ok { IsOk result }
    ensures value { IfOk result (λ recording. recording ≡ samples.items) }
    ensures valid { IfOk result IsRecording }
{
    match Recording::new(samples) {
        Some(recording) => Ok(recording),
        None => Err(FileError::TooShort),
    }
}

// Returns the kept samples, or `TooShort` if the input has fewer than 30 ms of samples, at `factor` times 1.92 million
// samples per second.
fn enough(factor: usize, front: Front) -> Result<Vec<Sample>, FileError>
    requires factor { factor ≤ 16 }
    ensures ok { IfOk result (λ samples. samples.items ≡ front.samples.items) }
    ensures least { IfOk result (λ samples. factor * least_samples ≤ front.count) }
    ensures error { IsErr result → IsErrOf result FileError.TooShort }
    ensures few { IsErrOf result FileError.TooShort → front.count < factor * least_samples }
{
    if front.count < factor * LEAST_SAMPLES {
        Err(FileError::TooShort)
    } else {
        Ok(front.samples)
    }
}

// Takes the complete samples from the buffer's first `end` bytes, counts them, and keeps the first `most` of all. Moves
// the bytes of an incomplete sample to the buffer's start and returns their number.
fn take_front(
    form: SampleForm,
    most: usize,
    buffer: &mut [u8],
    end: usize,
    front: &mut Front,
) -> Result<usize, AllocError>
    requires end { end ≤ length buffer.old }
    requires most { most ≤ 16 * most_samples }
    requires count { front.old.count ≤ 16 * most_samples }
    requires piece { end ≤ 16384 }
    requires kept { length front.old.samples.items ≤ most }
    ensures takes { IfOk result (λ begun. (before : List SampleValue) →
        AreKept most before front.old.samples.items front.old.count →
        TakesFront form most (take end buffer.old) before front.new.samples.items front.new.count
        (take begun buffer.new)) }
    ensures few { IfOk result (λ begun. begun < width_of form) }
    ensures count { IfOk result (λ begun.
        width_of form * front.new.count + begun ≡ width_of form * front.old.count + end) }
    ensures same_length { length buffer.new ≡ length buffer.old }
{
    let whole = end / form.width();
    let kept = whole.min(most - front.samples.len());
    form.append_samples(&buffer[..bytes_read(form, kept, 0)], &mut front.samples)?;
    front.count += whole;
    let taken = bytes_read(form, whole, 0);
    buffer.copy_within(taken..end, 0);
    Ok(end - taken)
}

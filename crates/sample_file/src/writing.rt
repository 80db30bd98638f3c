//! Samples as bytes, and samples written to a sink.

ghost use Rattle.std.specs.Prelude.{◌≡◌, ◌*◌, ◌≤◌, length, IfOk, OnOk, OnErr};
ghost use Rattle.cs_outside.specs.Counts.{Rose};
ghost use Rattle.cs_outside.specs.Streams.{HasWritten, HasWrittenFront, IsShortOf};
ghost use Rattle.sample_file.specs.Recording.{sample_bytes, bytes_of as all_bytes, AreReadBack};

use crate::pieces::PieceWriter;
use byteorder::{ByteOrder, LittleEndian};
use cs_num::Sample;
use cs_outside::{Failed, Sink};
use std::alloc::{AllocError, Global};

/// Returns the samples as bytes, four each: the real, then the imaginary component, each a signed 16-bit number, low
/// byte first. Fails only if an allocation fails. (own)
pub fn bytes_of(alloc: Global, samples: &[Sample]) -> Result<Vec<u8>, AllocError>
    ensures { IfOk result (λ bytes. bytes.items ≡ all_bytes samples.now) }
{
    let mut bytes = Vec::new(alloc);
    for sample in samples {
        bytes.extend_from_slice(&bytes_of_sample(sample))?;
    }
    Ok(bytes)
}

/// Writes samples to `sink`, four bytes each: real, then imaginary component, signed 16-bit, low byte first. Pieces
/// have 16,384 bytes; only the last may be shorter. Fails if the sink fails. Does not allocate. (own)
pub fn write_samples<K: Sink>(sink: &mut K, samples: &[Sample]) -> Result<(), Failed>
    ensures ok { OnOk result (HasWritten (all_bytes samples.now) (K.state sink.old) (K.state sink.new)) }
    ensures front { OnErr result (HasWrittenFront (all_bytes samples.now) (K.state sink.old) (K.state sink.new)) }
    ensures full { OnErr result (IsShortOf (length (all_bytes samples.now)) (K.state sink.old)) }
    ensures fault { OnErr result (Rose (K.state sink.old).faults (K.state sink.new).faults) }
    ensures never_falls { (K.state sink.old).faults ≤ (K.state sink.new).faults }
{
    let mut writer = PieceWriter::new();
    match writer.push(sink, samples) {
        Ok(()) => writer.finish(sink),
        Err(Failed) => Err(Failed),
    }
}

// Writes the samples' bytes to `buffer`, which has exactly their length. If the function were inlined, it would become
// a loop over single samples.
#[inline(never)]
pub(crate) fn put_samples(buffer: &mut [u8], samples: &[Sample])
    requires { length buffer.old ≡ 4 * length samples.now }
    ensures { buffer.new ≡ all_bytes samples.now }
{
    for (i, sample) in samples.iter().enumerate() {
        buffer[4 * i..4 * i + 4].copy_from_slice(&bytes_of_sample(sample));
    }
}

// Returns the four bytes of a sample: real, then imaginary component, low byte first.
fn bytes_of_sample(sample: &Sample) -> [u8; 4]
    ensures { result ≡ sample_bytes sample.now }
{
    let mut bytes = [0u8; 4];
    LittleEndian::write_i16_into(&[sample.re, sample.im], &mut bytes);
    bytes
}

/// A law: the bytes of samples are read back as equal samples, if no component is below -32,767.
pub fn bytes_are_read_back()
    ensures { AreReadBack }
{}

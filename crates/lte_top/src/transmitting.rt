//! Transmission of a described cell.

ghost use Rattle.std.specs.Prelude.{◌≡◌, ◌≤◌, length, IfOk, IfErr, OnOk, OnErr};
ghost use Rattle.cs_outside.specs.Counts.{Rose};
ghost use Rattle.cs_outside.specs.Outside.{SourceState, SinkState};
ghost use Rattle.cs_outside.specs.Streams.{HasWritten, HasWrittenFront, IsShortOf};
ghost use Rattle.sample_file.specs.Recording.{bytes_of};
ghost use Rattle.cell_tx.specs.Emission.{emitted_samples};
ghost use Rattle.lte_top.specs.Transmitting.{sent_samples, HasDescription};
ghost use Rattle.lte_top.specs.Forms.{description};
ghost use Rattle.lte_top.specs.Run.{Cause, IsDone, Ends};
ghost use Rattle.lte_args.specs.declared.form.Form.TheVariants.{Transmit};

use crate::status::Status;
use cell_json::read_by;
use cell_plan::Emission;
use cell_tx::Emitter;
use cs_outside::{Failed, Sink, Source, read_to_end};
use lte_types::Carrier;
use sample_file::PieceWriter;
use std::alloc::Global;

// The maximum length of a description in bytes.
const MOST_BYTES: usize = 65_536;

// Reads a description to the end of its source, and writes the cell's samples with load number `load`, if any. Nothing
// is allocated after the first write.
#[inline(never)]
pub(crate) fn transmit<S: Source, K: Sink>(
    alloc: Global,
    carrier: Carrier,
    load: Option<u32>,
    source: &mut S,
    sink: &mut K,
) -> Result<(), Status>
    ensures done { OnOk result (IsDone (Transmit carrier load)
        (S.state source.old, K.state sink.old) (S.state source.new, K.state sink.new)) }
    ensures ended { IfErr result (Ends (Transmit carrier load)
        (S.state source.old, K.state sink.old) (S.state source.new, K.state sink.new)) }
    ensures reads { (S.state source.old).faults ≤ (S.state source.new).faults }
    ensures writes { (K.state sink.old).faults ≤ (K.state sink.new).faults }
{
    let emission = emission_of(alloc, carrier, source)?;
    match write_emission(&with_load(emission, load), sink) {
        Ok(()) => Ok(()),
        Err(Failed) => Err(Status::WriteFault),
    }
}

// Reads a description to the end of its source, and returns the described emission.
fn emission_of<S: Source>(
    alloc: Global,
    carrier: Carrier,
    source: &mut S,
) -> Result<Emission, Status>
    ensures ok { IfOk result (λ e. HasDescription carrier e (S.state source.old) (S.state source.new)) }
    ensures err { IfErr result (Cause (description carrier) (S.state source.old) (S.state source.new)) }
    ensures never_falls { (S.state source.old).faults ≤ (S.state source.new).faults }
{
    let bytes = read_to_end(alloc, source, MOST_BYTES)?;
    let emission = read_by(alloc, carrier, &bytes)?;
    Ok(emission)
}

// Returns `emission` with its load number set to `load`.
fn with_load(mut emission: Emission, load: Option<u32>) -> Emission
    ensures { emitted_samples result ≡ sent_samples load emission }
{
    emission.load = load;
    emission
}

// Writes an emission's samples, which are generated frame by frame, in pieces of 16,384 bytes; the last may be shorter.
fn write_emission<K: Sink>(emission: &Emission, sink: &mut K) -> Result<(), Failed>
    ensures ok { OnOk result (HasWritten (bytes_of (emitted_samples emission.now))
        (K.state sink.old) (K.state sink.new)) }
    ensures front { OnErr result (HasWrittenFront (bytes_of (emitted_samples emission.now))
        (K.state sink.old) (K.state sink.new)) }
    ensures full { OnErr result (IsShortOf (length (bytes_of (emitted_samples emission.now))) (K.state sink.old)) }
    ensures fault { OnErr result (Rose (K.state sink.old).faults (K.state sink.new).faults) }
    ensures never_falls { (K.state sink.old).faults ≤ (K.state sink.new).faults }
{
    write_pieces(&mut Emitter::new(emission), sink)
}

// Writes all samples of an emitter, positioned before its first piece, in pieces of 16,384 bytes; the last may be
// shorter.
fn write_pieces<K: Sink>(emitter: &mut Emitter, sink: &mut K) -> Result<(), Failed>
    requires { emitter.old.at ≡ 0 }
    ensures ok { OnOk result (HasWritten (bytes_of emitter.old.samples) (K.state sink.old) (K.state sink.new)) }
    ensures front { OnErr result
        (HasWrittenFront (bytes_of emitter.old.samples) (K.state sink.old) (K.state sink.new)) }
    ensures full { OnErr result (IsShortOf (length (bytes_of emitter.old.samples)) (K.state sink.old)) }
    ensures fault { OnErr result (Rose (K.state sink.old).faults (K.state sink.new).faults) }
    ensures never_falls { (K.state sink.old).faults ≤ (K.state sink.new).faults }
{
    let mut writer = PieceWriter::new();
    while emitter.advance() {
        match writer.push(sink, emitter.piece()) {
            Ok(()) => {}
            Err(Failed) => return Err(Failed),
        }
    }
    writer.finish(sink)
}

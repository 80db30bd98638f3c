//! Certifies a recording's MIBs, and answers certificates.

ghost use Rattle.std.specs.Prelude.{◌≡◌, ◌≤◌, IfOk, IfErr, OnOk, OnErr, string_bytes};
ghost use Rattle.cs_outside.specs.Counts.{Rose};
ghost use Rattle.cs_outside.specs.Outside.{SourceState, SinkState};
ghost use Rattle.certificates.specs.Certifying.{HasCertifiedAll, HasCertifiedSome};
ghost use Rattle.lte_top.specs.Forms.{certificates};
ghost use Rattle.lte_top.specs.Run.{Cause, HasOutput, IsDone, Ends};
ghost use Rattle.explain.specs.Receiver.{Receiver};
ghost use Rattle.evidence.specs.Receivers.{receiver_of};
ghost use Rattle.lte_top.specs.Searching.{IsListOf};
ghost use Rattle.lte_args.specs.declared.form.Form.TheVariants.{Certify, Check};

use crate::reading::narrow_of;
use crate::searching::{read_list, room_for_list};
use crate::status::Status;
use certificates::{CertificateWork, certify, read_answers};
use cs_outside::{Failed, Sink, Source};
use explain::{EntryList, Workspace};
use lte_args::RecordingForm;
use lte_types::Carrier;
use report_text::text_of_answers;
use sample_file::Recording;
use std::alloc::{AllocError, Global};

// The memory for certifying a cell list: for the search, its list, and the certificates.
#[derive(Drop)]
struct Rooms {
    search: Workspace,
    list: EntryList,
    work: CertificateWork,
}

// Reads a recording to its end, and writes one certificate per entry of its cell list, in order. All memory is
// allocated before the first write.
#[inline(never)]
pub(crate) fn certify_recording<S: Source, K: Sink>(
    alloc: Global,
    carrier: Carrier,
    form: RecordingForm,
    source: &mut S,
    sink: &mut K,
) -> Result<(), Status>
    ensures done { OnOk result (IsDone (Certify carrier form)
        (S.state source.old, K.state sink.old) (S.state source.new, K.state sink.new)) }
    ensures ended { IfErr result (Ends (Certify carrier form)
        (S.state source.old, K.state sink.old) (S.state source.new, K.state sink.new)) }
    ensures reads { (S.state source.old).faults ≤ (S.state source.new).faults }
    ensures writes { (K.state sink.old).faults ≤ (K.state sink.new).faults }
{
    let recording = narrow_of(alloc, form, source)?;
    let mut rooms = rooms_of(alloc)?;
    match certify_list(&recording, carrier, &mut rooms, sink) {
        Ok(()) => Ok(()),
        Err(Failed) => Err(Status::WriteFault),
    }
}

// Allocates the memory for a cell list and its certificates.
fn rooms_of(alloc: Global) -> Result<Rooms, AllocError> {
    let (search, list) = room_for_list(alloc)?;
    let work = CertificateWork::new(alloc)?;
    Ok(Rooms { search, list, work })
}

// Searches for the cells of a transmission scheme, and writes their certificates.
fn certify_list<K: Sink>(
    recording: &Recording,
    carrier: Carrier,
    rooms: &mut Rooms,
    sink: &mut K,
) -> Result<(), Failed>
    ghost receiver: { Receiver }
    requires { receiver ≡ receiver_of carrier }
    ensures list { IsListOf carrier recording.now rooms.new.list }
    ensures ok { OnOk result (HasCertifiedAll receiver recording.now rooms.new.list
        (K.state sink.old) (K.state sink.new)) }
    ensures err { OnErr result (HasCertifiedSome receiver recording.now rooms.new.list
        (K.state sink.old) (K.state sink.new)) }
    ensures fault { OnErr result (Rose (K.state sink.old).faults (K.state sink.new).faults) }
    ensures never_falls { (K.state sink.old).faults ≤ (K.state sink.new).faults }
{
    read_list(recording, carrier, &mut rooms.search, &mut rooms.list);
    certify(
        recording,
        rooms.list.slice(),
        rooms.search.readings(),
        &mut rooms.work,
        sink,
    )
}

// Reads certificates to the end of the input, and returns the text of the answers.
#[inline(never)]
pub(crate) fn answers_text<S: Source>(alloc: Global, source: &mut S) -> Result<String, Status>
    ensures ok { IfOk result (λ text.
        HasOutput Check (string_bytes text) (S.state source.old) (S.state source.new)) }
    ensures err { IfErr result (Cause certificates (S.state source.old) (S.state source.new)) }
    ensures never_falls { (S.state source.old).faults ≤ (S.state source.new).faults }
{
    let answers = read_answers(alloc, source)?;
    let text = text_of_answers(alloc, &answers)?;
    Ok(text)
}

//! The system information of a cell.
//!
//! The reason is `NotOnePort` if the MIB's antenna port count is not the transmission scheme's, and `Bandwidth` if the
//! cell is not 6 resource blocks wide.

ghost use Rattle.std.specs.Prelude.{◌≡◌, ◌<◌, ◌+◌, ◌*◌, ◌%◌, [], None, Ok, Err};
ghost use Rattle.explain.specs.Receiver.{subframes_by};
ghost use Rattle.explain.specs.System.{even_frame as even_frame_of, FrameAnswers, IsReadFrom, IsSystemWith};
ghost use Rattle.sib1_reader.specs.Attempt.{granted_by};
ghost use Rattle.explain.specs.Grant.{IsFrameAttempt, IsGrantBy, IsGrantWith};
ghost use Rattle.explain.specs.Blocks.{IsBlockWith, IsDecodedWith};

use crate::frame::is_whole;
use crate::slots::attempt_at;
use dci::Grant;
use lte_types::{Bandwidth, CellPlace, Cfi, Mib, Sfn, Sib1, Sib1Reason};
use pbch::Master;
use sample_file::Recording;
use sib1_reader::{Decoded, Decoders};
use soft_bits::ReadSlot;
use turbo_dec::Block;

/// The system information of a cell, and the control format indicator, grant and transport block with which it was
/// read.
#[derive(Drop)]
pub struct Informed {
    /// The fields of SystemInformationBlockType1, or the reason why they were not read.
    pub sib1: Result<Sib1, Sib1Reason>,
    /// The control format indicator and the grant with which the fields were read; `None` if they were not read.
    pub granted: Option<(Cfi, Grant)>,
    /// The bits of the transport block that carried the fields, without the CRC; no bits if they were not read.
    pub block: Block,
}

impl Informed {
    /// Returns `reason` as the result, with neither fields nor a grant nor a transport block.
    pub fn not_read(reason: Sib1Reason) -> Informed
        ensures reason { result.sib1 ≡ Err reason }
        ensures none { result.granted ≡ None }
        ensures empty { result.block.items ≡ [] }
    {
        Informed {
            sib1: Err(reason),
            granted: None,
            block: Block::new(),
        }
    }
}

/// Returns the SIB1 fields of the first of the cell's first eight even-numbered frames that carries any, or else the
/// first such frame's reason. `sfn` is the first frame's number. No frame is read for `NotOnePort` and `Bandwidth`.
pub fn system_in<S: ReadSlot>(
    recording: &Recording,
    place: CellPlace,
    sfn: Sfn,
    master: Master,
    work: &mut Decoders,
) -> Informed
    ensures sib1 { IsSystemWith S.carrier (Ok (subframes_by S.carrier S.values_by)) recording.now place sfn
        master.ports master.mib result.sib1 }
    ensures granted { IsGrantWith (Ok (subframes_by S.carrier S.values_by)) recording.now place sfn master.mib
        result.sib1 result.granted }
    ensures block { IsDecodedWith result.sib1 (IsBlockWith (Ok (subframes_by S.carrier S.values_by)) recording.now place
        sfn master.mib) result.block.items }
{
    if master.ports != S::carrier().ports() {
        return Informed::not_read(Sib1Reason::NotOnePort(master.ports));
    }
    if master.mib.bandwidth != Bandwidth::N6 {
        return Informed::not_read(Sib1Reason::Bandwidth(master.mib.bandwidth));
    }
    read_frames::<S>(recording, place, sfn, master.mib, work)
}

// Returns the SIB1 fields of the first even-numbered frame that carries any, or else the reason of the first such
// frame.
fn read_frames<S: ReadSlot>(
    recording: &Recording,
    place: CellPlace,
    sfn: Sfn,
    mib: Mib,
    work: &mut Decoders,
) -> Informed
    ensures read { IsReadFrom (FrameAnswers (subframes_by S.carrier S.values_by) recording.now place mib) recording.now
        place.start sfn result.sib1 }
    ensures granted { IsGrantBy (IsFrameAttempt (subframes_by S.carrier S.values_by) recording.now place mib)
        recording.now place.start sfn result.sib1 result.granted }
    ensures block { IsDecodedWith result.sib1 (IsBlockWith (Ok (subframes_by S.carrier S.values_by)) recording.now place
        sfn mib) result.block.items }
{
    let first = even_frame(sfn, 0);
    // A recording has at least three frames, so the first even-numbered frame lies within it.
    let count = recording.len();
    let start = place.start();
    prove!(57_600 <= count && start < 19_200);
    let decoded = informed_by(attempt_at::<S>(recording, place, first, mib, work));
    if decoded.sib1.is_ok() {
        return decoded;
    }
    for i in 1..8 {
        let j = even_frame(sfn, i);
        if !is_whole(recording, place, j) {
            return decoded;
        }
        let later = informed_by(attempt_at::<S>(recording, place, j, mib, work));
        if later.sib1.is_ok() {
            return later;
        }
    }
    decoded
}

// Returns an attempt's result, and its control format indicator, grant and transport block if it read fields.
fn informed_by(decoded: Decoded) -> Informed
    ensures sib1 { result.sib1 ≡ decoded.attempt.answer }
    ensures granted { result.granted ≡ granted_by decoded.attempt }
    ensures block { result.block ≡ decoded.block }
{
    let granted = decoded.attempt.granted();
    Informed {
        sib1: decoded.attempt.answer,
        granted,
        block: decoded.block,
    }
}

/// Returns the index of a cell's even-numbered frame `i`, 0 to 7, counted from its first frame, which has the system
/// frame number `sfn`.
pub fn even_frame(sfn: Sfn, i: u8) -> u8
    requires { i < 8 }
    ensures value { result ≡ even_frame_of sfn i }
    ensures few { result < 16 }
{
    (sfn.value() % 2) as u8 + 2 * i
}

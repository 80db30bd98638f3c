//! The MIBs of a cell, for any receiver.

ghost use Rattle.std.specs.Prelude.{◌≡◌, ℕ, ◌<◌, ◌≤◌, All, List, [], IfSome, MatchOption, is_some, length};
ghost use Rattle.finite.specs.Tests.{any_below};
ghost use Rattle.arrayvec.specs.ArrayVec.{array_vec_len};
ghost use Rattle.cs_num.specs.declared.Sample.{Sample};
ghost use Rattle.pbch.specs.Master.{master_at};
ghost use Rattle.explain.specs.Frame.{IsWhole};
ghost use Rattle.explain.specs.Receiver.{is_wanted, sums_by};
ghost use Rattle.explain.specs.Entries.{IsMasterFor};
ghost use Rattle.explain.specs.Masters.{HaveMasters, AreFirstWith};
ghost use Rattle.explain.specs.Readings.{AreSums};
ghost use Rattle.explain.specs.Received.{AreReceived, NoneDecodes, AreFirstOf, taken_of};
ghost use Rattle.explain.specs.Window.{NoneIsDecoded, HasNoMasters};

use crate::FrameReader;
use crate::frame::whole_frames;
use crate::scrambled_cell::ScrambledCell;
use arrayvec::ArrayVec;
use lte_types::CellPlace;
use pbch::{Master, Received, WordSums, masters};
use sample_file::Recording;
use tailbite::Trellis;

/// `frames` consecutive frames of a cell from frame `frame` on. By phase of the first frame, `at` has the MIB that they
/// carry, and `sums` the combined soft values from which it was decoded.
#[derive(Clone, Copy)]
pub struct Masters {
    pub frames: u8,
    pub frame: u8,
    pub at: [Option<Master>; 4],
    pub sums: [WordSums; 4],
}

// The soft values of the frames read so far, from a cell's frame 0.
type ReceivedFrames = ArrayVec<Received, 8>;

/// Returns the first of a cell's frames 0 to 7 that carry a MIB, with their MIBs by phase: a single frame, or else two
/// to four consecutive ones, if `reader` combines that many. Returns `None` if none do.
pub(crate) fn first_masters<F: FrameReader>(
    reader: &F,
    recording: &Recording,
    place: CellPlace,
    work: &mut Trellis,
) -> Option<Masters>
    ensures masters { let Decodes = IsMasterFor F.receiver recording.now in
        MatchOption result (HasNoMasters Decodes recording.now place)
        (λ found. AreFirstWith Decodes recording.now place found.frames found.frame found.at) }
    ensures sums { IfSome result (λ found.
        AreSums (sums_by F.receiver recording.now place) found.frames found.frame found.sums) }
{
    let whole = whole_frames(recording, place);
    let cell = ScrambledCell::new(place);
    let most = reader.scheme().most_frames;
    let mut frames = ReceivedFrames::new();
    match first_alone(reader, recording, &cell, whole, &mut frames, work) {
        Some(found) => return Some(found),
        None => {}
    }
    for count in 2..most + 1 {
        match first_together(reader, &cell, count, frames.as_slice(), work) {
            Some(found) => return Some(found),
            None => {}
        }
    }
    None
}

// Returns the first of a cell's first `whole` frames that carries a MIB by itself. If there is none, `frames` then
// holds the soft values of all of them.
fn first_alone<F: FrameReader>(
    reader: &F,
    recording: &Recording,
    cell: &ScrambledCell,
    whole: u8,
    frames: &mut ReceivedFrames,
    work: &mut Trellis,
) -> Option<Masters>
    requires few { whole ≤ 8 }
    requires whole { (j : ℕ) → j < whole → IsWhole recording.now cell.now.start j }
    requires adds { 1 ≤ F.receiver.most_frames }
    requires none { frames.old.items ≡ [] }
    ensures found { let Decodes = IsMasterFor F.receiver recording.now in
        MatchOption result (NoneDecodes Decodes cell.now whole 1)
        (λ found. (found.frames ≡ 1) × AreFirstOf Decodes cell.now whole 1 found.frame found.at) }
    ensures sums { IfSome result (λ found.
        AreSums (sums_by F.receiver recording.now cell.now) found.frames found.frame found.sums) }
    ensures received { MatchOption result
        ((array_vec_len frames.new ≡ whole)
        × AreReceived (F.receiver.broadcast recording.now cell.now) 0 frames.new.items) (λ found. Unit) }
    ensures sizes { All (λ frame. length frame ≡ F.receiver.count) frames.new.items }
{
    for frame in 0..whole {
        frames.push(reader.received(recording, cell.place(), frame));
        let last = frame as usize;
        match masters_of(
            reader,
            cell,
            frame,
            &frames.as_slice()[last..last + 1],
            work,
        ) {
            Some(found) => return Some(found),
            None => {}
        }
    }
    None
}

// Returns the first `count` consecutive frames that together carry a MIB, or `None`. `frames` holds the soft values of
// all frames received.
fn first_together<F: FrameReader>(
    reader: &F,
    cell: &ScrambledCell,
    count: u8,
    frames: &[Received],
    work: &mut Trellis,
) -> Option<Masters>
    requires some { 1 ≤ count }
    requires few { count ≤ 4 }
    requires adds { count ≤ F.receiver.most_frames }
    requires known { length frames.now ≤ 8 }
    requires sizes { All (λ frame. length frame ≡ F.receiver.count) frames.now }
    ensures masters { (recording : List Sample) →
        AreReceived (F.receiver.broadcast recording cell.now) 0 frames.now →
        let Decodes = IsMasterFor F.receiver recording in
        MatchOption result (NoneDecodes Decodes cell.now (length frames.now) count)
        (λ found. (found.frames ≡ count)
        × AreFirstOf Decodes cell.now (length frames.now) count found.frame found.at) }
    ensures sums { (recording : List Sample) →
        AreReceived (F.receiver.broadcast recording cell.now) 0 frames.now →
        IfSome result (λ found.
        AreSums (sums_by F.receiver recording cell.now) found.frames found.frame found.sums) }
{
    let whole = frames.len() as u8;
    for frame in 0..(whole + 1).saturating_sub(count) {
        let first = frame as usize;
        match masters_of(
            reader,
            cell,
            frame,
            &frames[first..first + count as usize],
            work,
        ) {
            Some(found) => return Some(found),
            None => {}
        }
    }
    None
}

// Returns the MIBs that consecutive frames from frame `frame` carry, by phase, or `None` if they carry no MIB.
fn masters_of<F: FrameReader>(
    reader: &F,
    cell: &ScrambledCell,
    frame: u8,
    frames: &[Received],
    work: &mut Trellis,
) -> Option<Masters>
    requires some { 1 ≤ length frames.now }
    requires few { length frames.now ≤ 4 }
    requires adds { length frames.now ≤ F.receiver.most_frames }
    requires sizes { All (λ frame. length frame ≡ F.receiver.count) frames.now }
    ensures masters { (recording : List Sample) →
        AreReceived (F.receiver.broadcast recording cell.now) frame frames.now →
        let Decodes = IsMasterFor F.receiver recording in
        MatchOption result (NoneIsDecoded Decodes cell.now (length frames.now) frame)
        (λ found. (found.frames ≡ length frames.now) × (found.frame ≡ frame)
        × HaveMasters Decodes cell.now (length frames.now) frame found.at) }
    ensures sums { (recording : List Sample) →
        AreReceived (F.receiver.broadcast recording cell.now) frame frames.now →
        IfSome result (λ found.
        AreSums (sums_by F.receiver recording cell.now) found.frames found.frame found.sums) }
{
    let decoded = masters(cell.bits(), frames[0].len(), frames, work);
    let at = taken(reader, &decoded.at);
    if !has_master(&at) {
        return None;
    }
    Some(Masters {
        frames: frames.len() as u8,
        frame,
        at,
        sums: decoded.sums,
    })
}

// Returns the MIBs whose antenna port counts `reader` accepts, by phase.
fn taken<F: FrameReader>(reader: &F, all: &[Option<Master>; 4]) -> [Option<Master>; 4]
    ensures length { length result ≡ 4 }
    ensures each { (phase : ℕ) → phase < 4 →
        master_at result phase ≡ taken_of (is_wanted F.receiver.ports) (master_at all.now phase) }
{
    [
        taken_one(reader, all[0]),
        taken_one(reader, all[1]),
        taken_one(reader, all[2]),
        taken_one(reader, all[3]),
    ]
}

// Returns the MIB in `found` if `reader` accepts its antenna port count.
fn taken_one<F: FrameReader>(reader: &F, found: Option<Master>) -> Option<Master>
    ensures { result ≡ taken_of (is_wanted F.receiver.ports) found }
{
    match found {
        Some(master) => {
            if reader.scheme().takes(master.ports) {
                Some(master)
            } else {
                None
            }
        }
        None => None,
    }
}

// Returns whether there is a MIB at any phase.
#[tactic(auto, unfolding(finite::specs::Tests::any_below))]
fn has_master(at: &[Option<Master>; 4]) -> bool
    ensures { result ≡ any_below 4 (λ phase. is_some (master_at at.now phase)) }
{
    at[0].is_some() || at[1].is_some() || at[2].is_some() || at[3].is_some()
}

//! The cell list of a recording, for any receiver. (own)
//!
//! A PSS detection (hit) gives a cell's place, that is its identity and frame start, if the recording contains the
//! useful part of the preceding symbol, which carries the secondary signal. The cell's frames 0 to 7 are searched, as
//! far as they lie within the recording. The first frame that carries a MIB at any of the four phases of the PBCH
//! period gives an entry for each of its MIBs, by phase. If no single frame does, groups of two, then three, then four
//! consecutive frames in one period are searched by the sums of their soft values, at most as many frames as the
//! receiver combines.
//!
//! An entry has the cell's system information, or a `Sib1Reason` (`system_in`). The fields, which are in their ranges,
//! are those of the first frame that has any among the cell's first eight even-numbered frames. An entry is dropped if
//! an earlier kept entry has the same identity and an epoch at most 9 samples away, modulo 1,024 frames. The list is in
//! order of start, identity and frame number.

ghost use Rattle.std.specs.Prelude.{◌≡◌, ◌+◌, ◌-◌, ◌<◌, ◌≤◌, true, false, List, [], ◌∷◌, ◌++◌, All, IfOk, length};
ghost use Rattle.std.specs.List.{AllZip};
ghost use Rattle.lte_types.specs.declared.hit.Hit.{Hit as HitValue};
ghost use Rattle.lte_types.specs.Frames.{AreFrames, frames_from};
ghost use Rattle.lte_types.specs.Ranges.{IsValid};
ghost use Rattle.pss_search.specs.Hits.{hits_of};
ghost use Rattle.pbch.specs.Master.{master_at};
ghost use Rattle.explain.specs.Receiver.{HasRoom, place_by, sums_by};
ghost use Rattle.explain.specs.System.{IsSystemFor};
ghost use Rattle.explain.specs.Grant.{IsGrantFor};
ghost use Rattle.explain.specs.Blocks.{IsBlockFor};
ghost use Rattle.explain.specs.Entries.{Adds, AddsHit, AreEntriesFor, IsListOfHits, IsListFor};
ghost use Rattle.explain.specs.Readings.{IsFirstAt, IsReadingOf, IsReadingFor, AreSums, AddsBeside, KeepsReadings};
ghost use Rattle.explain.specs.Places.{is_met};
ghost use Rattle.explain.specs.Masters.{entry_of as entry_of_master, AddsPhase, AddsPhases};

use crate::hit_list::{detected_place, early_hits};
use crate::masters::{Masters, first_masters};
use crate::notes::Notes;
use crate::reading_list::Readings;
use crate::{EntryList, FrameReader, NumberedCell, Reading, Workspace};
use dci::Grant;
use lte_types::{CellPlace, Cfi, Entry, Frames, Hit};
use pbch::Master;
use pss_search::{hits, hits_are_right};
use sample_file::Recording;
use sib1_reader::Decoders;
use turbo_dec::Block;

// A hit, the place of its cell, and the MIBs in the first of the cell's frames that carry any.
#[derive(Drop)]
struct Found {
    hit: Hit,
    place: CellPlace,
    masters: Masters,
}

/// Replaces `list` with a recording's cell list for a receiver, by the rules at the head of this file, and the content
/// of `work` with the reading of each entry. Does not allocate. (own)
pub fn explain_by<F: FrameReader>(
    reader: &F,
    recording: &Recording,
    work: &mut Workspace,
    list: &mut EntryList,
)
    ensures list { IsListFor F.receiver recording.now list.new }
    ensures readings { AllZip (IsReadingFor F.receiver recording.now) list.new work.new }
    ensures valid { All (λ entry. IfOk entry.sib1 IsValid) list.new }
{
    hits(recording, &mut work.hits);
    read_hits(reader, recording, work.hits.slice(), &mut work.notes, list);
}

/// Replaces `list` and the content of `work` as `explain_by` does, given all hits of the recording, so that several
/// receivers can share them. Does not allocate. (own)
pub fn explain_hits<F: FrameReader>(
    reader: &F,
    recording: &Recording,
    hits: &[Hit],
    work: &mut Workspace,
    list: &mut EntryList,
)
    requires { hits.now ≡ hits_of recording.now }
    ensures list { IsListFor F.receiver recording.now list.new }
    ensures readings { AllZip (IsReadingFor F.receiver recording.now) list.new work.new }
    ensures valid { All (λ entry. IfOk entry.sib1 IsValid) list.new }
{
    read_hits(reader, recording, hits, &mut work.notes, list);
}

// Replaces `list` with the cell list for a receiver, from all hits of the recording.
fn read_hits<F: FrameReader>(
    reader: &F,
    recording: &Recording,
    hits: &[Hit],
    notes: &mut Notes,
    list: &mut EntryList,
)
    requires { hits.now ≡ hits_of recording.now }
    ensures list { IsListFor F.receiver recording.now list.new }
    ensures readings { AllZip (IsReadingFor F.receiver recording.now) list.new notes.new.readings }
    ensures valid { All (λ entry. IfOk entry.sib1 IsValid) list.new }
{
    hits_are_right();
    let first = early_hits(hits, reader.scheme().carrier);
    list.clear();
    notes.places.clear();
    notes.readings.clear();
    add_hits(reader, recording, &hits[first..], notes, list);
}

// Fills the empty list with the entries of `hits`, which are the hits that the receiver uses.
fn add_hits<F: FrameReader>(
    reader: &F,
    recording: &Recording,
    hits: &[Hit],
    notes: &mut Notes,
    list: &mut EntryList,
)
    requires placed { All (HasRoom F.receiver.carrier) hits.now }
    requires few { length hits.now ≤ 5760 }
    requires none_met { notes.old.places ≡ [] }
    requires none_read { notes.old.readings ≡ [] }
    requires empty { list.old ≡ [] }
    ensures list { IsListOfHits (AreEntriesFor F.receiver recording.now) hits.now list.new }
    ensures readings { AllZip (IsReadingOf F.receiver recording.now hits.now) list.new notes.new.readings }
{
    for hit in hits {
        add_hit(reader, recording, hit, notes, list);
    }
}

// Adds the entries of a hit. If its place was found before, nothing is added: each of its entries belongs to a cell
// that is already in the list.
fn add_hit<F: FrameReader>(
    reader: &F,
    recording: &Recording,
    hit: &Hit,
    notes: &mut Notes,
    list: &mut EntryList,
)
    requires placed { HasRoom F.receiver.carrier hit.now }
    requires few_met { length notes.old.places < 5760 }
    requires beside { length notes.old.readings ≡ length list.old }
    requires room { length list.old + 4 ≤ 23040 }
    ensures again { is_met notes.old.places (place_by F.receiver.carrier recording.now hit.now) ≡ true →
        list.new ≡ list.old }
    ensures same { is_met notes.old.places (place_by F.receiver.carrier recording.now hit.now) ≡ true →
        notes.new ≡ notes.old }
    ensures adds { is_met notes.old.places (place_by F.receiver.carrier recording.now hit.now) ≡ false →
        AddsHit (AreEntriesFor F.receiver recording.now) hit.now list.old list.new }
    ensures met { is_met notes.old.places (place_by F.receiver.carrier recording.now hit.now) ≡ false →
        notes.new.places ≡ notes.old.places ++ place_by F.receiver.carrier recording.now hit.now ∷ [] }
    ensures readings { (hits : List HitValue) →
        IsFirstAt (place_by F.receiver.carrier recording.now) hits
        (place_by F.receiver.carrier recording.now hit.now) hit.now →
        KeepsReadings (IsReadingOf F.receiver recording.now hits)
        list.old list.new notes.old.readings notes.new.readings }
    ensures beside { length notes.new.readings ≡ length list.new }
    ensures one_met { length notes.new.places ≤ length notes.old.places + 1 }
    ensures few { length list.new ≤ length list.old + 4 }
{
    let place = detected_place(recording, hit, reader.scheme().carrier);
    if notes.places.has(&place) {
        return;
    }
    notes.places.add(&place);
    match first_masters(reader, recording, place, &mut notes.decoders.trellis) {
        Some(masters) => {
            let found = Found {
                hit: *hit,
                place,
                masters,
            };
            add_masters(reader, recording, &found, notes, list);
        }
        None => {}
    }
}

// Adds an entry and its reading for each MIB of a hit, except entries whose cell is already in the list.
fn add_masters<F: FrameReader>(
    reader: &F,
    recording: &Recording,
    found: &Found,
    notes: &mut Notes,
    list: &mut EntryList,
)
    requires some { 1 ≤ found.now.masters.frames }
    requires few { found.now.masters.frames ≤ 4 }
    requires known { found.now.masters.frame + found.now.masters.frames ≤ 8 }
    requires count { length found.now.masters.at ≡ 4 }
    requires sums { AreSums (sums_by F.receiver recording.now found.now.place) found.now.masters.frames
        found.now.masters.frame found.now.masters.sums }
    requires beside { length notes.old.readings ≡ length list.old }
    requires room { length list.old + 4 ≤ 23040 }
    ensures adds { AddsPhases (IsSystemFor F.receiver recording.now) found.now.place found.now.masters.frames
        found.now.masters.frame found.now.masters.at (5 - found.now.masters.frames) list.old list.new }
    ensures readings { (hits : List HitValue) →
        IsFirstAt (place_by F.receiver.carrier recording.now) hits found.now.place found.now.hit →
        KeepsReadings (IsReadingOf F.receiver recording.now hits)
        list.old list.new notes.old.readings notes.new.readings }
    ensures places { notes.new.places ≡ notes.old.places }
    ensures beside { length notes.new.readings ≡ length list.new }
    ensures few { length list.new ≤ length list.old + 4 }
{
    for phase in 0..5 - found.masters.frames {
        add_phase(reader, recording, found, phase, notes, list);
    }
}

// Adds the entry for the MIB at `phase`, if there is one, and its reading, unless its cell is already in the list. The
// function has six parameters because it adds to two lists.
fn add_phase<F: FrameReader>(
    reader: &F,
    recording: &Recording,
    found: &Found,
    phase: u8,
    notes: &mut Notes,
    list: &mut EntryList,
)
    requires frames { AreFrames (frames_from found.now.masters.frames found.now.masters.frame phase) }
    requires count { length found.now.masters.at ≡ 4 }
    requires sums { AreSums (sums_by F.receiver recording.now found.now.place) found.now.masters.frames
        found.now.masters.frame found.now.masters.sums }
    requires beside { length notes.old.readings ≡ length list.old }
    requires room { length list.old < 23040 }
    ensures adds { AddsPhase (IsSystemFor F.receiver recording.now) found.now.place
        (frames_from found.now.masters.frames found.now.masters.frame phase)
        (master_at found.now.masters.at phase) list.old list.new }
    ensures readings { (hits : List HitValue) →
        IsFirstAt (place_by F.receiver.carrier recording.now) hits found.now.place found.now.hit →
        KeepsReadings (IsReadingOf F.receiver recording.now hits)
        list.old list.new notes.old.readings notes.new.readings }
    ensures places { notes.new.places ≡ notes.old.places }
    ensures beside { length notes.new.readings ≡ length list.new }
    ensures one { length list.new ≤ length list.old + 1 }
{
    let frames = frames_at(&found.masters, phase);
    let master = found.masters.at[phase as usize];
    match master {
        Some(master) => {
            let (entry, granted, block) = entry_of(
                reader,
                recording,
                found.place,
                frames,
                master,
                &mut notes.decoders,
            );
            let reading = Reading {
                hit: found.hit,
                sums: found.masters.sums[phase as usize],
                granted,
                block,
            };
            add_entry(entry, reading, &mut notes.readings, list);
        }
        None => {}
    }
}

// Returns the frames that carry `masters`, with the first frame at `phase`.
fn frames_at(masters: &Masters, phase: u8) -> Frames
    requires { AreFrames (frames_from masters.now.frames masters.now.frame phase) }
    ensures { result ≡ frames_from masters.now.frames masters.now.frame phase }
{
    match Frames::new(masters.frames, masters.frame, phase) {
        Some(frames) => frames,
        None => unreachable!(),
    }
}

// Returns the entry for a MIB, and the control format indicator, grant and transport block with which its system
// information was read.
fn entry_of<F: FrameReader>(
    reader: &F,
    recording: &Recording,
    place: CellPlace,
    frames: Frames,
    master: Master,
    work: &mut Decoders,
) -> (Entry, Option<(Cfi, Grant)>, Block)
    ensures entry { result.0 ≡ entry_of_master place frames master result.0.sib1 }
    ensures system { IsSystemFor F.receiver recording.now place result.0.sfn master.ports master.mib result.0.sib1 }
    ensures granted { IsGrantFor F.receiver recording.now place result.0.sfn master.mib result.0.sib1 result.1 }
    ensures block { IsBlockFor F.receiver recording.now place result.0.sfn master.mib result.0.sib1 result.2.items }
{
    let sfn = frames.first_number(master.mib.upper);
    let cell = NumberedCell { place, sfn, master };
    let informed = reader.system_of(recording, &cell, work);
    let entry = Entry {
        id: place.id(),
        start: place.start(),
        sfn,
        ports: master.ports,
        mib: master.mib,
        frames: frames.count(),
        frame: frames.first(),
        phase: frames.phase(),
        cost: master.cost,
        sib1: informed.sib1,
    };
    (entry, informed.granted, informed.block)
}

// Adds an entry to the list, and its reading at the same index of the parallel list. Adds nothing if the entry's cell
// is already in the list.
fn add_entry(entry: Entry, reading: Reading, readings: &mut Readings, list: &mut EntryList)
    requires beside { length readings.old ≡ length list.old }
    requires room { length list.old < 23040 }
    ensures adds { Adds (entry ∷ []) list.old list.new }
    ensures both { AddsBeside entry reading list.old list.new readings.old readings.new }
{
    match list.add(entry) {
        Some(at) => readings.insert(at, reading),
        None => {}
    }
}

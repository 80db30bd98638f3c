//! The reasons for an identity.

ghost use Rattle.std.specs.Prelude.{◌≡◌, ◌%◌, All, IfOk, OnOk, List, [], ◌∷◌, ◌++◌, filter, map};
ghost use Rattle.std.specs.List.{AllZip};
ghost use Rattle.lte_types.specs.declared.hit.Hit.{Hit as HitValue};
ghost use Rattle.pss_search.specs.Hits.{IsInSpan, IsSmallHit, hits_of};
ghost use Rattle.reasons.specs.Reason.{has_identity, has_root, listed as listed_of, AreListed, AreReasons};
ghost use Rattle.reasons.specs.Reason.{IsFirstFailing, IsReasonFor};
ghost use Rattle.reasons.specs.Strongest.{IsStrongestPlace};

use crate::failing::first_failing;
use crate::reason::{ListedCell, Reason, StrongestPlace};
use crate::strongest::hits_and_place;
use explain::{EntryList, FrameReader, Workspace, explain_hits};
use lte_types::{CellId, Entry, Hit};
use pss_search::HitList;
use sample_file::Recording;
use std::alloc::{AllocError, Global};
use tailbite::Trellis;

/// Returns why `id` is in the list of `recording` or not: its entries, the first rule that fails at each hit of its
/// primary signal, or the sample where that signal is strongest. Fails only if allocation fails. (own)
pub fn reasons_by<F: FrameReader>(
    alloc: Global,
    reader: &F,
    recording: &Recording,
    id: CellId,
) -> Result<Vec<Reason>, AllocError>
    ensures { IfOk result (λ reasons. IsReasonFor F.receiver recording.now id reasons.items) }
{
    let mut found = HitList::new(alloc)?;
    let best = hits_and_place(recording, id.n2() as u8, &mut found);
    let listed = listed_by(alloc, reader, recording, found.slice(), id)?;
    if listed.is_empty() {
        unlisted_by(alloc, reader, recording, found.slice(), id, best)
    } else {
        Ok(listed)
    }
}

// Returns the reasons for the entries with identity `id` in the list that `reader` gives. Fails only if an allocation
// fails.
fn listed_by<F: FrameReader>(
    alloc: Global,
    reader: &F,
    recording: &Recording,
    hits: &[Hit],
    id: CellId,
) -> Result<Vec<Reason>, AllocError>
    requires { hits.now ≡ hits_of recording.now }
    ensures { IfOk result (λ reasons. AreListed F.receiver recording.now id reasons.items) }
{
    let mut work = Workspace::new(alloc)?;
    let mut list = EntryList::new(alloc)?;
    explain_hits(reader, recording, hits, &mut work, &mut list);
    entries_with(alloc, list.slice(), id)
}

// Returns the reasons for the entries in `list` with identity `id`. Fails only if an allocation fails.
fn entries_with(alloc: Global, list: &[Entry], id: CellId) -> Result<Vec<Reason>, AllocError>
    ensures { IfOk result (λ reasons. reasons.items ≡ map listed_of (filter (has_identity id) list.now)) }
{
    let mut reasons = Vec::new(alloc);
    for entry in list {
        add_entry(entry, id, &mut reasons)?;
    }
    Ok(reasons)
}

// Appends the reason for an entry, if the entry has identity `id`. Fails only if an allocation fails.
fn add_entry(entry: &Entry, id: CellId, reasons: &mut Vec<Reason>) -> Result<(), AllocError>
    ensures { OnOk result (reasons.new.items
        ≡ reasons.old.items ++ map listed_of (filter (has_identity id) (entry.now ∷ []))) }
{
    if entry.id == id {
        reasons.push(listed(entry))?;
    }
    Ok(())
}

// Returns the reason for a listed entry.
fn listed(entry: &Entry) -> Reason
    ensures { result ≡ listed_of entry.now }
{
    Reason::Listed(ListedCell {
        start: entry.start,
        sfn: entry.sfn,
        ports: entry.ports,
    })
}

// Returns the reasons for the identity `id`, which is not in the list. Fails only if an allocation fails.
fn unlisted_by<F: FrameReader>(
    alloc: Global,
    reader: &F,
    recording: &Recording,
    hits: &[Hit],
    id: CellId,
    best: StrongestPlace,
) -> Result<Vec<Reason>, AllocError>
    requires span { All IsInSpan hits.now }
    requires small { All IsSmallHit hits.now }
    requires best { IsStrongestPlace recording.now (id % 3) best }
    ensures { IfOk result (λ reasons.
        AreReasons F.receiver recording.now id [] (filter (has_root (id % 3)) hits.now) reasons.items) }
{
    let mut reasons = failing_at(alloc, reader, recording, hits, id)?;
    if reasons.is_empty() {
        reasons.push(Reason::NoHit(best))?;
    }
    Ok(reasons)
}

// Returns the first rule that fails at each hit of the primary signal of `id`. Fails only if an allocation fails.
fn failing_at<F: FrameReader>(
    alloc: Global,
    reader: &F,
    recording: &Recording,
    hits: &[Hit],
    id: CellId,
) -> Result<Vec<Reason>, AllocError>
    requires span { All IsInSpan hits.now }
    requires small { All IsSmallHit hits.now }
    ensures { IfOk result (λ reasons.
        AllZip (IsFirstFailing F.receiver recording.now id) (filter (has_root (id % 3)) hits.now) reasons.items) }
{
    let mut work = Trellis::new(alloc)?;
    let mut reasons = Vec::new(alloc);
    for hit in hits {
        add_failing(reader, recording, hit, id, &mut work, &mut reasons)?;
    }
    Ok(reasons)
}

// Appends the first rule that fails at a hit, if the hit belongs to the primary signal of `id`. The function has six
// parameters because it is the body of the loop over hits.
fn add_failing<F: FrameReader>(
    reader: &F,
    recording: &Recording,
    hit: &Hit,
    id: CellId,
    work: &mut Trellis,
    reasons: &mut Vec<Reason>,
) -> Result<(), AllocError>
    requires span { IsInSpan hit.now }
    requires small { IsSmallHit hit.now }
    ensures { OnOk result ((before : List HitValue) →
        AllZip (IsFirstFailing F.receiver recording.now id) (filter (has_root (id % 3)) before) reasons.old.items →
        AllZip (IsFirstFailing F.receiver recording.now id) (filter (has_root (id % 3)) (before ++ hit.now ∷ []))
        reasons.new.items) }
{
    if hit.n2 as u16 == id.n2() {
        reasons.push(first_failing(reader, recording, hit, id, work))?;
    }
    Ok(())
}

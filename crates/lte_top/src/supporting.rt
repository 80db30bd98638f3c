//! The evidence for the cells in a recording's lists.

ghost use Rattle.std.specs.Prelude.{◌≡◌, IfOk, IfSome, string_bytes};
ghost use Rattle.std.specs.List.{AllZip};
ghost use Rattle.lte_types.specs.Carrier.{carriers};
ghost use Rattle.sample_file.specs.Recording.{IsRecording};
ghost use Rattle.pss_search.specs.Hits.{hits_of as all_hits};
ghost use Rattle.halving.specs.Wide.{narrowed};
ghost use Rattle.lte_top.specs.Signals.{IsConverted};
ghost use Rattle.lte_top.specs.Supporting.{IsSupportedList, IsWideSupportedList, IsSupportedAt};
ghost use Rattle.lte_top.specs.Supporting.{IsEvidenceText, IsEvidenceJson, IsEvidenceOf};
ghost use Rattle.lte_top.specs.Supporting.{IsEvidenceTextOfAll, IsEvidenceJsonOfAll, IsEvidenceOfAll, IsEvidence};

use crate::reading::Signal;
use crate::reporting::{hits_of, line_of};
use crate::searching::read_list_by;
use evidence::{Support, evidence_of_list, set_blocks, support_of_list};
use explain::{EntryList, Workspace};
use halving::WideRecording;
use lte_args::{Lists, Output};
use lte_types::{Carrier, Hit};
use report_json::{SupportedList, json_of_evidence, json_of_supported};
use report_text::{text_of_evidence, text_of_ruled};
use sample_file::Recording;
use std::alloc::{AllocError, Global};
use wide_list::{WideWork, inform_with_blocks};

// Returns the output of `evidence`: the evidence for each cell in `lists`.
pub(crate) fn evidence_report(
    alloc: Global,
    lists: Lists,
    output: Output,
    signal: &Signal,
) -> Result<String, AllocError>
    requires valid { IsRecording signal.now.narrow }
    requires converted { IsConverted signal.now }
    ensures { IfOk result (λ text. IsEvidence lists output signal.now (string_bytes text)) }
{
    match lists {
        Lists::Of(carrier) => evidence_of(alloc, carrier, output, signal),
        Lists::All => evidence_of_all(alloc, output, signal),
    }
}

// ---- one transmission scheme

// Returns the report on the evidence for each listed cell, as text or JSON.
fn evidence_of(
    alloc: Global,
    carrier: Carrier,
    output: Output,
    signal: &Signal,
) -> Result<String, AllocError>
    requires valid { IsRecording signal.now.narrow }
    requires converted { IsConverted signal.now }
    ensures { IfOk result (λ text. IsEvidenceOf carrier output signal.now (string_bytes text)) }
{
    let mut work = Workspace::new(alloc)?;
    match output {
        Output::Text => evidence_text(alloc, carrier, &signal.narrow, None, &mut work),
        Output::Json => line_of(evidence_json(alloc, carrier, signal, &mut work)?),
    }
}

// Returns the evidence for each listed cell as lines of text. `hits` are the recording's PSS detections, if already
// computed.
fn evidence_text(
    alloc: Global,
    carrier: Carrier,
    recording: &Recording,
    hits: Option<&[Hit]>,
    work: &mut Workspace,
) -> Result<String, AllocError>
    requires { IfSome hits (λ hits. hits.now ≡ all_hits recording.now) }
    ensures { IfOk result (λ text. IsEvidenceText carrier recording.now (string_bytes text)) }
{
    let mut list = EntryList::new(alloc)?;
    read_list_by(recording, carrier, hits, work, &mut list);
    let measured = evidence_of_list(alloc, recording, carrier, list.slice(), work.readings())?;
    text_of_evidence(alloc, &measured)
}

// Returns the evidence for each listed cell as JSON.
fn evidence_json(
    alloc: Global,
    carrier: Carrier,
    signal: &Signal,
    work: &mut Workspace,
) -> Result<String, AllocError>
    requires valid { IsRecording signal.now.narrow }
    requires converted { IsConverted signal.now }
    ensures { IfOk result (λ text. IsEvidenceJson carrier signal.now (string_bytes text)) }
{
    let list = supported_list(alloc, carrier, signal, None, work)?;
    json_of_evidence(alloc, list.supports())
}

// Returns the cell list that `search` writes, with what supports each cell. `hits` are the PSS detections at 1.92 million
// samples per second, if already computed.
fn supported_list(
    alloc: Global,
    carrier: Carrier,
    signal: &Signal,
    hits: Option<&[Hit]>,
    work: &mut Workspace,
) -> Result<SupportedList, AllocError>
    requires valid { IsRecording signal.now.narrow }
    requires converted { IsConverted signal.now }
    requires hits { IfSome hits (λ hits. hits.now ≡ all_hits signal.now.narrow) }
    ensures { IfOk result (IsSupportedAt carrier signal.now) }
{
    let (list, supports) = supported_narrow(alloc, carrier, &signal.narrow, hits, work)?;
    match &signal.wide {
        Some(wide) => supported_wide(alloc, carrier, wide, list, supports),
        None => Ok(SupportedList::new(list, supports)),
    }
}

// Returns the cell list at 1.92 million samples per second, with the measurements of each cell and its slot and the bits
// in the cell's blocks. `hits` are the recording's PSS detections, if already computed.
fn supported_narrow(
    alloc: Global,
    carrier: Carrier,
    recording: &Recording,
    hits: Option<&[Hit]>,
    work: &mut Workspace,
) -> Result<(EntryList, Vec<Support>), AllocError>
    requires { IfSome hits (λ hits. hits.now ≡ all_hits recording.now) }
    ensures { IfOk result (λ found.
        IsSupportedList carrier recording.now (record { entries = found.0; shown = found.1.items })) }
{
    let mut list = EntryList::new(alloc)?;
    read_list_by(recording, carrier, hits, work, &mut list);
    let supports = support_of_list(alloc, recording, carrier, list.slice(), work.readings())?;
    Ok((list, supports))
}

// Returns the cell list of a wide recording with what supports each cell, from that at 1.92 million samples per second.
fn supported_wide(
    alloc: Global,
    carrier: Carrier,
    wide: &WideRecording,
    mut list: EntryList,
    mut supports: Vec<Support>,
) -> Result<SupportedList, AllocError>
    requires valid { IsRecording (narrowed wide.now) }
    requires narrow { IsSupportedList carrier (narrowed wide.now) (record { entries = list; shown = supports.items }) }
    ensures { IfOk result (IsWideSupportedList carrier wide.now) }
{
    let mut work = WideWork::new(alloc)?;
    let blocks = inform_with_blocks(alloc, wide, carrier, &mut list, &mut work)?;
    set_blocks(&mut supports, blocks);
    Ok(SupportedList::new(list, supports))
}

// ---- all transmission schemes, from one search for PSS detections

// Returns the report on the evidence for each cell in every list, as text or JSON.
fn evidence_of_all(alloc: Global, output: Output, signal: &Signal) -> Result<String, AllocError>
    requires valid { IsRecording signal.now.narrow }
    requires converted { IsConverted signal.now }
    ensures { IfOk result (λ text. IsEvidenceOfAll output signal.now (string_bytes text)) }
{
    let hits = hits_of(alloc, &signal.narrow)?;
    match output {
        Output::Text => text_of_each(alloc, &signal.narrow, hits.slice()),
        Output::Json => line_of(json_of_each(alloc, signal, hits.slice())?),
    }
}

// Returns the evidence for every list as lines of text.
fn text_of_each(alloc: Global, recording: &Recording, hits: &[Hit]) -> Result<String, AllocError>
    requires { hits.now ≡ all_hits recording.now }
    ensures { IfOk result (λ text. IsEvidenceTextOfAll recording.now (string_bytes text)) }
{
    let texts = evidence_texts(alloc, recording, hits)?;
    text_of_ruled(alloc, &texts)
}

// Returns the text of the evidence for every list, in the order of `Carrier::ALL`.
fn evidence_texts(
    alloc: Global,
    recording: &Recording,
    hits: &[Hit],
) -> Result<Vec<String>, AllocError>
    requires { hits.now ≡ all_hits recording.now }
    ensures { IfOk result (λ texts.
        AllZip (λ carrier text. IsEvidenceText carrier recording.now (string_bytes text)) carriers texts.items) }
{
    let mut work = Workspace::new(alloc)?;
    let mut texts = Vec::new(alloc);
    for carrier in &Carrier::ALL {
        let text = evidence_text(alloc, *carrier, recording, Some(hits), &mut work)?;
        texts.push(text)?;
    }
    Ok(texts)
}

// Returns the cells in every list, each with its evidence, as JSON.
fn json_of_each(alloc: Global, signal: &Signal, hits: &[Hit]) -> Result<String, AllocError>
    requires valid { IsRecording signal.now.narrow }
    requires converted { IsConverted signal.now }
    requires hits { hits.now ≡ all_hits signal.now.narrow }
    ensures { IfOk result (λ text. IsEvidenceJsonOfAll signal.now (string_bytes text)) }
{
    let lists = supported_lists(alloc, signal, hits)?;
    json_of_supported(alloc, &lists)
}

// Returns every list with its evidence, in the order of `Carrier::ALL`.
fn supported_lists(
    alloc: Global,
    signal: &Signal,
    hits: &[Hit],
) -> Result<Vec<SupportedList>, AllocError>
    requires valid { IsRecording signal.now.narrow }
    requires converted { IsConverted signal.now }
    requires hits { hits.now ≡ all_hits signal.now.narrow }
    ensures { IfOk result (λ lists. AllZip (λ carrier. IsSupportedAt carrier signal.now) carriers lists.items) }
{
    let mut work = Workspace::new(alloc)?;
    let mut lists = Vec::new(alloc);
    for carrier in &Carrier::ALL {
        let list = supported_list(alloc, *carrier, signal, Some(hits), &mut work)?;
        lists.push(list)?;
    }
    Ok(lists)
}

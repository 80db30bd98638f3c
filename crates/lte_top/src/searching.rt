//! A recording's cell lists under every rule.

ghost use Rattle.std.specs.Prelude.{◌≡◌, IfOk, IfSome, List, OnOk, length, map, string_bytes};
ghost use Rattle.std.specs.List.{AllZip};
ghost use Rattle.halving.specs.Wide.{narrowed};
ghost use Rattle.lte_types.specs.Carrier.{carriers};
ghost use Rattle.sample_file.specs.Recording.{IsRecording};
ghost use Rattle.pss_search.specs.Hits.{hits_of as all_hits};
ghost use Rattle.explain.specs.Readings.{IsReadingFor};
ghost use Rattle.evidence.specs.Receivers.{receiver_of};
ghost use Rattle.lte_top.specs.Searching.{IsWideListOf, IsListOf, IsListAt, IsListText, IsTextOfAll, IsCancelled, IsSearch};
ghost use Rattle.lte_top.specs.Signals.{IsConverted};
ghost use Rattle.lte_top.specs.Searching.{list_text as text_of, lists_text as texts_of};

use crate::reading::Signal;
use crate::reporting::{hits_of, line_of};
use clean_air::explain_clean_by;
use explain::{EntryList, OnePort, Workspace};
use four_ports::FourPorts;
use halving::WideRecording;
use long_prefix::ExtendedPrefix;
use lte_args::{Output, Rule};
use lte_types::{Carrier, Entry, Hit};
use report_json::{cancel_json, json, json_of_all};
use report_text::{cancel_text, text, text_of_all};
use sample_file::Recording;
use std::alloc::{AllocError, Global};
use two_ports::TwoPorts;
use wide_list::{WideWork, inform};

// Returns the output of `search`: a recording's cell list or lists under `rule`.
pub(crate) fn search_text(
    alloc: Global,
    rule: Rule,
    output: Output,
    signal: &Signal,
) -> Result<String, AllocError>
    requires valid { IsRecording signal.now.narrow }
    requires converted { IsConverted signal.now }
    ensures { IfOk result (λ text. IsSearch rule output signal.now (string_bytes text)) }
{
    match rule {
        Rule::Of(carrier) => text_of_carrier(alloc, carrier, output, signal),
        Rule::Cancel => text_of_rounds(alloc, output, &signal.narrow),
        Rule::All => text_of_each(alloc, output, signal),
    }
}

// ---- one transmission scheme

// Returns the text of the cell list for one transmission scheme.
fn text_of_carrier(
    alloc: Global,
    carrier: Carrier,
    output: Output,
    signal: &Signal,
) -> Result<String, AllocError>
    requires valid { IsRecording signal.now.narrow }
    requires converted { IsConverted signal.now }
    ensures { IfOk result (λ text. IsListText carrier output signal.now (string_bytes text)) }
{
    let mut list = list_of(alloc, carrier, &signal.narrow)?;
    inform_list(alloc, carrier, signal, &mut list)?;
    list_text(alloc, output, list.slice())
}

// Changes the list of a signal at 1.92 million samples per second to the one that `search` writes: with SIB1 from the
// samples at the given rate, if there are any.
fn inform_list(
    alloc: Global,
    carrier: Carrier,
    signal: &Signal,
    list: &mut EntryList,
) -> Result<(), AllocError>
    requires valid { IsRecording signal.now.narrow }
    requires converted { IsConverted signal.now }
    requires listed { IsListOf carrier signal.now.narrow list.old }
    ensures { OnOk result (IsListAt carrier signal.now list.new) }
{
    match &signal.wide {
        Some(wide) => inform_wide(alloc, carrier, wide, list),
        None => Ok(()),
    }
}

// Changes the list of a wide recording at 1.92 million samples per second to that of the wide recording.
fn inform_wide(
    alloc: Global,
    carrier: Carrier,
    wide: &WideRecording,
    list: &mut EntryList,
) -> Result<(), AllocError>
    requires valid { IsRecording (narrowed wide.now) }
    requires listed { IsListOf carrier (narrowed wide.now) list.old }
    ensures { OnOk result (IsWideListOf carrier wide.now list.new) }
{
    let mut work = WideWork::new(alloc)?;
    inform(alloc, wide, carrier, list, &mut work)
}

// Returns a cell list's text.
fn list_text(alloc: Global, output: Output, list: &[Entry]) -> Result<String, AllocError>
    ensures { IfOk result (λ text. string_bytes text ≡ text_of output list.now) }
{
    match output {
        Output::Text => text(alloc, list),
        Output::Json => line_of(json(alloc, list)?),
    }
}

// Returns the cell list for one transmission scheme.
pub(crate) fn list_of(
    alloc: Global,
    carrier: Carrier,
    recording: &Recording,
) -> Result<EntryList, AllocError>
    ensures { IfOk result (IsListOf carrier recording.now) }
{
    let (mut work, mut list) = room_for_list(alloc)?;
    read_list(recording, carrier, &mut work, &mut list);
    Ok(list)
}

// Allocates a cell list and the memory to search for it.
pub(crate) fn room_for_list(alloc: Global) -> Result<(Workspace, EntryList), AllocError> {
    let work = Workspace::new(alloc)?;
    let list = EntryList::new(alloc)?;
    Ok((work, list))
}

// Lists the cells with one transmission scheme, and leaves a reading (how the cell was decoded) of each entry in
// `work`.
pub(crate) fn read_list(
    recording: &Recording,
    carrier: Carrier,
    work: &mut Workspace,
    list: &mut EntryList,
)
    ensures list { IsListOf carrier recording.now list.new }
    ensures readings { AllZip (IsReadingFor (receiver_of carrier) recording.now) list.new work.new }
{
    read_list_by(recording, carrier, None, work, list);
}

// Lists the cells as `read_list` does, with the receiver for `carrier`, which is chosen only here. `hits` are the
// recording's PSS detections, if already computed.
pub(crate) fn read_list_by(
    recording: &Recording,
    carrier: Carrier,
    hits: Option<&[Hit]>,
    work: &mut Workspace,
    list: &mut EntryList,
)
    requires { IfSome hits (λ hits. hits.now ≡ all_hits recording.now) }
    ensures list { IsListOf carrier recording.now list.new }
    ensures readings { AllZip (IsReadingFor (receiver_of carrier) recording.now) list.new work.new }
{
    match carrier {
        Carrier::OnePort => explain_clean_by(&OnePort, recording, hits, work, list),
        Carrier::TwoPorts => explain_clean_by(&TwoPorts, recording, hits, work, list),
        Carrier::LongPrefix => explain_clean_by(&ExtendedPrefix, recording, hits, work, list),
        Carrier::FourPorts => explain_clean_by(&FourPorts, recording, hits, work, list),
    }
}

// ---- all transmission schemes, and cancellation

// Returns the text of the cell lists for every transmission scheme.
fn text_of_each(alloc: Global, output: Output, signal: &Signal) -> Result<String, AllocError>
    requires valid { IsRecording signal.now.narrow }
    requires converted { IsConverted signal.now }
    ensures { IfOk result (λ text. IsTextOfAll output signal.now (string_bytes text)) }
{
    let lists = lists_of(alloc, signal)?;
    lists_text(alloc, output, &lists)
}

// Returns the cell lists for every transmission scheme, in the order of `Carrier::ALL`.
fn lists_of(alloc: Global, signal: &Signal) -> Result<Vec<EntryList>, AllocError>
    requires valid { IsRecording signal.now.narrow }
    requires converted { IsConverted signal.now }
    ensures { IfOk result (λ lists. AllZip (λ carrier. IsListAt carrier signal.now) carriers lists.items) }
{
    let found = hits_of(alloc, &signal.narrow)?;
    let hits = found.slice();
    let mut work = Workspace::new(alloc)?;
    let mut lists = Vec::new(alloc);
    for carrier in &Carrier::ALL {
        lists.push(list_among(alloc, *carrier, signal, hits, &mut work)?)?;
    }
    Ok(lists)
}

// Returns the cell list for one transmission scheme, from PSS detections already computed.
fn list_among(
    alloc: Global,
    carrier: Carrier,
    signal: &Signal,
    hits: &[Hit],
    work: &mut Workspace,
) -> Result<EntryList, AllocError>
    requires valid { IsRecording signal.now.narrow }
    requires converted { IsConverted signal.now }
    requires hits { hits.now ≡ all_hits signal.now.narrow }
    ensures { IfOk result (IsListAt carrier signal.now) }
{
    let mut list = EntryList::new(alloc)?;
    read_list_by(&signal.narrow, carrier, Some(hits), work, &mut list);
    inform_list(alloc, carrier, signal, &mut list)?;
    Ok(list)
}

// Returns the text of the cell lists for every transmission scheme, in the order of `Carrier::ALL`.
fn lists_text(alloc: Global, output: Output, lists: &[EntryList]) -> Result<String, AllocError>
    requires { length lists.now ≡ length carriers }
    ensures { (of : Carrier → List Entry) → lists.now ≡ map of carriers →
        IfOk result (λ text. string_bytes text ≡ texts_of output of) }
{
    match output {
        Output::Text => text_of_all(alloc, lists),
        Output::Json => line_of(json_of_all(alloc, lists)?),
    }
}

// Returns the text of the cell list, and of each round of cancellation with the list of its residual.
fn text_of_rounds(
    alloc: Global,
    output: Output,
    recording: &Recording,
) -> Result<String, AllocError>
    requires { IsRecording recording.now }
    ensures { IfOk result (λ text. IsCancelled output recording.now (string_bytes text)) }
{
    match output {
        Output::Text => cancel_text(alloc, recording),
        Output::Json => line_of(cancel_json(alloc, recording)?),
    }
}

//! Reports about a recording.

ghost use Rattle.std.specs.Prelude.{◌≡◌, ◌≤◌, All, IfOk, IfErr, string_bytes};
ghost use Rattle.cs_outside.specs.Outside.{SourceState};
ghost use Rattle.sample_file.specs.Recording.{IsRecording};
ghost use Rattle.pss_search.specs.Hits.{IsInSpan, IsSmallHit, hits_of as all_hits};
ghost use Rattle.lte_top.specs.Forms.{recording};
ghost use Rattle.lte_top.specs.Line.{as_line};
ghost use Rattle.lte_top.specs.Reports.{IsHits, IsIds, IsReport, IsTellReport};
ghost use Rattle.lte_top.specs.Run.{Cause, HasOutput};
ghost use Rattle.lte_top.specs.Signals.{IsConverted};
ghost use Rattle.lte_args.specs.declared.form.Form.TheVariants.{Report as Reports};

use crate::detecting::deep_report;
use crate::reading::{Signal, signal_for};
use crate::reasoning::why_text;
use crate::searching::search_text;
use crate::status::Status;
use crate::supporting::evidence_report;
use cs_outside::Source;
use hit_details::{identified_hits, measured_hits, measured_ids};
use lte_args::{Output, RecordingForm, Report};
use pss_search::{HitList, hits};
use report_json::{json_of_hits, json_of_ids, tell_json};
use report_text::{tell_text, text_of_hits, text_of_ids};
use sample_file::Recording;
use std::alloc::{AllocError, Global};

// Reads a recording to the end of its source, and returns the text of a report about it.
#[inline(never)]
pub(crate) fn report_text<S: Source>(
    alloc: Global,
    report: Report,
    output: Output,
    form: RecordingForm,
    source: &mut S,
) -> Result<String, Status>
    ensures ok { IfOk result (λ text.
        HasOutput (Reports report output form) (string_bytes text) (S.state source.old) (S.state source.new)) }
    ensures err { IfErr result (Cause (recording form) (S.state source.old) (S.state source.new)) }
    ensures never_falls { (S.state source.old).faults ≤ (S.state source.new).faults }
{
    let signal = signal_for(alloc, &report, form, source)?;
    let text = text_of_report(alloc, report, output, &signal)?;
    Ok(text)
}

// Returns the text of a report about a recording.
fn text_of_report(
    alloc: Global,
    report: Report,
    output: Output,
    signal: &Signal,
) -> Result<String, AllocError>
    requires valid { IsRecording signal.now.narrow }
    requires converted { IsConverted signal.now }
    ensures { IfOk result (λ text. IsReport report output signal.now (string_bytes text)) }
{
    match report {
        Report::Hits => hits_text(alloc, output, &signal.narrow),
        Report::Ids => ids_text(alloc, output, &signal.narrow),
        Report::Deep(span) => deep_report(alloc, span, output, &signal.narrow),
        Report::Search(rule) => search_text(alloc, rule, output, signal),
        Report::Evidence(lists) => evidence_report(alloc, lists, output, signal),
        Report::Tell => offset_text(alloc, output, &signal.narrow),
        Report::Why(id, carrier) => why_text(alloc, id, carrier, output, &signal.narrow),
    }
}

// ---- hits

// Returns the report on a recording's PSS detections.
fn hits_text(alloc: Global, output: Output, recording: &Recording) -> Result<String, AllocError>
    requires { IsRecording recording.now }
    ensures { IfOk result (λ text. IsHits output recording.now (string_bytes text)) }
{
    let list = hits_of(alloc, recording)?;
    match output {
        Output::Text => text_of_hits(alloc, list.slice()),
        Output::Json => {
            let hits = measured_hits(alloc, list.slice())?;
            line_of(json_of_hits(alloc, &hits)?)
        }
    }
}

// Returns the report on a recording's PSS detections and their cell identities.
fn ids_text(alloc: Global, output: Output, recording: &Recording) -> Result<String, AllocError>
    requires { IsRecording recording.now }
    ensures { IfOk result (λ text. IsIds output recording.now (string_bytes text)) }
{
    let list = hits_of(alloc, recording)?;
    match output {
        Output::Text => {
            let found = identified_hits(alloc, recording, list.slice())?;
            text_of_ids(alloc, &found)
        }
        Output::Json => {
            let found = measured_ids(alloc, recording, list.slice())?;
            line_of(json_of_ids(alloc, &found)?)
        }
    }
}

// Returns a recording's PSS detections.
pub(crate) fn hits_of(alloc: Global, recording: &Recording) -> Result<HitList, AllocError>
    requires { IsRecording recording.now }
    ensures list { IfOk result (λ list. list ≡ all_hits recording.now) }
    ensures span { IfOk result (λ list. All IsInSpan list) }
    ensures small { IfOk result (λ list. All IsSmallHit list) }
{
    let mut list = HitList::new(alloc)?;
    hits(recording, &mut list);
    Ok(list)
}

// ---- the frequency offset

// Returns the report on a recording's frequency offset.
fn offset_text(alloc: Global, output: Output, recording: &Recording) -> Result<String, AllocError>
    ensures { IfOk result (λ text. IsTellReport output recording.now (string_bytes text)) }
{
    match output {
        Output::Text => tell_text(alloc, recording),
        Output::Json => line_of(tell_json(alloc, recording)?),
    }
}

// ---- lines

// Returns `text` followed by a line feed.
pub(crate) fn line_of(text: String) -> Result<String, AllocError>
    ensures { IfOk result (λ line. string_bytes line ≡ as_line (string_bytes text)) }
{
    let mut line = text;
    line.push_str("\n")?;
    Ok(line)
}

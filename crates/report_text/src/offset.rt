//! The text of the frequency offset estimate.

ghost use Rattle.std.specs.Prelude.{◌≡◌, IfOk, string_bytes};
ghost use Rattle.report_text.specs.Hits.{hits_head};
ghost use Rattle.report_text.specs.Lines.{head_line};
ghost use Rattle.report_text.specs.Offset.{IsTellText, offset_text, turn_line};

use frequency_offset::{OffsetEstimate, tell};
use sample_file::Recording;
use std::alloc::{AllocError, Global};
use std::fmt::Write;

/// Returns the text of a recording's frequency offset estimate: the hit count at the coarse offset, the offset, and the
/// cell count after correction; without an estimate, `hits 0`. Fails only if an allocation fails. (own)
pub fn tell_text(alloc: Global, recording: &Recording) -> Result<String, AllocError>
    ensures { IfOk result (λ text. IsTellText recording.now (string_bytes text)) }
{
    let estimate = tell(alloc, recording)?;
    text_of(alloc, &estimate)
}

// Returns the text of an estimate, or `hits 0` without one.
fn text_of(alloc: Global, estimate: &Option<OffsetEstimate>) -> Result<String, AllocError>
    ensures { IfOk result (λ text. string_bytes text ≡ offset_text estimate.now) }
{
    match estimate {
        Some(estimate) => text_of_turn(alloc, estimate),
        None => line_of_hits(alloc, 0),
    }
}

// Returns the estimate's lines: hits, offset, cells.
fn text_of_turn(alloc: Global, estimate: &OffsetEstimate) -> Result<String, AllocError>
    ensures { IfOk result (λ text. string_bytes text ≡ offset_text (Some estimate.now)) }
{
    let mut text = line_of_hits(alloc, estimate.hits)?;
    let turn = line_of_turn(alloc, estimate)?;
    let cells = line_of_cells(alloc, estimate.cells)?;
    text.push_str(&turn)?;
    text.push_str(&cells)?;
    Ok(text)
}

fn line_of_hits(alloc: Global, hits: usize) -> Result<String, AllocError>
    ensures { IfOk result (λ line. string_bytes line ≡ hits_head hits) }
{
    format!(in alloc; "hits {hits}\n")
}

fn line_of_turn(alloc: Global, estimate: &OffsetEstimate) -> Result<String, AllocError>
    ensures { IfOk result (λ line. string_bytes line ≡ turn_line estimate.now.turn) }
{
    format!(in alloc; "turn {}\n", estimate.turn)
}

fn line_of_cells(alloc: Global, cells: usize) -> Result<String, AllocError>
    ensures { IfOk result (λ line. string_bytes line ≡ head_line cells) }
{
    format!(in alloc; "cells {cells}\n")
}

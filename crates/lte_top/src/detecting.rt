//! The cells that are detected over many half-frames of a recording.

ghost use Rattle.std.specs.Prelude.{◌≡◌, ◌≤◌, IfOk, length, string_bytes, take};
ghost use Rattle.accumulated_pss.specs.Sums.{half_frames_in};
ghost use Rattle.lte_types.specs.Numerology.{least_samples, most_samples};
ghost use Rattle.lte_top.specs.Deep.{IsDeep, deep_text, used_length as used_of};

use crate::reporting::line_of;
use accumulated_list::{DetectedCell, list_accumulated};
use accumulated_pss::half_frames;
use accumulated_report::{json_of_accumulated, text_of_accumulated};
use explain::DECIDING_SAMPLES;
use lte_args::{Output, Span};
use lte_types::MOST_SAMPLES;
use sample_file::Recording;
use std::alloc::{AllocError, Global};

// The complete half-frames of 170 ms.
const FIRST_HALF_FRAMES: usize = 33;

// Returns the report on the cells that are detected over the half-frames of the samples that `span` selects.
pub(crate) fn deep_report(
    alloc: Global,
    span: Span,
    output: Output,
    recording: &Recording,
) -> Result<String, AllocError>
    ensures { IfOk result (λ text. IsDeep span output recording.now (string_bytes text)) }
{
    let halves = half_frames_of(recording, span);
    let cells = list_accumulated(alloc, recording, halves)?;
    written(alloc, output, halves, &cells)
}

// Returns the number of leading samples that `span` selects.
pub(crate) fn used_length(span: Span) -> usize
    ensures value { result ≡ used_of span }
    ensures some { least_samples ≤ result }
    ensures few { result ≤ most_samples }
{
    match span {
        Span::First => DECIDING_SAMPLES,
        Span::All => MOST_SAMPLES,
    }
}

// Returns the number of complete half-frames in the samples that `span` selects.
fn half_frames_of(recording: &Recording, span: Span) -> usize
    ensures value { result ≡ half_frames_in (length (take (used_of span) recording.now)) }
    ensures some { 1 ≤ result }
    ensures covered { result ≤ half_frames_in (length recording.now) }
{
    let all = half_frames(recording);
    match span {
        Span::First => all.min(FIRST_HALF_FRAMES),
        Span::All => all,
    }
}

// Returns the cells detected over `halves` half-frames as text or as a line of JSON.
fn written(
    alloc: Global,
    output: Output,
    halves: usize,
    cells: &[DetectedCell],
) -> Result<String, AllocError>
    ensures { IfOk result (λ text. string_bytes text ≡ deep_text output halves cells.now) }
{
    match output {
        Output::Text => text_of_accumulated(alloc, halves, cells),
        Output::Json => line_of(json_of_accumulated(alloc, halves, cells)?),
    }
}

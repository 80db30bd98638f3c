//! Cells that are detected over many half-frames as text.

ghost use Rattle.std.specs.Prelude.{◌≡◌, ◌++◌, IfOk, OnOk, string_bytes};
ghost use Rattle.std.specs.List.{flat_map};
ghost use Rattle.accumulated_report.specs.Text.{place_part as place_of};
ghost use Rattle.accumulated_report.specs.Text.{cell_line as line_of, accumulated_head as head_of, accumulated_text};

use crate::fields::cell_fields;
use accumulated_list::DetectedCell;
use report_parts::line_of_fields;
use std::alloc::{AllocError, Global};
use std::fmt::Write;

/// Returns the text of `cells` detected over `halves` half-frames: a line with both numbers, then a line for each cell.
/// Fails only if an allocation fails. (own)
pub fn text_of_accumulated(
    alloc: Global,
    halves: usize,
    cells: &[DetectedCell],
) -> Result<String, AllocError>
    ensures { IfOk result (λ text. string_bytes text ≡ accumulated_text halves cells.now) }
{
    let mut text = accumulated_head(alloc, cells.len(), halves)?;
    add_lines(alloc, cells, &mut text)?;
    Ok(text)
}

// Returns the line with the number of cells and of half-frames.
fn accumulated_head(alloc: Global, count: usize, halves: usize) -> Result<String, AllocError>
    ensures { IfOk result (λ line. string_bytes line ≡ head_of count halves) }
{
    format!(in alloc; "deep {count} of {halves}\n")
}

// Appends the line for each cell.
fn add_lines(alloc: Global, cells: &[DetectedCell], text: &mut String) -> Result<(), AllocError>
    ensures { OnOk result (string_bytes text.new ≡ string_bytes text.old ++ flat_map line_of cells.now) }
{
    for cell in cells {
        let line = cell_line(alloc, cell)?;
        text.push_str(&line)?;
    }
    Ok(())
}

// Returns the line for a cell.
fn cell_line(alloc: Global, cell: &DetectedCell) -> Result<String, AllocError>
    ensures { IfOk result (λ line. string_bytes line ≡ line_of cell.now) }
{
    let id = cell.id.value();
    let subframe = cell.half.subframe();
    let place = place_part(alloc, cell.position, id, subframe, cell.start)?;
    let fields = cell_fields(cell);
    let all = &fields[..];
    line_of_fields(alloc, &place, &all[4..])
}

// Returns the start of a cell's line: position, cell identity, subframe and frame start.
fn place_part(
    alloc: Global,
    t: u32,
    id: u16,
    subframe: u8,
    start: u32,
) -> Result<String, AllocError>
    ensures { IfOk result (λ part. string_bytes part ≡ place_of t id subframe start) }
{
    format!(in alloc; "{t} {id} {subframe} {start}")
}

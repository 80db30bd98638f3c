//! The list of cells.

ghost use Rattle.std.specs.Prelude.{◌≡◌, ◌≤◌, ◌++◌, [], All, IfOk, length};
ghost use Rattle.std.specs.List.{cons_option};
ghost use Rattle.accumulated_pss.specs.Sums.{IsPosition, half_frames_in, row_of, rows_of};
ghost use Rattle.accumulated_list.specs.Cells.{IsList};
ghost use Rattle.accumulated_list.specs.Steps.{all_listed as all_listed_of, detected_cells as detected_cells_of, listed_cells};

use crate::cell::{DetectedCell, cell_found};
use crate::echoes::add_listed;
use accumulated_pss::{Accumulated, accumulate, candidates};
use sample_file::Recording;
use std::alloc::{AllocError, Global};

/// Lists the cells detected in the first `halves` half-frames, by position, then primary signal, except those that a
/// detected cell with their identity precedes within 137 positions. Fails only if an allocation fails. (own)
pub fn list_accumulated(
    alloc: Global,
    recording: &Recording,
    halves: usize,
) -> Result<Vec<DetectedCell>, AllocError>
    requires some { 1 ≤ halves }
    requires covered { halves ≤ half_frames_in (length recording.now) }
    ensures list { IfOk result (λ list. IsList recording.now halves list.items) }
    ensures few { IfOk result (λ list. length list.items ≤ 192) }
{
    let count = recording.len();
    prove!(count <= 1_920_000);
    let mut list = all_listed(alloc, recording, halves)?;
    list.sort_by_key(|cell| 3 * cell.position as u64 + cell.n2 as u64)?;
    Ok(list)
}

// Returns the listed cells by primary signal.
fn all_listed(
    alloc: Global,
    recording: &Recording,
    halves: usize,
) -> Result<Vec<DetectedCell>, AllocError>
    requires some { 1 ≤ halves }
    requires few { halves ≤ 199 }
    requires covered { halves ≤ half_frames_in (length recording.now) }
    ensures { IfOk result (λ list. list.items ≡ all_listed_of recording.now halves) }
{
    let sums = accumulate(alloc, recording, halves)?;
    let mut list = Vec::new(alloc);
    add_cells(alloc, &mut list, recording, halves, &sums, 0)?;
    add_cells(alloc, &mut list, recording, halves, &sums, 1)?;
    add_cells(alloc, &mut list, recording, halves, &sums, 2)?;
    Ok(list)
}

// Appends the listed cells of the primary signal `n2`.
fn add_cells(
    alloc: Global,
    list: &mut Vec<DetectedCell>,
    recording: &Recording,
    halves: usize,
    sums: &Accumulated,
    n2: u8,
) -> Result<(), AllocError>
    requires some { 1 ≤ halves }
    requires few { halves ≤ 199 }
    requires covered { halves ≤ half_frames_in (length recording.now) }
    requires sums { sums.now ≡ rows_of recording.now halves }
    requires member { n2 ≤ 2 }
    ensures { IfOk result (λ _. list.new.items ≡ list.old.items ++ listed_cells recording.now halves n2) }
{
    let cells = detected_cells(alloc, recording, halves, sums, n2)?;
    add_listed(list, sums, n2, &cells)?;
    Ok(())
}

// Returns the cells that are detected at the candidates of the primary signal `n2`, in ascending order of position.
fn detected_cells(
    alloc: Global,
    recording: &Recording,
    halves: usize,
    sums: &Accumulated,
    n2: u8,
) -> Result<Vec<DetectedCell>, AllocError>
    requires some { 1 ≤ halves }
    requires few { halves ≤ 199 }
    requires covered { halves ≤ half_frames_in (length recording.now) }
    requires sums { sums.now ≡ rows_of recording.now halves }
    requires member { n2 ≤ 2 }
    ensures cells { IfOk result (λ list. list.items ≡ detected_cells_of recording.now halves n2) }
    ensures positions { IfOk result (λ list. All (λ cell. IsPosition cell.position) list.items) }
{
    let positions = candidates(alloc, sums, n2)?;
    let mut list = Vec::new(alloc);
    for k in 0..positions.len() {
        add(
            &mut list,
            cell_found(recording, halves, sums, n2, positions[k]),
        )?;
    }
    Ok(list)
}

// Appends a cell, if there is one.
fn add(list: &mut Vec<DetectedCell>, cell: Option<DetectedCell>) -> Result<(), AllocError>
    ensures { IfOk result (λ _. list.new.items ≡ list.old.items ++ cons_option cell []) }
{
    if let Some(found) = cell {
        list.push(found)?;
    }
    Ok(())
}

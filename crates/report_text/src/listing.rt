//! The text of the cell list.

ghost use Rattle.std.specs.Prelude.{◌≡◌, ℕ, List, IfOk, string_bytes};
ghost use Rattle.report_text.specs.Lines.{report_text, entry_lines, system_lines as system_lines_of};

use crate::each::{ToLines, add_lines};
use crate::lines::{cell_line, none_line, sib1_lines};
use lte_types::Entry;
use std::alloc::{AllocError, Global};
use std::fmt::Write;

/// Returns the text of a cell list: the number of cells, then each cell's lines with its identity, timing, MIB and
/// SIB1, or why SIB1 is missing. Fails only if an allocation fails. (own)
pub fn text(alloc: Global, entries: &[Entry]) -> Result<String, AllocError>
    ensures { IfOk result (λ text. string_bytes text ≡ report_text entries.now) }
{
    let mut text = format!(in alloc; "cells {}\n", entries.len())?;
    add_lines(alloc, entries, &mut text)?;
    Ok(text)
}

// The lines of a list entry.
impl ToLines for Entry {
    ghost lines_of = { entry_lines };

    fn to_lines(&self, alloc: Global) -> Result<String, AllocError> {
        let mut text = cell_line(alloc, self)?;
        let lines = system_lines(alloc, self)?;
        text.push_str(&lines)?;
        Ok(text)
    }
}

// Returns the lines for a cell's system information, or the line with the reason why there is none.
fn system_lines(alloc: Global, entry: &Entry) -> Result<String, AllocError>
    ensures { IfOk result (λ text. string_bytes text ≡ system_lines_of entry.now.sib1) }
{
    match &entry.sib1 {
        Ok(sib1) => sib1_lines(alloc, sib1),
        Err(reason) => none_line(alloc, *reason),
    }
}

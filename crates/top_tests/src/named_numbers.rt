//! Numbers in a report, looked up by name, so that a report with a further number still passes.

use std::alloc::{AllocError, Global};

// Returns whether `text` has the number `name` with value `value`. The marks appear in front of the name, between name
// and value, and after the value.
fn has_number(
    alloc: Global,
    text: &str,
    name: &str,
    value: &str,
    marks: (&str, &str, &str),
) -> Result<bool, AllocError> {
    let (before, between, after) = marks;
    let piece = format!(in alloc; "{before}{name}{between}{value}{after}")?;
    Ok(text.contains(piece.as_str()))
}

// Returns whether `text` has each of `numbers`, which are names and values by turns.
fn has_each(
    alloc: Global,
    text: &str,
    numbers: &str,
    marks: (&str, &str, &str),
) -> Result<bool, AllocError> {
    let mut all = true;
    for (i, name) in numbers.split(' ').enumerate() {
        if i % 2 == 0 {
            let value = numbers.split(' ').skip(i).nth(1).unwrap_or("");
            all = all && has_number(alloc, text, name, value, marks)?;
        }
    }
    Ok(all)
}

/// Returns whether line `entry`, counted from 0, has each of `numbers`, which are names and values by turns.
pub(crate) fn line_has(
    alloc: Global,
    text: &str,
    entry: usize,
    numbers: &str,
) -> Result<bool, AllocError> {
    let line = text.split('\n').skip(1).nth(entry).unwrap_or("");
    let padded = format!(in alloc; "{line} ")?;
    has_each(alloc, padded.as_str(), numbers, (" ", " ", " "))
}

/// Returns whether the object of the only entry has each of `numbers`, which are names and values by turns.
pub(crate) fn object_has(alloc: Global, json: &str, numbers: &str) -> Result<bool, AllocError> {
    has_each(alloc, json, numbers, ("\"", "\":", ","))
}

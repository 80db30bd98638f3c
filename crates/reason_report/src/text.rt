//! The reasons for a cell identity as text.

ghost use Rattle.std.specs.Prelude.{◌≡◌, ◌++◌, IfOk, OnOk, string_bytes};
ghost use Rattle.std.specs.List.{flat_map};
ghost use Rattle.reason_report.specs.Text.{reason_line as reason_of, reasons_head as head_of, reasons_text};

use crate::fields::{reason_fields, rule_of};
use lte_types::{Carrier, CellId};
use reasons::Reason;
use report_parts::{line_of_fields, rule_word};
use std::alloc::{AllocError, Global};
use std::fmt::Write;

/// Returns the text of the `reasons` why identity `id` is in the list for `carrier`, or is not: a heading, then a line
/// for each reason. Fails only if an allocation fails. (own)
pub fn text_of_reasons(
    alloc: Global,
    id: CellId,
    carrier: Carrier,
    reasons: &[Reason],
) -> Result<String, AllocError>
    ensures { IfOk result (λ text. string_bytes text ≡ reasons_text id carrier reasons.now) }
{
    let mut text = reasons_head(alloc, id.value(), rule_word(carrier), reasons.len())?;
    add_lines(alloc, reasons, &mut text)?;
    Ok(text)
}

fn reasons_head(alloc: Global, id: u16, rule: &str, count: usize) -> Result<String, AllocError>
    ensures { IfOk result (λ line. string_bytes line ≡ head_of id rule.now count) }
{
    format!(in alloc; "why {id} {rule} {count}\n")
}

// Appends the line for each reason.
fn add_lines(alloc: Global, reasons: &[Reason], text: &mut String) -> Result<(), AllocError>
    ensures { OnOk result (string_bytes text.new ≡ string_bytes text.old ++ flat_map reason_of reasons.now) }
{
    for reason in reasons {
        let line = reason_line(alloc, reason)?;
        text.push_str(&line)?;
    }
    Ok(())
}

// Returns the line for a reason.
fn reason_line(alloc: Global, reason: &Reason) -> Result<String, AllocError>
    ensures { IfOk result (λ line. string_bytes line ≡ reason_of reason.now) }
{
    let fields = reason_fields(alloc, reason)?;
    line_of_fields(alloc, rule_of(reason), &fields)
}

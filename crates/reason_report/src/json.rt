//! The reasons for a cell identity as JSON.

ghost use Rattle.std.specs.Prelude.{◌≡◌, IfOk, map, string_bytes};
ghost use Rattle.report_parts.specs.Fields.{list_of};
ghost use Rattle.report_parts.specs.Values.{data_of};
ghost use Rattle.reason_report.specs.Json.{reason_value as reason_of, reasons_json};

use crate::fields::{reason_fields, rule_of};
use lte_types::{Carrier, CellId};
use reasons::Reason;
use report_parts::{Field, Value, json_of_fields, object, rule_word};
use std::alloc::{AllocError, Global};

/// Returns the `reasons` why identity `id` is in the list for `carrier`, or is not, as a JSON object in one line,
/// without a line feed. Fails only if an allocation fails. (own)
pub fn json_of_reasons(
    alloc: Global,
    id: CellId,
    carrier: Carrier,
    reasons: &[Reason],
) -> Result<String, AllocError>
    ensures { IfOk result (λ text. string_bytes text ≡ reasons_json id carrier reasons.now) }
{
    let list = Value::list(alloc, objects_of(alloc, reasons)?)?;
    let fields = [
        Field::natural("identity", id.value() as u64),
        Field::word(alloc, "list", rule_word(carrier))?,
        Field::new("reasons", list),
    ];
    json_of_fields(alloc, &fields)
}

// Returns the JSON object for each reason.
fn objects_of(alloc: Global, reasons: &[Reason]) -> Result<Vec<Value>, AllocError>
    ensures { IfOk result (λ objects. map data_of objects.items ≡ map reason_of reasons.now) }
{
    let mut objects = Vec::new(alloc);
    for reason in reasons {
        objects.push(reason_value(alloc, reason)?)?;
    }
    Ok(objects)
}

// Returns the JSON object for a reason.
fn reason_value(alloc: Global, reason: &Reason) -> Result<Value, AllocError>
    ensures { IfOk result (λ value. data_of value ≡ reason_of reason.now) }
{
    let rule = Field::word(alloc, "rule", rule_of(reason))?;
    let mut fields = reason_fields(alloc, reason)?;
    fields.push(rule)?;
    object(alloc, &fields)
}

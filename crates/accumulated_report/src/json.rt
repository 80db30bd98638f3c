//! Cells that are detected over many half-frames as JSON.

ghost use Rattle.std.specs.Prelude.{◌≡◌, IfOk, map, string_bytes};
ghost use Rattle.report_parts.specs.Fields.{list_of};
ghost use Rattle.report_parts.specs.Values.{data_of};
ghost use Rattle.accumulated_report.specs.Json.{cell_value as cell_of, accumulated_json};

use crate::fields::cell_fields;
use accumulated_list::DetectedCell;
use report_parts::{Field, Value, json_of_fields, object};
use std::alloc::{AllocError, Global};

/// Returns the `cells` detected over `halves` half-frames as a JSON object in one line, without a line feed. Fails only
/// if an allocation fails. (own)
pub fn json_of_accumulated(
    alloc: Global,
    halves: usize,
    cells: &[DetectedCell],
) -> Result<String, AllocError>
    ensures { IfOk result (λ text. string_bytes text ≡ accumulated_json halves cells.now) }
{
    let list = list_value(alloc, cells)?;
    let fields = [
        Field::new("cells", list),
        Field::natural("half_frames", halves as u64),
    ];
    json_of_fields(alloc, &fields)
}

// Returns the JSON array with the object for each cell.
fn list_value(alloc: Global, cells: &[DetectedCell]) -> Result<Value, AllocError>
    ensures { IfOk result (λ value. data_of value ≡ list_of cell_of cells.now) }
{
    let objects = objects_of(alloc, cells)?;
    Value::list(alloc, objects)
}

// Returns the JSON object for each cell.
fn objects_of(alloc: Global, cells: &[DetectedCell]) -> Result<Vec<Value>, AllocError>
    ensures { IfOk result (λ objects. map data_of objects.items ≡ map cell_of cells.now) }
{
    let mut objects = Vec::new(alloc);
    for cell in cells {
        objects.push(object(alloc, &cell_fields(cell))?)?;
    }
    Ok(objects)
}

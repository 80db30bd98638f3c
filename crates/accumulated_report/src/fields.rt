//! The fields of a cell that is detected over many half-frames.

ghost use Rattle.std.specs.Prelude.{◌≡◌};
ghost use Rattle.report_parts.specs.Values.{fields_of};
ghost use Rattle.accumulated_report.specs.Fields.{cell_fields as cell_fields_of};

use accumulated_list::DetectedCell;
use report_parts::Field;

/// Returns a cell's fields, in the order of its line: the first four are without names there.
pub(crate) fn cell_fields(cell: &DetectedCell) -> [Field; 7]
    ensures { fields_of result ≡ cell_fields_of cell.now }
{
    [
        Field::natural("t", cell.position as u64),
        Field::natural("identity", cell.id.value() as u64),
        Field::natural("subframe", cell.half.subframe() as u64),
        Field::natural("at", cell.start as u64),
        Field::natural("matches", cell.matches as u64),
        Field::natural("ratio", cell.ratio as u64),
        Field::natural("power", cell.power),
    ]
}

//! The cell of an entry.

ghost use Rattle.std.specs.Prelude.{◌≡◌, ◌≤◌, ◌↔◌, IfSome, IsSome, is_some};
ghost use Rattle.wide_cell.specs.Cell.{IsPortCount};
ghost use Rattle.wide_list.specs.List.{cell_of as cell_of_entry, is_read_wide};

use lte_types::{Carrier, Entry, Sfn};
use wide_cell::{WideCell, fits_rate};

/// A cell in a recording: its first frame begins at sample `start`, at 1.92 million samples per second, and has the
/// system frame number `sfn`.
#[derive(Clone, Copy, Debug)]
pub struct FoundCell {
    pub cell: WideCell,
    pub start: u32,
    pub sfn: Sfn,
}

/// Returns an entry's cell, if its SIB1 is read from wide samples at this rate.
pub(crate) fn found_in(carrier: Carrier, rate: u8, entry: &Entry) -> Option<FoundCell>
    requires { rate ≤ 4 }
    ensures read { is_some result ≡ is_read_wide carrier rate entry.now }
    ensures found { IfSome result (λ found. found ≡ record {
      cell = cell_of_entry entry.now;
      start = entry.now.start;
      sfn = entry.now.sfn;
    }) }
{
    if entry.sib1.is_ok() || carrier.prefix().is_extended() {
        return None;
    }
    let cell = cell_of(entry)?;
    if fits_rate(&cell, rate) {
        Some(FoundCell {
            cell,
            start: entry.start,
            sfn: entry.sfn,
        })
    } else {
        None
    }
}

// Returns the cell that an entry's MIB describes, or `None` if it does not have one, two or four antenna ports.
fn cell_of(entry: &Entry) -> Option<WideCell>
    ensures valid { IsSome result ↔ IsPortCount entry.now.ports }
    ensures cell { IfSome result (λ cell. cell ≡ cell_of_entry entry.now) }
{
    WideCell::new(
        entry.id,
        entry.ports,
        entry.mib.bandwidth,
        entry.mib.duration,
        entry.mib.resource,
    )
}

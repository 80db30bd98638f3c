// The 24 cells of each bandwidth and port count in `python/lte_reference/wide_rows.py`.
ghost use Rattle.std.specs.Prelude.{◌<◌};

use lte_types::{Bandwidth, CellId, Cfi, Duration, Resource};
use wide_cell::WideCell;

// Returns cell `i`.
pub(crate) fn cell_of(bandwidth: Bandwidth, ports: u8, i: u16) -> Option<WideCell>
    requires { i < 24 }
{
    let id = CellId::new(21 * i + i % 3)?;
    let duration = Duration::from_code((i % 4 / 3) as u8)?;
    let resource = Resource::from_code((i / 4 % 4) as u8)?;
    WideCell::new(id, ports, bandwidth, duration, resource)
}

// Returns the control format indicator of cell `i`.
pub(crate) fn cfi_of(i: u16) -> Option<Cfi>
    requires { i < 24 }
{
    let cfi = if i % 4 == 3 { 3 } else { 1 + i % 3 };
    Cfi::new(cfi as u8)
}

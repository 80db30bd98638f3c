//! The PDSCH of a frame, which carries system information.

ghost use Rattle.std.specs.Prelude.{◌≡◌, ◌≤◌, length, take};
ghost use Rattle.finite.specs.Lists.{values_below};
ghost use Rattle.cell_grid.specs.Shared.{assigned_places, shared_bit, shared_point};

use crate::control::version_of;
use crate::points::fill_points;
use cell_plan::Cell;
use cs_num::Cpx;
use dci::SI_RNTI;
use grid_map::{Place, pdsch_c_init, shared_count, shared_place};
use lte_types::{Carrier, Sfn};
use turbo_code::match_all;

// Returns the 1,224 bits after rate matching of the PDSCH codeword in frame `sfn`.
fn shared_bits(cell: &Cell, sfn: Sfn) -> [bool; 1224]
    ensures { result ≡ values_below 1224 (shared_bit cell.now sfn) }
{
    let mut bits = [false; 1224];
    match_all(cell.coded(), version_of(sfn), &mut bits);
    bits
}

/// Returns the 612 PDSCH symbols for all six resource blocks in frame `sfn`.
pub(crate) fn shared_points(cell: &Cell, sfn: Sfn) -> [Cpx; 612]
    ensures { result ≡ values_below 612 (shared_point cell.now sfn) }
{
    let c_init = pdsch_c_init(cell.id(), 10, SI_RNTI);
    let mut points = [Cpx::ZERO; 612];
    fill_points(c_init, &shared_bits(cell, sfn), &mut points);
    points
}

/// Returns the count of PDSCH resource elements in the assigned resource blocks, and the elements themselves in the
/// first entries.
pub(crate) fn shared_places(cell: &Cell, carrier: Carrier) -> (usize, [Place; 612])
    ensures places { take result.0 result.1 ≡ assigned_places carrier cell.now }
    ensures count { result.0 ≤ 612 }
    ensures whole { length result.1 ≡ 612 }
{
    let assignment = cell.assignment();
    let count = shared_count(carrier, assignment);
    let mut places = [Place { symbol: 0, k: 0 }; 612];
    for i in 0..count {
        places[i] = shared_place(carrier, cell.id(), assignment, i);
    }
    (count, places)
}

//! Data that all frames of a cell share, computed once.

ghost use Rattle.std.specs.Prelude.{◌≡◌, true};
ghost use Rattle.cell_grid.specs.Ports.{has_control};
ghost use Rattle.cell_grid.specs.Grid.{broadcast_places};
ghost use Rattle.cell_grid.specs.Rows.{IsTableOf, IsLayout, IsCarried, AreVersions};

use crate::Port;
use crate::control::{Indicator, control_places, control_points, indicators};
use crate::points::{PlaceTable, table_of};
use crate::shared::{shared_places, shared_points};
use cell_plan::Cell;
use cs_num::Cpx;
use grid_map::{long_places, pbch_places, pcfich_places};
use lte_types::{CellId, Half, Sfn};
use sync_seq::{pss, sss};

/// The parts that are equal in all frames of a cell: the synchronisation signals (SSS in subframes 0 and 5), the
/// channels' resource elements, and the PCFICH symbols of each subframe.
#[derive(Drop)]
pub struct Layout {
    pub(crate) primary: [Cpx; 62],
    pub(crate) zero: [i8; 62],
    pub(crate) five: [i8; 62],
    pub(crate) broadcast: PlaceTable,
    pub(crate) indicator: PlaceTable,
    pub(crate) indicators: [Indicator; 10],
    pub(crate) control: PlaceTable,
    pub(crate) shared: PlaceTable,
}

/// The PDCCH and PDSCH symbols that carry system information in one even-numbered frame.
#[derive(Drop)]
pub struct Carried {
    pub(crate) control: [Cpx; 144],
    pub(crate) shared: [Cpx; 612],
}

/// The PDCCH and PDSCH symbols for system information, one set for each of the four redundancy versions.
#[derive(Drop)]
pub struct Versions {
    first: Carried,
    second: Carried,
    third: Carried,
    fourth: Carried,
}

impl Layout {
    ghost use Rattle.std.specs.Prelude.{ℕ, ◌<◌, length};
    ghost use Rattle.finite.specs.Lists.{values_below};
    ghost use Rattle.cell_plan.specs.declared.cell.CellPlan.{CellPlan as Plan};
    ghost use Rattle.cell_grid.specs.declared.antenna.Port.{Port as Antenna};
    ghost use Rattle.cell_grid.specs.Control.{indicator_point};
    ghost use Rattle.cell_grid.specs.Rows.{IsLayout};

    /// Returns the 16 PCFICH symbols in a subframe.
    pub(crate) fn indicator_of(&self, subframe: u8) -> &[Cpx]
        requires { subframe < 10 }
        ensures points { (port : Antenna) (plan : Plan) → IsLayout port plan self.now →
            result.now ≡ values_below 16 (indicator_point plan subframe) }
        ensures count { length result.now ≡ 16 }
    {
        self.indicators[subframe as usize].slice()
    }
}

// Returns the table of the PBCH resource elements.
fn broadcast_table(id: CellId, port: Port) -> PlaceTable
    ensures { IsTableOf (broadcast_places port id) result }
{
    if port.carrier.prefix().is_extended() {
        table_of(&long_places(id))
    } else {
        table_of(&pbch_places(id))
    }
}

/// Computes the layout of a cell at `port`: the data that all frames share.
pub fn layout_of(cell: &Cell, port: Port) -> Layout
    ensures { IsLayout port cell.now result }
{
    let id = cell.id();
    let n2 = id.n2() as u8;
    let primary = pss(n2);
    let zero = sss(id.n1(), n2, Half::Zero);
    let five = sss(id.n1(), n2, Half::Five);
    let broadcast = broadcast_table(id, port);
    let indicator = table_of(&pcfich_places(id));
    let indicators = indicators(cell);
    let control = table_of(&control_places(cell));
    let (count, places) = shared_places(cell, port.carrier);
    let shared = table_of(&places[..count]);
    Layout {
        primary,
        zero,
        five,
        broadcast,
        indicator,
        indicators,
        control,
        shared,
    }
}

/// Computes the PDCCH and PDSCH symbols in frame `sfn`. All are zero if the port has no control region.
pub fn carried_of(cell: &Cell, port: Port, sfn: Sfn) -> Carried
    ensures { has_control port ≡ true → IsCarried cell.now sfn result }
{
    if port.has_control() {
        Carried {
            control: control_points(cell, sfn),
            shared: shared_points(cell, sfn),
        }
    } else {
        Carried {
            control: [Cpx::ZERO; 144],
            shared: [Cpx::ZERO; 612],
        }
    }
}

/// Computes the PDCCH and PDSCH symbols for each redundancy version. All are zero if the port has no control region.
pub fn versions_of(cell: &Cell, port: Port) -> Versions
    ensures { has_control port ≡ true → AreVersions cell.now result }
{
    Versions {
        first: carried_of(cell, port, Sfn::modulo(0)),
        second: carried_of(cell, port, Sfn::modulo(2)),
        third: carried_of(cell, port, Sfn::modulo(4)),
        fourth: carried_of(cell, port, Sfn::modulo(6)),
    }
}

impl Versions {
    ghost use Rattle.std.specs.Prelude.{ℕ};
    ghost use Rattle.cell_plan.specs.declared.cell.CellPlan.{CellPlan as Plan};
    ghost use Rattle.cell_grid.specs.Rows.{IsCarried, AreVersions};

    /// Returns the PDCCH and PDSCH symbols for even-numbered frame `sfn`, by its redundancy version.
    pub fn of_frame(&self, sfn: Sfn) -> &Carried
        ensures { (plan : Plan) → AreVersions plan self.now → IsCarried plan sfn result.now }
    {
        match sfn.value() % 8 / 2 {
            0 => &self.first,
            1 => &self.second,
            2 => &self.third,
            _ => &self.fourth,
        }
    }
}

//! The layout of an antenna port's pilots in a slot (TS 36.211 section 6.10.1.2).

ghost use Rattle.std.specs.Prelude.{◌≡◌, ◌<◌, ◌≤◌};
ghost use Rattle.wide_slot.specs.Lines.{IsLayout, layout_of as layout_by, lower_layout as lower_by, upper_layout as upper_by, symbol_with, pilot_place};

use crs::{Pattern, first_of_pattern, first_of_upper};
use wide_cell::WideCell;

// The distance between pilots in subcarriers, the number of the last, the first subcarrier, and the symbols: `early`
// for subcarriers with `residue` modulo 6, otherwise `late`.
#[derive(Clone, Copy)]
pub(crate) struct Layout {
    pub step: u8,
    pub last: u16,
    pub first: u8,
    pub residue: u8,
    pub early: u8,
    pub late: u8,
}

impl Layout {
    // Returns the subcarrier of pilot `i`.
    pub(crate) fn subcarrier(&self, i: u16) -> usize
        ensures { result ≡ pilot_place self.now i }
    {
        self.first as usize + self.step as usize * i as usize
    }

    // Returns the symbol with the pilot at subcarrier `k`.
    pub(crate) fn symbol_at(&self, k: usize) -> u8
        ensures { result ≡ symbol_with self.now k }
    {
        if k % 6 == self.residue as usize {
            self.early
        } else {
            self.late
        }
    }
}

// Returns the layout of an antenna port in a slot.
pub(crate) fn layout_of(cell: &WideCell, number: u8, port: u8) -> Layout
    ensures value { result ≡ layout_by cell.now number port }
    ensures valid { IsLayout cell.now result }
{
    if port < 2 {
        lower_layout(cell, port)
    } else {
        upper_layout(cell, number, port)
    }
}

// Returns the layout of port 0 or 1: every third subcarrier, in two symbols together.
fn lower_layout(cell: &WideCell, port: u8) -> Layout
    requires { port < 2 }
    ensures value { result ≡ lower_by cell.now port }
    ensures valid { IsLayout cell.now result }
{
    let pattern = Pattern {
        later: 4,
        shift: 3 * port,
        prefix: 1,
    };
    Layout {
        step: 3,
        last: 4 * cell.blocks() as u16 - 1,
        first: (cell.id().value() % 3) as u8,
        residue: first_of_pattern(pattern, cell.id(), 0),
        early: 0,
        late: 4,
    }
}

// Returns the layout of port 2 or 3: every sixth subcarrier of the slot's second symbol.
fn upper_layout(cell: &WideCell, number: u8, port: u8) -> Layout
    ensures value { result ≡ upper_by cell.now number port }
    ensures valid { IsLayout cell.now result }
{
    let first = first_of_upper(port, cell.id(), number);
    Layout {
        step: 6,
        last: 2 * cell.blocks() as u16 - 1,
        first,
        residue: first,
        early: 1,
        late: 1,
    }
}

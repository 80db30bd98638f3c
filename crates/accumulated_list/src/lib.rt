//! The list of cells that are detected over many half-frames: candidates of the primary signals at which the secondary
//! signal is detected, without echoes.
//! Tests: the crate `accumulated_tests`.
#![tactic(auto)]

mod cell;
mod echoes;
mod listing;

ghost use Rattle.accumulated_list.specs.Laws.{OnlyOneList, CoveredSamplesDecide, CellsAreApart, CellsAreSupported, ListIsShort};

pub use cell::DetectedCell;
pub use listing::list_accumulated;

/// A law: the covered samples decide the only list. Cells with one identity are over 137 positions apart; each has at
/// least 93 matches and a ratio up to 999 at a maximum; there are at most 192.
pub fn list_is_right()
    ensures only { OnlyOneList }
    ensures covered { CoveredSamplesDecide }
    ensures apart { CellsAreApart }
    ensures supported { CellsAreSupported }
    ensures few { ListIsShort }
{}

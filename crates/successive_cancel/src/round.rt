//! One cancellation round, and all rounds of a recording.

use cancel::Subtracted;
use explain::EntryList;
use lte_types::CellId;

/// A round that cancelled a cell. (own)
#[derive(Drop)]
pub struct Round {
    /// The identity of the cancelled cell.
    pub id: CellId,
    /// The gain of the cancelled cell, the residual, and the power before and after cancellation.
    pub taken: Subtracted,
    /// The cell list of the residual.
    pub list: EntryList,
}

/// The cell list of a recording, and the rounds that followed. (own)
#[derive(Drop)]
pub struct Rounds {
    /// The cell list of the recording.
    pub first: EntryList,
    /// The rounds that cancelled a cell, in order: at most four.
    pub taken: Vec<Round>,
    /// Whether cancellation ended before the limit of four rounds, because no cell in the last list can be cancelled.
    pub ended: bool,
}

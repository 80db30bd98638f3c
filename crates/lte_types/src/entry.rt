//! Entries of the cell list.

use crate::{CellId, Mib, Sfn, Sib1, Sib1Reason};

/// A detected cell (an entry of the cell list), with its MIB and SIB1. (own)
#[derive(Debug, Drop)]
pub struct Entry {
    /// The cell identity.
    pub id: CellId,
    /// The sample at which the first frame starts.
    pub start: u32,
    /// The frame number of the first frame.
    pub sfn: Sfn,
    /// The number of antenna ports: 1, 2 or 4.
    pub ports: u8,
    /// The MIB.
    pub mib: Mib,
    /// The number of frames, 1 to 4, whose soft values were added to decode the MIB.
    pub frames: u8,
    /// The first frame whose soft values were added, counted from the cell's first frame.
    pub frame: u8,
    /// The frame number, modulo 4, of the first frame whose soft values were added.
    pub phase: u8,
    /// The cost of the MIB's codeword: the sum of the magnitudes of the soft values that contradict it.
    pub cost: u32,
    /// SIB1, or the reason why it was not decoded.
    pub sib1: Result<Sib1, Sib1Reason>,
}

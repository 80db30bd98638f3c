//! The measurements that support an entry of the cell list.

use crate::{CellId, Sfn};

/// The measurements that support an entry of the cell list; the first three fields identify the entry. (own)
#[derive(Clone, Copy, Debug, PartialEq, Eq)]
pub struct Evidence {
    /// The cell identity.
    pub id: CellId,
    /// The sample at which the cell's first frame starts.
    pub start: u32,
    /// The frame number of the cell's first frame.
    pub sfn: Sfn,
    /// The sample of the earliest PSS detection that gives the entry's identity and start: 137 to 19,336.
    pub t: u32,
    /// The fraction of the energy in the 128 samples from `t` that the PSS explains, in thousandths: 250 to 1,000.
    pub peak: u16,
    /// The cost of the MIB's codeword: the sum of the magnitudes of the soft values that contradict it.
    pub cost: u32,
    /// The sum of the magnitudes of all soft values from which the codeword was decoded: positive, and at least four
    /// times the cost.
    pub total: u32,
    /// The number of frames, 1 to 4, whose soft values were added to decode the MIB.
    pub frames: u8,
    /// The first frame whose soft values were added, counted from the cell's first frame.
    pub frame: u8,
    /// The frame number, modulo 4, of the first frame whose soft values were added.
    pub phase: u8,
    /// The energy of the pilots in the PBCH slot of frame `frame`, over all antenna ports: the sum of the received
    /// pilots' squared magnitudes, counted twice for ports 2 and 3, which have 12 pilots instead of 24.
    pub power: u64,
    /// A noise estimate from the pilots of all antenna ports in the slot: the sum of their squared second differences
    /// (20, 40 or 60 of them, each over three pilots of one symbol), divided by 6 * 16,200 and rounded down. A pilot is
    /// sent with energy 16,200.
    pub noise: u64,
}

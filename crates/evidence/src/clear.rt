//! The measurements of a cell with clean reception.
//!
//! Let the recording be faithful to a cell with one antenna port and the normal cyclic prefix, whatever else the cell
//! sends. The MIB was decoded at cost 0 from the first whole frame alone. The PSS explains at least 0.999 of the energy
//! at its detection. The noise estimate is at most 289,321,537 times the gain's squared magnitude, and at most 3/8 of
//! the pilots' energy (`faithful`). So an entry with a nonzero cost, with several frames or with a lower PSS fraction
//! belongs to no such cell. If the recording is clean for the cell, with an integer gain, the noise estimate is at most
//! 198,841,079 times the gain's squared magnitude, and at most a quarter of the pilots' energy (`clean`).

ghost use Rattle.evidence.specs.Clear.{FaithfulEntriesAreSupported, CleanEntriesAreClear};

/// A law: the entry of a cell with clean reception has cost 0 from one frame, a PSS fraction of at least 0.999, and a
/// small noise estimate. (own)
pub fn clean_entries_are_clear()
    ensures faithful { FaithfulEntriesAreSupported }
    ensures clean { CleanEntriesAreClear }
{}

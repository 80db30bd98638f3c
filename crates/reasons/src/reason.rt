//! The reasons why a cell identity is in a cell list or not.

use lte_types::{CellId, Sfn};
use sss_detect::Choice;

/// A reason why a cell identity is in the cell list, or the first rule that fails. (own)
#[derive(Clone, Copy, Debug, PartialEq, Eq)]
pub enum Reason {
    /// The list has an entry with the identity.
    Listed(ListedCell),
    /// No sample in the span is a hit of the identity's primary signal. Gives the sample at which that signal is
    /// strongest.
    NoHit(StrongestPlace),
    /// The hit is too early: the useful part of the preceding symbol, which carries the secondary signal, begins before
    /// the recording.
    NoRoom(EarlyHit),
    /// The hit's cell has another identity.
    OtherIdentity(OtherCell),
    /// The hit's cell has the identity, but no frames of it carry a MIB that the receiver accepts.
    NoMib(UnreadCell),
}

/// A listed entry with the identity. (own)
#[derive(Clone, Copy, Debug, PartialEq, Eq)]
pub struct ListedCell {
    /// The sample at which the first frame starts.
    pub start: u32,
    /// The system frame number of the first frame.
    pub sfn: Sfn,
    /// The antenna port count.
    pub ports: u8,
}

/// The sample at which a primary signal is strongest. (own)
#[derive(Clone, Copy, Debug, PartialEq, Eq)]
pub struct StrongestPlace {
    /// The sample, 128 to 19,345.
    pub t: u32,
    /// The fraction of the energy that the primary signal explains, in thousandths; at least 250 at a hit.
    pub ratio: u64,
}

/// A hit that is too early: the useful part of the preceding symbol, which carries the secondary signal, begins before
/// the recording. (own)
#[derive(Clone, Copy, Debug, PartialEq, Eq)]
pub struct EarlyHit {
    /// The sample of the hit.
    pub t: u32,
    /// The fraction of the energy that the signal explains, in thousandths.
    pub ratio: u64,
    /// The first sample at which a hit is late enough: the useful part of the preceding symbol then begins within the
    /// recording.
    pub step: usize,
}

/// A hit whose cell does not have the requested identity. (own)
#[derive(Clone, Copy, Debug, PartialEq, Eq)]
pub struct OtherCell {
    /// The sample of the hit.
    pub t: u32,
    /// The fraction of the energy that the signal explains, in thousandths.
    pub ratio: u64,
    /// The identity of the hit's cell.
    pub id: CellId,
    /// The identity group and the half-frame with the maximum score, with that score.
    pub best: Choice,
    /// The half-frame that scores better with the requested identity's group, with its score.
    pub own: Choice,
}

/// A cell without a MIB that the receiver accepts. (own)
#[derive(Clone, Copy, Debug, PartialEq, Eq)]
pub struct UnreadCell {
    /// The sample of the hit.
    pub t: u32,
    /// The fraction of the energy that the signal explains, in thousandths.
    pub ratio: u64,
    /// The sample at which the first frame starts.
    pub start: u32,
    /// The attempt to decode a MIB from the first frame, at the phase at which it is closest to one.
    pub attempt: Attempt,
}

/// How close a cell's first frame is to a MIB at one phase. (own)
#[derive(Clone, Copy, Debug, PartialEq, Eq)]
pub struct Attempt {
    /// The phase: the frame's number modulo 4.
    pub phase: u8,
    /// The minimum cost among all words: the sum of the magnitudes of the combined soft values that disagree with a
    /// word's coded bits.
    pub cost: u32,
    /// The sum of the magnitudes of the combined soft values.
    pub total: u32,
    /// The antenna port count of the MIB, if the frame carries one at this phase.
    pub ports: Option<u8>,
}

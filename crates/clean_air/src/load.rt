//! Laws on the signals that a cell may send in addition to its plan.
//!
//! The sent elements carry the plan, with or without load (`carry`), so a recording that is clean for a cell with load
//! is clean for the same plan. Without load, nothing is sent in the resource elements that the plan leaves open, except
//! the control format indicators of other subframes (`silent`). Each element that the plan uses holds a QPSK symbol,
//! except in the synchronisation signals' symbols and where another port sends (`sent`).

ghost use Rattle.clean_air.specs.Load.{SentElementsCarry, OpenPlacesAreSilent, TakenPlacesAreSent};
ghost use Rattle.clean_air.specs.Faithful.{LoadedHasLittleErrors, LoadedIsFaithful};

/// A law: sent elements carry the plan. Without load, an element that the plan leaves open is silent. An element that
/// the plan uses holds a QPSK symbol, except as `TakenPlacesAreSent` states. (own)
pub fn open_places_are_silent()
    ensures carry { SentElementsCarry }
    ensures silent { OpenPlacesAreSilent }
    ensures sent { TakenPlacesAreSent }
{}

/// A law: a recording that is clean for a cell is faithful to it. If sample components are off by at most `eps`, the
/// error energy of 128 samples is at most `2^36 eps^2`, in units of 2^-28. (own)
pub fn loaded_is_faithful()
    ensures errors { LoadedHasLittleErrors }
    ensures faithful { LoadedIsFaithful }
{}

//! The synchronisation signals over several paths.

ghost use Rattle.budget.specs.SignalPaths.{SignalsAreThrough, SignalsOverAreThrough, PrimaryOverIsWithin};

/// A law: synchronisation signals received with one gain, or over common paths with faint later ones, are demodulated
/// through a channel that leaves room. Counted as PSS errors, faint paths stay within 14,000 times the first gain's
/// square.
pub fn signals_stand_over_several_paths()
    ensures one_gain { SignalsAreThrough }
    ensures through { SignalsOverAreThrough }
    ensures primary { PrimaryOverIsWithin }
{}

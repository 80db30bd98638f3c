//! Laws of the control channels.

ghost use Rattle.wide_control.specs.Laws.{IsOneControl, IsSomeControl};

/// A law: for any slot and frame number, the control channels say exactly one thing.
pub fn one_control()
    ensures one { IsOneControl }
    ensures some { IsSomeControl }
{}

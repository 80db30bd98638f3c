//! The sign of a soft value.

ghost use Rattle.budget.specs.Sign.{LargeComponentSpeaks, NearComponentSpeaks};

/// A law: a soft value supports a bit with a magnitude from 1 to 127 if six times its component, with the bit's sign,
/// is at least that magnitude times the pilot energy. A bounded deviation is allowed.
pub fn value_has_the_sign_of_the_bit()
    ensures large { LargeComponentSpeaks }
    ensures near { NearComponentSpeaks }
{}

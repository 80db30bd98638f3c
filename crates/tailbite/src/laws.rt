//! Laws of the minimum-cost word.

ghost use Rattle.tailbite.specs.Clean.{IsOnlyLeast};
ghost use Rattle.tailbite.specs.Laws.{IsOneWord, IsSomeWord};

/// A law: for any values, there is exactly one minimum-cost word.
pub fn one_least_word()
    ensures one { IsOneWord }
    ensures some { IsSomeWord }
{}

/// A law: if every value agrees in sign with the coded bit of one word (positive for 0, negative for 1), that word is
/// the only minimum-cost word.
pub fn values_determine_the_word()
    ensures { IsOnlyLeast }
{}

//! The soft values of bits that are sent in a slot's resource elements.
//!
//! If each resource element's two soft values have its two bits' signs, so do the soft values of all the elements in
//! sequence, in whichever slots the elements are (`places`), and in a slot with correct soft values (`carried`).
//! Descrambled values have the signs of the bits before scrambling (`descrambled`, TS 36.211 section 7.2).

ghost use Rattle.clean_air.specs.Carried.{SentWordIsOnly, ValuesOfPlacesAreHeard};
ghost use Rattle.clean_air.specs.Carried.{DescrambledBitsAreHeard, CarriedBitsAreHeard};

/// A law: soft values determine the sent word of 6 to 64 bits, and no other, if each has its scrambled bit's sign, and
/// there are at least as many values as coded bits, read cyclically from any bit.
pub fn carried_word_is_heard()
    ensures only { SentWordIsOnly }
    ensures places { ValuesOfPlacesAreHeard }
    ensures descrambled { DescrambledBitsAreHeard }
    ensures carried { CarriedBitsAreHeard }
{}

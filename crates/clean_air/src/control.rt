//! The control region of a subframe: its control format indicator (PCFICH) and the grant of SIB1 (PDCCH).
//!
//! Each law also holds for a slot: either the soft values of the channel's resource elements have the signs of their
//! bits (`heard`), or the slot has correct soft values and its channel carries the bits (`carried`).
//!
//! For the grant, the control format indicator is then 2 or 3, so there are at least four control channel elements, and
//! the grant is decoded from the 288 soft values of the first four. The sent grant's CRC passes, and its 37-bit word is
//! the only one with a cost of 0.

ghost use Rattle.clean_air.specs.Indicator.{SentIndicatorIsDecoded, HeardIndicatorIsDecoded, CarriedIndicatorIsDecoded};
ghost use Rattle.clean_air.specs.Grant.{SentGrantIsDecoded, HeardGrantIsDecoded, CarriedGrantIsDecoded};
ghost use Rattle.clean_air.specs.Attempt.{SpokenGrantIsRead, HeardGrantIsRead, CarriedGrantIsRead};

/// A law: 32 soft values determine the sent control format indicator, 1 to 3, and no other, if each value has the sign
/// of its bit.
pub fn sent_indicator_is_decoded()
    ensures decoded { SentIndicatorIsDecoded }
    ensures heard { HeardIndicatorIsDecoded }
    ensures carried { CarriedIndicatorIsDecoded }
{}

/// A law: soft values determine the sent grant, and no other result, if each has its coded bit's sign, and there are at
/// least as many values as coded bits and at least four control channel elements.
pub fn sent_grant_is_decoded()
    ensures decoded { SentGrantIsDecoded }
    ensures heard { HeardGrantIsDecoded }
    ensures carried { CarriedGrantIsDecoded }
{}

/// A law: an attempt on a subframe finds the sent indicator and grant, and decodes the grant's resource blocks, if the
/// soft values have the sent bits' signs and there are at least four control channel elements.
pub fn sent_grant_is_read()
    ensures spoken { SpokenGrantIsRead }
    ensures heard { HeardGrantIsRead }
    ensures carried { CarriedGrantIsRead }
{}

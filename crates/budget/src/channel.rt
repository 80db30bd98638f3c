//! The soft values for a slot that is demodulated through a channel, which has a gain for each symbol and subcarrier.
//!
//! Soft values of some magnitude are guaranteed if four bounds leave room for them: how far demodulated values deviate,
//! how weak the channel is at the resource element, how strong the channel is at the pilots, and how far the line
//! through the pilots is from the channel. With one gain there is room for magnitude 1 if demodulated values deviate by
//! at most 2316 / 64 (about 36.2) amplitude units, and for magnitude 8 if they deviate by at most 30 units.

ghost use Rattle.budget.specs.Through.{ValuesSpeakThrough, OneGainLeavesRoom, QuietGainLeavesRoom};
ghost use Rattle.budget.specs.Through.{OneGainIsThrough, OneGainIsRead};

/// A law: if a slot's 24 pilots and a resource element with two bits are demodulated through a channel, the element's
/// soft values support the bits with each magnitude for which the bounds leave room.
pub fn values_speak_through_a_channel()
    ensures speak { ValuesSpeakThrough }
    ensures room { OneGainLeavesRoom }
    ensures quiet_room { QuietGainLeavesRoom }
    ensures through { OneGainIsThrough }
    ensures read { OneGainIsRead }
{}

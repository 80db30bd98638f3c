//! The soft values of a slot.
//!
//! The law holds for any pattern of reference signals. Its premise is that the slot's 24 pilots and the resource
//! element are received with one gain, and that each demodulated amplitude is off by at most 2316 / 64 (about 36.2)
//! units.
//!
//! In a recording, the premise follows if the slot is received with one gain and each symbol's error energy is at most
//! 1800 times the gain's square (`recording`). If each amplitude is off by at most 30 units (`quiet_pair`, `quiet`), or
//! the error energy is at most 1024 times the gain's square (`quiet_recording`), each soft value has a magnitude of at
//! least 8.

ghost use Rattle.clean_air.specs.Values.{SeenPairSupportsBits, ValuesSupportBits};
ghost use Rattle.clean_air.specs.Values.{ReceivedSlotIsHeard, QuietSlotIsHeard};

/// A law: both soft values of a resource element have its two bits' signs, positive for 0 and negative for 1, if the
/// slot is received with one gain and errors within a stated bound.
pub fn values_support_the_sent_bits()
    ensures pair { SeenPairSupportsBits 2316 1 }
    ensures seen { ValuesSupportBits 2316 1 }
    ensures recording { ReceivedSlotIsHeard }
    ensures quiet_pair { SeenPairSupportsBits 1920 8 }
    ensures quiet { ValuesSupportBits 1920 8 }
    ensures quiet_recording { QuietSlotIsHeard }
{}

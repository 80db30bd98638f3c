//! The broadcast channel (PBCH).
//!
//! The law also holds for a slot with correct soft values whose broadcast channel carries the word (`slot`).

ghost use Rattle.clean_air.specs.Broadcast.{SpokenWordIsDecoded, SentWordIsDecoded, HeardSlotDecodes};

/// A law: the broadcast channel's decoder returns the sent 40-bit word, a MIB and its CRC, if at least 120 soft values
/// have their coded bits' signs and the word's bandwidth code is valid.
pub fn sent_master_is_decoded()
    ensures spoken { SpokenWordIsDecoded }
    ensures decoded { SentWordIsDecoded }
    ensures slot { HeardSlotDecodes }
{}

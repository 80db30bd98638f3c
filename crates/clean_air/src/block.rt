//! The transport block of the shared channel (PDSCH).
//!
//! If each soft value has its coded bit's sign, the values of a sent coded bit add up to a sum with the bit's sign, and
//! a coded bit that was not sent has the sum 0. If there are at least as many values as coded bits, every coded bit was
//! sent, and every block can be resolved.
//!
//! The law also holds for a subframe: in the block's resource blocks, either the soft values of the resource elements
//! have the signs of their bits (`subframe`), or both slots have correct soft values and the resource elements carry
//! the block (`carried`).

ghost use Rattle.clean_air.specs.Block.{HeardBlockIsDecoded, HeardSubframeDecodes, CarriedBlockIsDecoded};

/// A law: the turbo decoder (TS 36.212 section 5.3.2) returns the sent transport block if its CRC passes, each soft
/// value has its coded bit's sign, and the sent bits resolve the block.
pub fn sent_block_is_decoded()
    ensures heard { HeardBlockIsDecoded }
    ensures subframe { HeardSubframeDecodes }
    ensures carried { CarriedBlockIsDecoded }
{}

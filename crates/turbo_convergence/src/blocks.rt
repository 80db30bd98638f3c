//! Decoding a block from the sums of its soft values by coded bit.

ghost use Rattle.turbo_convergence.specs.Laws.{ResolvableBlockIsDecoded, SpokenBlockIsDecoded};

/// A law: the decoder returns a block with its CRC24A if each sum is 0 or has the sign of its coded bit, and no
/// systematic bit has the sum 0. Parity and tail bits may all be missing.
pub fn spoken_block_is_decoded()
    ensures { SpokenBlockIsDecoded }
{}

/// A law: the decoder returns a block with its CRC24A if the sums have the signs of the sent coded bits, the other sums
/// are 0, and the sent bits resolve the block.
pub fn resolvable_block_is_decoded()
    ensures { ResolvableBlockIsDecoded }
{}

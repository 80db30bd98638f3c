//! The law of the first iteration.

ghost use Rattle.turbo_margin.specs.Margin.{MarginIsDecoded};

/// A law: the decoder returns a block with its CRC24A if the block's sums have a margin (`HasMargin`).
pub fn margin_is_decoded()
    ensures { MarginIsDecoded }
{}

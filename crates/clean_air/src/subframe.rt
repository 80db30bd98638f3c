//! The soft values of a subframe.
//!
//! The laws have two premises: the soft values of each resource element have its bits' signs (`blocks`), or both slots
//! have correct soft values and the resource elements carry the bits (`carried`, `carried_blocks`).

ghost use Rattle.clean_air.specs.Subframe.{ValuesOfBlocksAreHeard};
ghost use Rattle.clean_air.specs.Subframe.{CarriedSubframeIsHeard, CarriedBlocksAreHeard};

/// A law: the shared channel's soft values have the signs of the bits before scrambling (TS 36.211 sections 6.3.1 and
/// 6.4) if each resource element's soft values have the signs of the scrambled bits.
pub fn carried_blocks_are_heard()
    ensures blocks { ValuesOfBlocksAreHeard }
    ensures carried { CarriedSubframeIsHeard }
    ensures carried_blocks { CarriedBlocksAreHeard }
{}

//! Laws of blocks that can be resolved.

ghost use Rattle.erasure.specs.Laws.{UnsentBlockIsNotResolvable, WholeBlockIsResolvable};

/// A law: a block can be resolved, whatever its bits, if all its coded bits are sent. From any redundancy version, 3 (K
/// + 4) sent bits are enough.
pub fn whole_block_is_resolvable()
    ensures { WholeBlockIsResolvable }
{}

/// A law: a block without any sent coded bit cannot be resolved, whatever its bits.
pub fn unsent_block_is_not_resolvable()
    ensures { UnsentBlockIsNotResolvable }
{}

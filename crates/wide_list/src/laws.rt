//! Laws of wide system information and wide lists.

ghost use Rattle.wide_list.specs.Laws.{IsOneWideSystem, IsSomeWideSystem, IsOneWideList};
ghost use Rattle.wide_list.specs.Laws.{IsOneSystemBlock, IsSomeSystemBlock, SystemIsInBits};

/// A law: a cell in a wide recording has exactly one answer on its system information, by its first frame's start and
/// number. (own)
pub fn one_wide_system()
    ensures one { IsOneWideSystem }
    ensures some { IsSomeWideSystem }
{}

/// A law: a wide recording has at most one list for a receiver. (own)
pub fn one_wide_list()
    ensures { IsOneWideList }
{}

/// A law: a cell in a wide recording has exactly one transport block that carried its SIB1, or none, and its system
/// information is read from that block's bits. (own)
pub fn one_system_block()
    ensures one { IsOneSystemBlock }
    ensures some { IsSomeSystemBlock }
    ensures fields { SystemIsInBits }
{}

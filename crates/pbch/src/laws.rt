//! Laws of MIB decoding.

ghost use Rattle.pbch.specs.Laws.{IsOneMaster};

/// A law: any combined soft values decode to at most one MIB.
pub fn at_most_one_master()
    ensures { IsOneMaster }
{}

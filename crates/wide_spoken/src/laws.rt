//! Laws: what is spoken is decoded.

ghost use Rattle.wide_spoken.specs.Laws.{SpokenGrantIsFound, SpokenBlockIsRead, SpokenFrameIsRead};
ghost use Rattle.wide_spoken.specs.Laws.{SpokenSystemIsRead, SpokenEntryIsInformed};

/// A law: if each soft value has its sent bit's sign, the grant is found (`grant`), and with enough values, its
/// block is decoded (`block`). The frame has its fields, unless an earlier search leads to other ones (`frame`).
pub fn spoken_subframe_is_read()
    ensures grant { SpokenGrantIsFound }
    ensures block { SpokenBlockIsRead }
    ensures frame { SpokenFrameIsRead }
{}

/// A law: if a tried frame of a cell is spoken, and no earlier one has other fields, the cell's system information is
/// the sent fields (`system`), in the list of a wide recording too (`entry`).
pub fn spoken_entry_is_informed()
    ensures system { SpokenSystemIsRead }
    ensures entry { SpokenEntryIsInformed }
{}

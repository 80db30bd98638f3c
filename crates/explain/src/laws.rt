//! Laws of the list.
//!
//! Two listed entries differ in identity, start or frame number (`apart`). If the receiver reads SIB1, no entry has the
//! reason `Sib1Reason::LongPrefix` (`never_long`).

ghost use Rattle.std.specs.Prelude.{◌≡◌};
ghost use Rattle.explain.specs.Laws.{IsOneList, IsSound, IsComplete, IsApart, IsNeverLong};
ghost use Rattle.explain.specs.Laws.{OneFrameDecodes, OneFrameAlone, OneFrameIsListed};
ghost use Rattle.explain.specs.Deciding.{deciding_length, FirstFramesDecide, FirstFramesDecideAll};
ghost use Rattle.explain.specs.declared.laws.TheConstants.{DECIDING_SAMPLES};
ghost use Rattle.explain.specs.Readings.{IsOneReading};

use lte_types::FRAME_LENGTH;

/// The number of samples in 17 frames. The list does not depend on later samples. (own)
pub const DECIDING_SAMPLES: usize = 17 * FRAME_LENGTH;

/// A law: for any receiver, a recording has at most one list. Each listed entry comes from a hit; each entry of a hit,
/// or another of its cell, is listed; no two listed entries belong to one cell.
pub fn the_list_in_plain_words()
    ensures one { IsOneList }
    ensures sound { IsSound }
    ensures complete { IsComplete }
    ensures apart { IsApart }
    ensures never_long { IsNeverLong }
{}

/// A law: recordings of at least 326,400 samples (17 frames) that agree in the first 326,400 have the same list, for
/// any receiver that reads only a cell's first 16 frames (`all`). (own)
pub fn the_first_frames_decide()
    ensures samples { DECIDING_SAMPLES ≡ deciding_length }
    ensures one_port { FirstFramesDecide }
    ensures all { FirstFramesDecideAll }
{}

/// A law: the first single frame of a hit that carries a MIB gives an entry, which is listed itself or represented by
/// an entry of its cell. A receiver that combines no frames has no other entries. (own)
pub fn one_frame_is_enough()
    ensures decodes { OneFrameDecodes }
    ensures alone { OneFrameAlone }
    ensures listed { OneFrameIsListed }
{}

/// A law: for any receiver, there is only one reading of an entry: the first hit at its place, the combined soft
/// values, the control format indicator and the grant. (own)
pub fn one_reading()
    ensures { IsOneReading }
{}

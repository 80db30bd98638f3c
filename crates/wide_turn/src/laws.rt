//! Laws of corrected wide recordings.

ghost use Rattle.wide_turn.specs.Laws.{IsOneApplied, IsTurnedAlike};

/// A law: a wide recording is corrected by its estimate in only one way, and at 1.92 million samples per second by an
/// offset as `frequency_offset::turned` corrects it. (own)
pub fn turned_wide()
    ensures applied { IsOneApplied }
    ensures alike { IsTurnedAlike }
{}

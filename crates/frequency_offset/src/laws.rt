//! Laws of offset correction and estimation.

ghost use Rattle.frequency_offset.specs.Laws.{StaysAtZero, TurnedIsRecording, HasOneEstimate, IsOneApplied};
ghost use Rattle.frequency_offset.specs.Laws.{ReportedCellsAreListed, TurnIsInRange};

/// A law: correction by offset 0 leaves a recording with mean 0 unchanged, and a valid recording stays valid when
/// corrected by any offset. (own)
pub fn turned_recordings()
    ensures stays { StaysAtZero }
    ensures recording { TurnedIsRecording }
{}

/// A law: a recording has at most one estimate, an offset from -576 to 575, and exactly one correction by that
/// estimate. If there is an estimate, the corrected recording has the estimated number of cells. (own)
pub fn the_turn_estimated()
    ensures one { HasOneEstimate }
    ensures applied { IsOneApplied }
    ensures range { TurnIsInRange }
    ensures cells { ReportedCellsAreListed }
{}

//! SSS detection over many half-frames: the 124 signs of the secondary signal at a candidate position of the primary
//! signal, and the cell that they match, if at least 93 do.
//! Tests: the crate `accumulated_tests`.
#![tactic(auto)]

mod best;
mod detecting;
mod matching;
mod rows;
mod votes;

ghost use Rattle.accumulated_sss.specs.Laws.{DetectionIsRight, OnlyOneDetection, FirstSamplesDecide};
ghost use Rattle.accumulated_sss.specs.Laws.{PatternsAreAll, CoincidencesAreCounted, CoincidencesAreFew, CoincidencesAreRare};

pub use detecting::{Detection, detect};

/// A law: `detection_at`, which `detect` returns, is exactly the detection at a position, and there is at most one. The
/// samples up to the end of the last primary symbol decide it.
pub fn detection_is_right()
    ensures right { DetectionIsRight }
    ensures only { OnlyOneDetection }
    ensures decided { FirstSamplesDecide }
{}

/// A law: whatever 124 signs are given, 234,004,971,861,876,424,919,930,303,080 of the 2^124 patterns match them in at
/// least 93 positions, and not more if some are 0; 64,512 times this number is at most one 1,400th of 2^124.
pub fn coincidences_are_rare()
    ensures all { PatternsAreAll }
    ensures counted { CoincidencesAreCounted }
    ensures few { CoincidencesAreFew }
    ensures rare { CoincidencesAreRare }
{}

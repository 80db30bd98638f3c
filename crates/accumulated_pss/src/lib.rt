//! Accumulated PSS detection: the correlation with each primary synchronisation signal, relative to the energy, summed
//! over half-frames, and the positions at which the sum is greatest, called candidates.
//! Tests: the crate `accumulated_tests`.
#![tactic(auto)]

mod choose;
mod half_frame;
mod row;
mod sums;

ghost use Rattle.accumulated_pss.specs.Laws.{HalfFramesAreComplete, RatiosAreBelowOne, RowsHoldSums, FirstSamplesDecide};
ghost use Rattle.accumulated_pss.specs.Laws.{TestIsRight, ListIsRight, ListIsInOrder, CandidatesAreApart, ListIsShort};

pub use choose::candidates;
pub use sums::{Accumulated, accumulate, half_frames};

/// A law: each of the counted half-frames is complete, and no other. A ratio is below 1, and a row holds the sums of
/// the ratios at the positions. The samples that the half-frames cover decide the rows.
pub fn sums_are_right()
    ensures complete { HalfFramesAreComplete }
    ensures below { RatiosAreBelowOne }
    ensures sums { RowsHoldSums }
    ensures decided { FirstSamplesDecide }
{}

/// A law: the test for a maximum agrees with its definition. The list has exactly the candidates, in order, each once,
/// and at most 64; any two are more than nine positions apart.
pub fn candidates_are_right()
    ensures test { TestIsRight }
    ensures list { ListIsRight }
    ensures order { ListIsInOrder }
    ensures apart { CandidatesAreApart }
    ensures few { ListIsShort }
{}

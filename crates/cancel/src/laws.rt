//! Laws on the cancellation of a cell.

ghost use Rattle.cancel.specs.Laws.{EstimateIsNear, GainIsCandidate, BestLeavesLeast, IsOneBest, IsOneSubtraction};
ghost use Rattle.cancel.specs.Laws.{IsSomeSubtraction, AnswerTakesLoadedOff, AnswerTakesCleanOff};

/// A law: if 128 samples are a known signal times a gain of magnitude 1 to 28, with errors as in `IsGainSeen`, the gain
/// is a candidate. The best candidate has the smallest residual. (own)
pub fn clean_gain_is_candidate()
    ensures near { EstimateIsNear }
    ensures candidate { GainIsCandidate }
    ensures least { BestLeavesLeast }
{}

/// A law: there is at most one best candidate gain, so `subtract` has only one result. (own)
pub fn best_candidate_is_one()
    ensures best { IsOneBest }
    ensures answer { IsOneSubtraction }
{}

/// A law: `subtract` has a result for each recording and cell. (own)
pub fn some_answer()
    ensures { IsSomeSubtraction }
{}

/// A law: the promises of `subtract` for clean recordings, with load (`loaded`) or without (`clean`), follow from the
/// definition of its result. (own)
pub fn answer_leaves_errors()
    ensures loaded { AnswerTakesLoadedOff }
    ensures clean { AnswerTakesCleanOff }
{}

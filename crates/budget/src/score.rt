//! The score that both synchronisation signals give to an identity group and half-frame.

ghost use Rattle.budget.specs.Score.{TermsArePositive, SentPairIsGreatest, SentPairIsBest, SentPairIsIdentified};
ghost use Rattle.budget.specs.Score.{SentPairStandsAlone, SentPairIsIdentifiedThrough};
ghost use Rattle.budget.specs.Score.{OneGainLeavesTermsRoom, OneGainIsSeenThrough};

/// A law: if a cell's two synchronisation signals are demodulated with one gain, each amplitude within 2316 / 64 units,
/// the transmitted identity group and half-frame alone have the maximum score, and a PSS detection identifies them.
pub fn sent_pair_is_best()
    ensures terms { TermsArePositive }
    ensures greatest { SentPairIsGreatest }
    ensures best { SentPairIsBest }
    ensures recording { SentPairIsIdentified }
{}

/// A law: the transmitted identity group and half-frame have the only maximum score if both synchronisation signals are
/// demodulated through a channel whose bounds leave room, as the bounds for one gain do.
pub fn sent_pair_stands_alone_through_a_channel()
    ensures alone { SentPairStandsAlone }
    ensures recording { SentPairIsIdentifiedThrough }
    ensures room { OneGainLeavesTermsRoom }
    ensures one_gain { OneGainIsSeenThrough }
{}

//! The two best pairs of an identity group and a half-frame, with their scores.

ghost use Rattle.std.specs.Prelude.{◌≡◌, ◌<◌, ◌≤◌, All, int_lt, if◌then◌else◌};
ghost use Rattle.finite.specs.Sizes.{AllWithin};
ghost use Rattle.cs_num.specs.Complex.{IsWithin, value_at};
ghost use Rattle.sss_detect.specs.Scores.{score};
ghost use Rattle.sss_detect.specs.Steps.{score_by};
ghost use Rattle.sss_detect.specs.Second.{choice_of, group_choice, pair_at as pair_of, ranking_of};

use crate::score::{ShiftSums, agreements};
use cs_num::Cpx;
use lte_types::{Half, SUBCARRIERS};

/// An identity group, 0 to 167, and a half-frame, with the score for their secondary sequence. (own)
#[derive(Clone, Copy, Debug, PartialEq, Eq)]
pub struct Choice {
    pub n1: u16,
    pub half: Half,
    pub score: i64,
}

/// The best pair of an identity group and a half-frame, and the second-best: the best of the 335 others. (own)
#[derive(Clone, Copy, Debug, PartialEq, Eq)]
pub struct Ranking {
    pub best: Choice,
    pub second: Choice,
}

// Returns the best and second-best pairs for a demodulated primary symbol and secondary symbol.
pub(crate) fn best_two(
    pss_seen: &[Cpx; SUBCARRIERS],
    sss_seen: &[Cpx; SUBCARRIERS],
    n2: u8,
) -> Ranking
    requires member { n2 ≤ 2 }
    requires primary { All (IsWithin 23726080) pss_seen.now }
    requires secondary { All (IsWithin 23726080) sss_seen.now }
    ensures { result ≡ ranking_of (score (value_at pss_seen.now) (value_at sss_seen.now) n2) }
{
    best_two_by(&agreements(pss_seen, sss_seen, n2), n2)
}

// Returns the best and second-best pairs for agreements of magnitude at most 254 times the square of 23,726,080.
fn best_two_by(agreements: &[i64; 62], n2: u8) -> Ranking
    requires small { AllWithin 142983425530265600 agreements.now }
    requires member { n2 ≤ 2 }
    ensures { result ≡ ranking_of (score_by agreements.now n2) }
{
    let sums = ShiftSums::new(agreements, n2);
    let mut ranking = in_order(scored_pair(&sums, 0), scored_pair(&sums, 1));
    for place in 2..336 {
        ranking = with_next(ranking, scored_pair(&sums, place));
    }
    ranking
}

// Returns the half-frame that scores better with identity group `n1`, from the demodulated primary and secondary
// symbols; `n2` is the identity within the group.
pub(crate) fn best_of_group(
    pss_seen: &[Cpx; SUBCARRIERS],
    sss_seen: &[Cpx; SUBCARRIERS],
    n2: u8,
    n1: u16,
) -> Choice
    requires member { n2 ≤ 2 }
    requires group { n1 ≤ 167 }
    requires primary { All (IsWithin 23726080) pss_seen.now }
    requires secondary { All (IsWithin 23726080) sss_seen.now }
    ensures { result ≡ group_choice (score (value_at pss_seen.now) (value_at sss_seen.now) n2) n1 }
{
    best_of_group_by(&agreements(pss_seen, sss_seen, n2), n2, n1)
}

// Returns the half-frame that scores better with identity group `n1`, from the 62 `agreements`, whose magnitudes are at
// most 254 times the square of 23,726,080.
fn best_of_group_by(agreements: &[i64; 62], n2: u8, n1: u16) -> Choice
    requires small { AllWithin 142983425530265600 agreements.now }
    requires member { n2 ≤ 2 }
    requires group { n1 ≤ 167 }
    ensures { result ≡ group_choice (score_by agreements.now n2) n1 }
{
    let sums = ShiftSums::new(agreements, n2);
    better_pair(scored(&sums, n1, Half::Zero), scored(&sums, n1, Half::Five))
}

// Returns pair number `place`, 0 to 335, with its score.
fn scored_pair(sums: &ShiftSums, place: u16) -> Choice
    requires small { AllWithin 142983425530265600 sums.now.agreements.now }
    requires place { place < 336 }
    ensures { result ≡ choice_of (score_by sums.now.agreements.now sums.now.n2) (pair_of place) }
{
    let (n1, half) = pair_at(place);
    scored(sums, n1, half)
}

// Returns a pair with its score.
fn scored(sums: &ShiftSums, n1: u16, half: Half) -> Choice
    requires small { AllWithin 142983425530265600 sums.now.agreements.now }
    requires group { n1 ≤ 167 }
    ensures { result ≡ choice_of (score_by sums.now.agreements.now sums.now.n2) (n1, half) }
{
    Choice {
        n1,
        half,
        score: sums.score_of(n1, half) as i64,
    }
}

// Returns the pair of an identity group and a half-frame with the number `place`, 0 to 335: first subframe 0's pairs in
// group order, then subframe 5's.
fn pair_at(place: u16) -> (u16, Half)
    requires { place < 336 }
    ensures pair { result ≡ pair_of place }
    ensures group { result.0 ≤ 167 }
{
    if place < 168 {
        (place, Half::Zero)
    } else {
        (place - 168, Half::Five)
    }
}

// Ranks two pairs by score; `first` is the best if the scores are equal.
fn in_order(first: Choice, other: Choice) -> Ranking
    ensures { result ≡ (if int_lt first.score other.score
        then record { best = other; second = first } else record { best = first; second = other }) }
{
    if first.score < other.score {
        Ranking {
            best: other,
            second: first,
        }
    } else {
        Ranking {
            best: first,
            second: other,
        }
    }
}

// Returns the two best of the ranked pairs and `next`, which is later than both.
fn with_next(before: Ranking, next: Choice) -> Ranking
    ensures { result ≡ (if int_lt before.best.score next.score
        then record { best = next; second = before.best }
        else record {
          best = before.best;
          second = if int_lt before.second.score next.score then next else before.second;
        }) }
{
    if before.best.score < next.score {
        Ranking {
            best: next,
            second: before.best,
        }
    } else {
        Ranking {
            best: before.best,
            second: better_pair(before.second, next),
        }
    }
}

// Returns the pair with the greater score, or `first` if the scores are equal.
fn better_pair(first: Choice, later: Choice) -> Choice
    ensures { result ≡ (if int_lt first.score later.score then later else first) }
{
    if first.score < later.score {
        later
    } else {
        first
    }
}

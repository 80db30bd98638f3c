//! The choice of an identity group and a half-frame.
//!
//! The score of a pair is a sum over 62 subcarriers. Each term is the secondary sequence's value there, 1 or -1, times
//! the real part of the demodulated SSS value times the conjugate of the channel, which the PSS value gives
//! (`agreement`).

ghost use Rattle.std.specs.Prelude.{◌≡◌, ◌^◌, ◌≤◌, All, int_lt, if◌then◌else◌};
ghost use Rattle.finite.specs.Sizes.{AllWithin};
ghost use Rattle.cs_num.specs.Complex.{IsWithin, value_at};
ghost use Rattle.sss_detect.specs.Scores.{score};
ghost use Rattle.sss_detect.specs.Steps.{score_by};
ghost use Rattle.sss_detect.specs.Identity.{IsBest, best_group, best_pair};

use crate::score::{ShiftSums, agreements};
use cs_num::Cpx;
use lte_types::{Half, SUBCARRIERS};

// An identity group, 0 to 167, with its score in one half-frame.
#[derive(Clone, Copy)]
struct GroupScore {
    n1: u16,
    score: i128,
}

/// Returns the identity group, 0 to 167, and the half-frame with the maximum score for the demodulated symbols. Ties go
/// to subframe 0, then to the lower group. `n2` is 0 to 2, components at most 2^25. (own)
pub fn best(pss_seen: &[Cpx; SUBCARRIERS], sss_seen: &[Cpx; SUBCARRIERS], n2: u8) -> (u16, Half)
    requires member { n2 ≤ 2 }
    requires primary { All (IsWithin (2 ^ 25)) pss_seen.now }
    requires secondary { All (IsWithin (2 ^ 25)) sss_seen.now }
    ensures value { result ≡ best_pair (score (value_at pss_seen.now) (value_at sss_seen.now) n2) }
    ensures best { IsBest (score (value_at pss_seen.now) (value_at sss_seen.now) n2) result.0 result.1 }
{
    best_by(&agreements(pss_seen, sss_seen, n2), n2)
}

// Returns the pair with the maximum score for a list of agreements.
fn best_by(agreements: &[i64; 62], n2: u8) -> (u16, Half)
    requires small { AllWithin (2 ^ 59) agreements.now }
    requires member { n2 ≤ 2 }
    ensures { result ≡ best_pair (score_by agreements.now n2) }
{
    let sums = ShiftSums::new(agreements, n2);
    let zero = best_of_half(&sums, Half::Zero);
    let five = best_of_half(&sums, Half::Five);
    if zero.score < five.score {
        (five.n1, Half::Five)
    } else {
        (zero.n1, Half::Zero)
    }
}

// Returns the group with the maximum score in `half`, the lowest of several.
fn best_of_half(sums: &ShiftSums, half: Half) -> GroupScore
    requires { AllWithin (2 ^ 59) sums.now.agreements.now }
    ensures group { result.n1 ≡ best_group (score_by sums.now.agreements.now sums.now.n2) half }
    ensures score { result.score ≡ score_by sums.now.agreements.now sums.now.n2 result.n1 half }
{
    let mut best = scored(sums, 0, half);
    for n1 in 1..168 {
        best = better_group(best, scored(sums, n1, half));
    }
    best
}

// Returns the group `n1` with its score in `half`.
fn scored(sums: &ShiftSums, n1: u16, half: Half) -> GroupScore
    requires small { AllWithin (2 ^ 59) sums.now.agreements.now }
    requires group { n1 ≤ 167 }
    ensures group { result.n1 ≡ n1 }
    ensures score { result.score ≡ score_by sums.now.agreements.now sums.now.n2 n1 half }
{
    GroupScore {
        n1,
        score: sums.score_of(n1, half),
    }
}

// Returns the group with the greater score, or `first` if the scores are equal.
fn better_group(first: GroupScore, second: GroupScore) -> GroupScore
    ensures { result ≡ (if int_lt first.score second.score then second else first) }
{
    if first.score < second.score {
        second
    } else {
        first
    }
}

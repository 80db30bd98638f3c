//! The search for the best gain near an estimate.

ghost use Rattle.std.specs.Prelude.{◌≡◌, ◌+◌, ◌*◌, ◌^◌, ◌<◌, ◌≤◌, length, max, nat_abs, nat_lt, pos, ◌+ℤ◌, ◌-ℤ◌};
ghost use Rattle.std.specs.Prelude.{if◌then◌else◌, MatchOption};
ghost use Rattle.cs_num.specs.Complex.{IsWithin};
ghost use Rattle.cancel.specs.Gain.{IsCandidate};
ghost use Rattle.cancel.specs.Steps.{around as around_of, better_choice, choice_below, choice_of as choice_with};
ghost use Rattle.cancel.specs.Steps.{end_of as end_with, greatest_of as greatest_left, IsLimit};
ghost use Rattle.cancel.specs.Steps.{IsFoundBefore, IsChosen};

use crate::leaving::greatest_of;
use cs_num::{Cpx, Gain, Sample};

// A gain, and the largest component magnitude of the residual that it leaves.
#[derive(Clone, Copy, PartialEq, Eq)]
pub(crate) struct GainChoice {
    pub gain: Gain,
    pub greatest: u32,
}

// Returns `x + by - 2`, for `by` from 0 to 4.
fn moved(x: i64, by: u8) -> i64
    requires small { nat_abs x ≤ 2 ^ 40 }
    requires by { by < 5 }
    ensures value { result ≡ x +ℤ (pos by -ℤ pos 2) }
    ensures small { nat_abs result ≤ 2 ^ 41 }
{
    x + (by as i64 - 2)
}

// Returns gain `i` of the 25 whose components differ by at most 2 from the components of `middle`.
fn around(middle: Cpx, i: u8) -> Cpx
    requires small { IsWithin (2 ^ 40) middle }
    requires i { i < 25 }
    ensures value { result ≡ around_of middle i }
    ensures small { IsWithin (2 ^ 41) result }
{
    Cpx {
        re: moved(middle.re, i / 5),
        im: moved(middle.im, i % 5),
    }
}

// Returns `number` as a gain if it is a candidate: a magnitude from 1 to 28, at a distance up to 2 from `middle`.
fn candidate(middle: Cpx, number: Cpx) -> Option<Gain>
    requires middle { IsWithin (2 ^ 40) middle }
    requires number { IsWithin (2 ^ 41) number }
    ensures { MatchOption result (IsCandidate middle number → ⊥)
        (λ gain. IsCandidate middle number × (gain ≡ number)) }
{
    let gain = Gain::of(number)?;
    if (number - middle).norm() <= 4 {
        Some(gain)
    } else {
        None
    }
}

// Returns `gain` with its largest residual component, or `None` if the component is not below `end`.
fn choice_of(
    samples: &[Sample],
    sent: &[Sample],
    gain: Gain,
    end: Option<u32>,
) -> Option<GainChoice>
    requires { length sent.now ≡ length samples.now }
    ensures { result ≡ choice_below end (choice_with (greatest_left samples.now sent.now) gain) }
{
    let end = end.unwrap_or(u32::MAX);
    let greatest = greatest_of(samples, sent, gain, end);
    if greatest < end {
        Some(GainChoice { gain, greatest })
    } else {
        None
    }
}

// Returns a limit that is 1 above the largest residual component for `middle`, or `None` if `middle` is not a gain. A
// gain whose residual reaches the limit is not the best.
fn limit_of(samples: &[Sample], sent: &[Sample], middle: Cpx) -> Option<u32>
    requires middle { IsWithin (2 ^ 40) middle }
    requires count { length sent.now ≡ length samples.now }
    ensures { IsLimit (greatest_left samples.now sent.now) middle result }
{
    let gain = Gain::of(middle)?;
    Some(greatest_of(samples, sent, gain, u32::MAX) + 1)
}

// Returns the bound that a better gain's largest residual component must stay below: the largest residual component of
// the best gain so far, or `limit` if there is no such gain.
fn end_of(limit: Option<u32>, found: &Option<GainChoice>) -> Option<u32>
    ensures { result ≡ end_with limit found.now }
{
    match found {
        Some(choice) => Some(choice.greatest),
        None => limit,
    }
}

// Returns the better of `found`, the best choice so far, and `gain`, or `found` if the residuals are equal.
fn better_gain(
    samples: &[Sample],
    sent: &[Sample],
    limit: Option<u32>,
    found: Option<GainChoice>,
    gain: Gain,
) -> Option<GainChoice>
    requires { length sent.now ≡ length samples.now }
    ensures { result ≡ better_choice limit found (choice_with (greatest_left samples.now sent.now) gain) }
{
    let end = end_of(limit, &found);
    choice_of(samples, sent, gain, end).or(found)
}

// Returns the best choice among the first `i + 1` gains around `middle`, given `found`, the best among the first `i`.
fn with_gain(
    samples: &[Sample],
    sent: &[Sample],
    middle: Cpx,
    limit: Option<u32>,
    found: Option<GainChoice>,
    i: u8,
) -> Option<GainChoice>
    requires middle { IsWithin (2 ^ 40) middle }
    requires count { length sent.now ≡ length samples.now }
    requires i { i < 25 }
    requires found { IsFoundBefore (greatest_left samples.now sent.now) middle limit i found }
    ensures { IsFoundBefore (greatest_left samples.now sent.now) middle limit (i + 1) result }
{
    match candidate(middle, around(middle, i)) {
        Some(gain) => better_gain(samples, sent, limit, found, gain),
        None => found,
    }
}

/// Returns the candidate near `middle` with the smallest residual (largest component magnitude), or `None` if there is
/// no candidate.
pub(crate) fn best(samples: &[Sample], sent: &[Sample], middle: Cpx) -> Option<GainChoice>
    requires middle { IsWithin (2 ^ 40) middle }
    requires count { length sent.now ≡ length samples.now }
    ensures { IsChosen (greatest_left samples.now sent.now) middle result }
{
    let limit = limit_of(samples, sent, middle);
    let mut found = None;
    for i in 0..25 {
        found = with_gain(samples, sent, middle, limit, found, i);
    }
    found
}

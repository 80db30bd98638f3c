//! The position at which the primary synchronisation signal is strongest.

ghost use Rattle.std.specs.Prelude.{◌≡◌, ℕ, ◌+◌, ◌<◌, ◌≤◌, List, true, false};
ghost use Rattle.cs_num.specs.declared.Sample.{Sample as SampleValue};
ghost use Rattle.lte_types.specs.Numerology.{useful_length};
ghost use Rattle.pss_search.specs.Metrics.{end_place};
ghost use Rattle.pss_search.specs.Steps.{IsMetricOf, IsSmallMetric, IsStrongestSoFar};
ghost use Rattle.pss_search.specs.Strongest.{IsAsStrong, IsStronger};

use crate::measure::Metric;
use crate::recent::Recent;
use lte_types::USEFUL_LENGTH;

// The first position that is measured after the start of a sweep.
pub(crate) const AFTER_START: usize = 146;

/// A position with its metric for one of the three primary synchronisation signals. (own)
#[derive(Clone, Copy, Debug, PartialEq, Eq)]
pub struct Measured {
    /// The sample at which the measured 128 samples begin.
    pub t: u32,
    /// The metric at this sample.
    pub metric: Metric,
}

// Returns the strongest of the 18 positions that a new sweep has measured.
pub(crate) fn strongest_at_start(recent: &Recent, n2: u8) -> Measured
    requires root { n2 ≤ 2 }
    requires start { recent.now.place ≡ 146 }
    ensures { IsStrongestSoFar recent.now.recording n2 146 result }
{
    let mut best = measured_at(recent, n2, USEFUL_LENGTH);
    for t in 129..AFTER_START {
        best = stronger(best, measured_at(recent, n2, t));
    }
    best
}

// Returns position `t`, one of the last 19 measured, with its metric for the PSS `n2`.
pub(crate) fn measured_at(recent: &Recent, n2: u8, t: usize) -> Measured
    requires root { n2 ≤ 2 }
    requires first { useful_length ≤ t }
    requires measured { t < recent.now.place }
    requires kept { recent.now.place ≤ t + 19 }
    requires end { t < end_place }
    ensures place { result.t ≡ t }
    ensures metric { IsMetricOf recent.now.recording n2 t result.metric }
{
    Measured {
        t: t as u32,
        metric: recent.metric(n2, t),
    }
}

// Returns `next` if it is stronger than `best`, otherwise `best`.
#[inline(always)]
pub(crate) fn stronger(best: Measured, next: Measured) -> Measured
    requires best { IsSmallMetric best.metric }
    requires next { IsSmallMetric next.metric }
    ensures { (recording : List SampleValue) → (n2 : ℕ) → IsStrongestSoFar recording n2 next.t best →
        IsMetricOf recording n2 next.t next.metric → IsStrongestSoFar recording n2 (next.t + 1) result }
{
    if is_stronger(&next.metric, &best.metric) {
        next
    } else {
        best
    }
}

// Returns whether `first` is stronger: it has energy, and `second` has none or a smaller ratio of peak to energy.
fn is_stronger(first: &Metric, second: &Metric) -> bool
    requires first { IsSmallMetric first.now }
    requires second { IsSmallMetric second.now }
    ensures stronger { result ≡ true → IsStronger first.now second.now }
    ensures weaker { result ≡ false → IsAsStrong second.now first.now }
{
    let ours = first.peak * second.energy as u128;
    let theirs = second.peak * first.energy as u128;
    first.energy > 0 && (second.energy == 0 || theirs < ours)
}

//! The test that decides which positions are hits.

ghost use Rattle.std.specs.Prelude.{◌≡◌, ◌+◌, ◌≤◌, ◌<◌, [], false, IfSome};
ghost use Rattle.std.specs.Option.{option_to_list};
ghost use Rattle.pss_search.specs.Tests.{rules_out, is_ruled_out, is_hit};
ghost use Rattle.pss_search.specs.Hits.{hit_at, hits_at, IsSmallHit};
ghost use Rattle.pss_search.specs.Steps.{DecidesOn, IsMetricOf};
ghost use Rattle.lte_types.specs.Numerology.{useful_length};

use crate::measure::Metric;
use crate::recent::Recent;
use crate::signals::Root;
use lte_types::Hit;

// The first position at which hits are searched: the useful part of the preceding symbol just fits before it.
pub(crate) const FIRST_PLACE: usize = 137;

// A quarter of 1,990,000, which is a lower bound on the power of each primary signal.
const QUARTER_OF_LEAST: u64 = 497_500;

// Returns whether some peak at position `t` is large enough for a hit of a signal with the minimum power. At most
// positions none is, and no other test is needed.
#[inline(always)]
pub(crate) fn may_be_hit(recent: &Recent, t: usize) -> bool
    requires decides { DecidesOn recent.now t }
    ensures { result ≡ false → hits_at recent.now.recording t ≡ [] }
{
    let row = recent.row(t);
    let least = row.energy * QUARTER_OF_LEAST;
    let [first, second, third] = row.peaks;
    if least <= first {
        return true;
    }
    if least <= second {
        return true;
    }
    least <= third
}

// Returns the hit of the primary signal `root` at position `t`, if there is one.
#[tactic(auto, unfolding(crate::specs::Hits::hit_at))]
pub(crate) fn hit_of(recent: &Recent, root: &Root, t: usize) -> Option<Hit>
    requires decides { DecidesOn recent.now t }
    ensures value { option_to_list result ≡ hit_at recent.now.recording t root.now.n2 }
    ensures small { IfSome result IsSmallHit }
{
    let own = recent.metric(root.n2, t);
    if stands_out(recent, root, t, own) {
        Some(Hit {
            t: t as u32,
            n2: root.n2,
            peak: own.peak,
            energy: own.energy,
        })
    } else {
        None
    }
}

// Returns whether position `t` is a hit of the primary signal `root`, given its metric `own`.
#[tactic(auto, using(std::proofs::lemmas::Bool::Decides::nat_tests), unfolding(crate::specs::Tests::is_hit))]
fn stands_out(recent: &Recent, root: &Root, t: usize, own: Metric) -> bool
    requires decides { DecidesOn recent.now t }
    requires metric { IsMetricOf recent.now.recording root.now.n2 t own }
    ensures { result ≡ is_hit recent.now.recording t root.now.n2 }
{
    own.energy > 0
        && own.energy as u128 * root.power as u128 <= 4 * own.peak
        && !is_ruled_out_at(recent, root, t, own)
}

// Returns whether some position at most 9 from `t`, whose metric is `own`, rules out that `t` is a hit.
fn is_ruled_out_at(recent: &Recent, root: &Root, t: usize, own: Metric) -> bool
    requires decides { DecidesOn recent.now t }
    requires metric { IsMetricOf recent.now.recording root.now.n2 t own }
    ensures { result ≡ is_ruled_out recent.now.recording root.now.n2 t }
{
    for d in 0..19 {
        if rules_out_at(recent, root, t, own, t - 9 + d) {
            return true;
        }
    }
    false
}

// Returns whether position `u` rules out that `t`, whose metric is `own`, is a hit: its metric is greater, or equal and
// `u` is earlier.
#[tactic(auto, using(std::proofs::lemmas::Bool::Decides::nat_tests), unfolding(crate::specs::Tests::rules_out))]
fn rules_out_at(recent: &Recent, root: &Root, t: usize, own: Metric, u: usize) -> bool
    requires first { useful_length ≤ u }
    requires measured { u < recent.now.place }
    requires kept { recent.now.place ≤ u + 19 }
    requires metric { IsMetricOf recent.now.recording root.now.n2 t own }
    ensures { result ≡ rules_out recent.now.recording root.now.n2 t u }
{
    let other = recent.metric(root.n2, u);
    let theirs = other.peak * own.energy as u128;
    let ours = own.peak * other.energy as u128;
    other.energy > 0 && own.energy > 0 && (theirs > ours || (u < t && theirs == ours))
}

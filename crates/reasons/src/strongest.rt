//! The sample at which a primary signal is strongest.

ghost use Rattle.std.specs.Prelude.{◌≡◌, ◌<◌, ◌≤◌, ◌^◌, All};
ghost use Rattle.pss_search.specs.Hits.{IsInSpan, IsSmallHit, hits_of};
ghost use Rattle.reasons.specs.Strongest.{IsStrongestPlace, thousandths as thousandths_of};

use crate::reason::StrongestPlace;
use pss_search::{HitList, hits_and_strongest, signal_power};
use sample_file::Recording;

/// Replaces `list` by the hits of `recording`, and returns the sample, 128 to 19,345, at which the PSS `n2`, 0 to 2, is
/// strongest, with its fraction of the energy. (own)
pub(crate) fn hits_and_place(recording: &Recording, n2: u8, list: &mut HitList) -> StrongestPlace
    requires { n2 ≤ 2 }
    ensures list { list.new ≡ hits_of recording.now }
    ensures span { All IsInSpan list.new }
    ensures small { All IsSmallHit list.new }
    ensures place { IsStrongestPlace recording.now n2 result }
{
    let best = hits_and_strongest(recording, n2, list);
    StrongestPlace {
        t: best.t,
        ratio: thousandths(best.metric.peak, best.metric.energy, n2),
    }
}

/// Returns the fraction of the energy that the PSS explains, in thousandths, rounded down; 0 without energy.
pub(crate) fn thousandths(peak: u128, energy: u64, n2: u8) -> u64
    requires member { n2 ≤ 2 }
    requires peak { peak < 2 ^ 70 }
    ensures { result ≡ thousandths_of peak energy n2 }
{
    if energy == 0 {
        return 0;
    }
    let whole = energy as u128 * signal_power(n2) as u128;
    (1000 * peak / whole) as u64
}

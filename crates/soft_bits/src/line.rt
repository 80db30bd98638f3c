//! The channel between the pilots.

ghost use Rattle.std.specs.Prelude.{◌≡◌, ◌+◌, ◌-◌, ◌*◌, ◌^◌, ◌<◌, ◌≤◌, All, length};
ghost use Rattle.cs_num.specs.Complex.{IsWithin, value_at};
ghost use Rattle.soft_bits.specs.Estimate.{between_by, line_by};
ghost use Rattle.lte_types.specs.Numerology.{subcarriers};

use cs_num::Cpx;

/// Returns the channel at subcarrier `k`, interpolated between pilots and multiplied by `step`. The pilots are `step`
/// subcarriers apart from `first`, and cover all 72.
pub(crate) fn line(pilots: &[Cpx], step: u8, first: u8, k: u8) -> Cpx
    requires pilots { All (IsWithin (180 * 2 ^ 25)) pilots.now }
    requires whole { step * length pilots.now ≡ subcarriers }
    requires first { first < step }
    requires few { step ≤ 6 }
    requires k { k < subcarriers }
    ensures value { result ≡ line_by step (length pilots.now - 1) (value_at pilots.now) first k }
    ensures small { IsWithin (step * (180 * 2 ^ 25)) result }
{
    let last = pilots.len() - 1;
    if k < first {
        pilots[0].scaled(step)
    } else if (k as usize) < first as usize + step as usize * last {
        between(
            pilots,
            step,
            ((k - first) / step) as usize,
            (k - first) % step,
        )
    } else {
        pilots[last].scaled(step)
    }
}

// Returns the channel `r` subcarriers after pilot `i`, interpolated to the next pilot and multiplied by `step`.
fn between(pilots: &[Cpx], step: u8, i: usize, r: u8) -> Cpx
    requires pilots { All (IsWithin (180 * 2 ^ 25)) pilots.now }
    requires few { step ≤ 6 }
    requires i { i + 1 < length pilots.now }
    requires r { r < step }
    ensures value { result ≡ between_by step (value_at pilots.now) i r }
    ensures small { IsWithin (step * (180 * 2 ^ 25)) result }
{
    pilots[i].scaled(step - r) + pilots[i + 1].scaled(r)
}

//! A noise estimate from the differences between a slot's pilots.

ghost use Rattle.std.specs.Prelude.{◌≡◌, ◌+◌, ◌*◌, ◌^◌, ◌<◌, ◌≤◌, All, length};
ghost use Rattle.cs_num.specs.Complex.{IsWithin, value_at};
ghost use Rattle.evidence.specs.Evidence.{difference_power as difference_power_of, differences, noise_of as noise_by};

use crs::POINT_POWER;
use cs_num::Cpx;

// Returns the noise estimate: `sum`, the sum of the squared second differences over at most four ports, divided by six
// times a reference value's squared magnitude, and rounded down.
pub(crate) fn noise_of(sum: u128) -> u64
    requires { sum ≤ 96 * 2 ^ 70 }
    ensures { result ≡ noise_by sum }
{
    (sum / (6 * POINT_POWER as u128)) as u64
}

// Returns the sum of the squared second differences of an antenna port's pilots. The next pilot in the same symbol is
// `stride` pilots later.
pub(crate) fn differences_of(pilots: &[Cpx], stride: usize) -> u128
    requires some { 2 * stride ≤ length pilots.now }
    requires few { length pilots.now ≤ 24 }
    requires within { All (IsWithin (180 * 2 ^ 25)) pilots.now }
    ensures value { result ≡ differences (length pilots.now) stride (value_at pilots.now) }
    ensures small { result ≤ 24 * 2 ^ 70 }
{
    let mut sum: u128 = 0;
    for i in 0..pilots.len() - 2 * stride {
        sum += difference_power(pilots, stride, i);
    }
    sum
}

// Returns the squared magnitude of the second difference that begins at pilot `i`.
fn difference_power(pilots: &[Cpx], stride: usize, i: usize) -> u128
    requires small { All (IsWithin (180 * 2 ^ 25)) pilots.now }
    requires i { i + 2 * stride < length pilots.now }
    ensures value { result ≡ difference_power_of stride (value_at pilots.now) i }
    ensures bound { result ≤ 2 ^ 70 }
{
    let middle = pilots[i + stride].scaled(2);
    (pilots[i] + pilots[i + 2 * stride] - middle).norm()
}

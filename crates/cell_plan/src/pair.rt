//! Complex gains as pairs of 16-bit numbers, real part first.

ghost use Rattle.std.specs.Prelude.{◌≡◌};
ghost use Rattle.cs_num.specs.Complex.{IsWithin};
ghost use Rattle.cs_num.specs.Gain.{IsGain};
ghost use Rattle.cell_plan.specs.Pair.{gain_of};

use cs_num::{Cpx, Gain};

/// Returns the complex number `number` as a pair, real part first. Its components must have magnitudes up to 32,767.
pub fn pair_of(number: Cpx) -> (i16, i16)
    requires { IsWithin 32767 number }
    ensures { gain_of result ≡ number }
{
    let parts = number.exact_sample();
    (parts.re, parts.im)
}

/// Returns the gain of a pair, real part first. The square of its magnitude must be from 1 to 784.
pub fn gain_of_pair(pair: (i16, i16)) -> Gain
    requires { IsGain (gain_of pair) }
    ensures { result ≡ gain_of pair }
{
    match Gain::new(pair.0, pair.1) {
        Some(gain) => gain,
        None => unreachable!(),
    }
}

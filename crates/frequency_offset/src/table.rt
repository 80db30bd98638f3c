//! The complex exponential W for any integer.

ghost use Rattle.std.specs.Prelude.{◌≡◌};
ghost use Rattle.cs_num.specs.Complex.{IsWithin};
ghost use Rattle.frequency_offset.specs.Turned.{w_of};

use cs_num::Cpx;
use fold128::w;

// Returns the complex exponential W at `angle`, in 1/128 of a cycle.
pub(crate) fn w_at(angle: i64) -> Cpx
    ensures value { result ≡ w_of angle }
    ensures small { IsWithin 16384 result }
{
    w(angle.rem_euclid(128) as usize)
}

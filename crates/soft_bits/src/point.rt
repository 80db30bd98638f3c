//! Soft values of a pair of QPSK symbols that two antenna ports send.

ghost use Rattle.std.specs.Prelude.{◌≡◌, ◌*◌, ◌^◌, ◌≤◌};
ghost use Rattle.finite.specs.Sizes.{AllWithin};
ghost use Rattle.cs_num.specs.Complex.{IsWithin};
ghost use Rattle.soft_bits.specs.Pairs.{first_point, second_point, point_values as values_of_points};

use crate::soft_pairs;
use cs_num::Cpx;

/// Returns the soft values of two QPSK symbols under transmit diversity (TS 36.211 section 6.3.4.3), real part first:
/// -127 to 127, positive for bit 0. `a` and `b` are received over channels `h` and `g`; `energy` is the pilots'.
pub fn point_values(h: Cpx, g: Cpx, energy: u64, a: Cpx, b: Cpx) -> [i16; 4]
    requires h { IsWithin (1080 * 2 ^ 25) h }
    requires g { IsWithin (1080 * 2 ^ 25) g }
    requires energy { energy ≤ 96 * 2 ^ 51 }
    requires first { IsWithin (2 ^ 25) a }
    requires second { IsWithin (2 ^ 25) b }
    ensures values { result ≡ values_of_points h g energy a b }
    ensures range { AllWithin 127 result }
{
    soft_pairs(first_point(h, g, a, b), second_point(h, g, a, b), energy)
}

// Returns the combined amplitude for the first QPSK symbol of a pair, received as `a` and `b` over the channels `h` and
// `g`.
fn first_point(h: Cpx, g: Cpx, a: Cpx, b: Cpx) -> Cpx
    requires h { IsWithin (1080 * 2 ^ 25) h }
    requires g { IsWithin (1080 * 2 ^ 25) g }
    requires a { IsWithin (2 ^ 25) a }
    requires b { IsWithin (2 ^ 25) b }
    ensures value { result ≡ first_point h g a b }
    ensures small { IsWithin (4320 * 2 ^ 50) result }
{
    h.conj().mul(a) + g.mul(b.conj())
}

// Returns the combined amplitude for the second QPSK symbol of a pair, received as `a` and `b` over the channels `h`
// and `g`.
fn second_point(h: Cpx, g: Cpx, a: Cpx, b: Cpx) -> Cpx
    requires h { IsWithin (1080 * 2 ^ 25) h }
    requires g { IsWithin (1080 * 2 ^ 25) g }
    requires a { IsWithin (2 ^ 25) a }
    requires b { IsWithin (2 ^ 25) b }
    ensures value { result ≡ second_point h g a b }
    ensures small { IsWithin (4320 * 2 ^ 50) result }
{
    h.conj().mul(b) - g.mul(a.conj())
}

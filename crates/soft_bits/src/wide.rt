//! Soft values of two QPSK symbols under transmit diversity, each combined from two resource elements.

ghost use Rattle.std.specs.Prelude.{◌≡◌, ◌*◌, ◌^◌, ◌≤◌, ◌<ℤ◌, ◌++◌, int_div, nat_abs, pos};
ghost use Rattle.finite.specs.Sizes.{AllWithin};
ghost use Rattle.cs_num.specs.Complex.{IsWithin};
ghost use Rattle.cs_num.specs.Rounding.{clamped};
ghost use Rattle.soft_bits.specs.Soft.{soft_pair, soft_value};

use cs_num::Cpx;

/// Returns the soft values of two combined amplitudes, real part first, given the pilot energy. Components of the
/// amplitudes have magnitude at most 4320 * 2^50, and the energy is at most 96 * 2^51.
pub fn soft_pairs(first: Cpx, second: Cpx, energy: u64) -> [i16; 4]
    requires first { IsWithin (4320 * 2 ^ 50) first }
    requires second { IsWithin (4320 * 2 ^ 50) second }
    requires energy { energy ≤ 96 * 2 ^ 51 }
    ensures values { result ≡ soft_pair first energy ++ soft_pair second energy }
    ensures range { AllWithin 127 result }
{
    [
        wide_value_of(first.re, energy),
        wide_value_of(first.im, energy),
        wide_value_of(second.re, energy),
        wide_value_of(second.im, energy),
    ]
}

// Returns the soft value of an amplitude's real or imaginary part. Uses 128-bit integers, because six times the part
// may need more than 64 bits.
#[tactic(auto, using(std::proofs::lemmas::Bool::Decides::nat_tests))]
fn wide_value_of(component: i64, energy: u64) -> i16
    requires component { nat_abs component ≤ 4320 * 2 ^ 50 }
    requires energy { energy ≤ 96 * 2 ^ 51 }
    ensures value { result ≡ soft_value component energy }
    ensures range { nat_abs result ≤ 127 }
{
    if energy == 0 {
        0
    } else {
        clamped_quotient(6 * component as i128, energy as i128)
    }
}

// Returns the quotient `top / bottom`, rounded toward zero and clamped to -127 to 127.
fn clamped_quotient(top: i128, bottom: i128) -> i16
    requires { pos 0 <ℤ bottom }
    ensures { result ≡ clamped (int_div top bottom) 127 }
{
    (top / bottom).clamp(-127, 127) as i16
}

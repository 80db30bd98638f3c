//! Soft values of amplitudes.

ghost use Rattle.std.specs.Prelude.{◌≡◌, ◌*◌, ◌^◌, ◌≤◌, ◌<ℤ◌, int_div, nat_abs, pos};
ghost use Rattle.finite.specs.Sizes.{AllWithin};
ghost use Rattle.cs_num.specs.Complex.{IsWithin};
ghost use Rattle.cs_num.specs.Rounding.{clamped};
ghost use Rattle.wide_slot.specs.Lines.{AreWeights, total_weight};
ghost use Rattle.wide_slot.specs.Values.{wide_value, wide_pair};

use crate::amplitude::Amplitude;
use crate::{Weights, WideSlot};

// Returns an amplitude's two soft values, real part first.
pub(crate) fn soft_pair(slot: &WideSlot, amplitude: &Amplitude) -> [i16; 2]
    requires { IsWithin (34560 * 2 ^ 50) amplitude.now }
    ensures values { result ≡ wide_pair slot.now amplitude.now }
    ensures range { AllWithin 127 result }
{
    let blocks = slot.cell().blocks();
    let energy = weighted_energy(slot.weights(), slot.energy());
    [
        soft_value(blocks, energy, amplitude.re()),
        soft_value(blocks, energy, amplitude.im()),
    ]
}

// Returns a pilot energy times the sum of the weights.
fn weighted_energy(weights: Weights, energy: u64) -> u128
    requires weights { AreWeights weights }
    requires energy { energy ≤ 1600 * 2 ^ 51 }
    ensures value { result ≡ total_weight weights * energy }
    ensures few { result ≤ 12800 * 2 ^ 51 }
{
    weights.total() as u128 * energy as u128
}

// Returns the soft value of a component: `blocks` times the component, divided by the energy, rounded toward zero and
// clamped to -127 to 127.
#[tactic(auto, using(std::proofs::lemmas::Bool::Decides::nat_tests))]
fn soft_value(blocks: u8, energy: u128, component: i128) -> i16
    requires energy { energy ≤ 12800 * 2 ^ 51 }
    requires component { nat_abs component ≤ 34560 * 2 ^ 50 }
    ensures value { result ≡ wide_value blocks energy component }
    ensures range { nat_abs result ≤ 127 }
{
    if energy == 0 {
        0
    } else {
        clamped_quotient(blocks as i128 * component, energy as i128)
    }
}

// Returns the quotient `top / bottom`, rounded toward zero and clamped to -127 to 127.
fn clamped_quotient(top: i128, bottom: i128) -> i16
    requires { pos 0 <ℤ bottom }
    ensures { result ≡ clamped (int_div top bottom) 127 }
{
    (top / bottom).clamp(-127, 127) as i16
}

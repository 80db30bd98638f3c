//! Soft values of a resource element, with one antenna port.

ghost use Rattle.std.specs.Prelude.{◌≡◌, ℕ, ◌*◌, ◌^◌, ◌<◌, ◌≤◌, nat_abs};
ghost use Rattle.finite.specs.Sizes.{AllWithin};
ghost use Rattle.cs_num.specs.Complex.{IsWithin, conjugate, times};
ghost use Rattle.lte_types.specs.Carrier.{prefix_of, ports_of};
ghost use Rattle.lte_types.specs.Numerology.{normal, subcarriers};
ghost use Rattle.soft_bits.specs.Soft.{soft_pair, soft_value, soft_values};

use crate::{PortSlot, Ports, Slot};
use cs_num::{Cpx, clamp_div};

/// Returns the soft values at subcarrier `k`, 0 to 71, of `symbol`, 0 to 6: real part first, -127 to 127, positive for
/// bit 0. The channel is estimated (own) from antenna port 0 (TS 36.211 section 6.10.1).
pub fn soft(slot: &Slot, symbol: u8, k: u8) -> [i16; 2]
    requires symbol { symbol < 7 }
    requires k { k < subcarriers }
    ensures values { result ≡ soft_values slot.now symbol k }
    ensures range { AllWithin 127 result }
{
    soft_of(slot, symbol, k)
}

// Returns the two soft values of a resource element in a cell with one antenna port.
pub(crate) fn soft_of<K: Ports>(slot: &PortSlot<K>, symbol: u8, k: u8) -> [i16; 2]
    requires one { ports_of K.pairing.carrier ≡ 1 }
    requires normal { prefix_of K.pairing.carrier ≡ normal }
    requires symbol { symbol < 7 }
    requires k { k < subcarriers }
    ensures values { result ≡ soft_values slot.now symbol k }
    ensures range { AllWithin 127 result }
{
    soft_pair(
        slot.seen(symbol, k),
        slot.pilots(0).channel(k),
        slot.energy(),
    )
}

/// Returns the soft values of the received value `seen`, given three times its channel and the pilot energy. Components
/// have magnitude at most 2^25 and 540 * 2^25, and the energy is at most 24 * 2^51.
pub fn soft_pair(seen: Cpx, channel: Cpx, energy: u64) -> [i16; 2]
    requires seen { IsWithin (2 ^ 25) seen }
    requires channel { IsWithin (540 * 2 ^ 25) channel }
    requires energy { energy ≤ 24 * 2 ^ 51 }
    ensures values { result ≡ soft_pair (times seen (conjugate channel)) energy }
    ensures range { AllWithin 127 result }
{
    let value = seen.mul(channel.conj());
    [value_of(value.re, energy), value_of(value.im, energy)]
}

// Returns the soft value of an equalised value's real or imaginary part.
#[tactic(auto, using(std::proofs::lemmas::Bool::Decides::nat_tests))]
fn value_of(component: i64, energy: u64) -> i16
    requires component { nat_abs component ≤ 1080 * 2 ^ 50 }
    requires energy { energy ≤ 24 * 2 ^ 51 }
    ensures value { result ≡ soft_value component energy }
    ensures range { nat_abs result ≤ 127 }
{
    if energy == 0 {
        0
    } else {
        clamp_div(6 * component, energy as i64, 127)
    }
}

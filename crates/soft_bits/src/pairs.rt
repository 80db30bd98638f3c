//! Soft values of resource elements that are sent in pairs.

ghost use Rattle.std.specs.Prelude.{◌≡◌, ◌*◌, ◌%◌, ◌<◌, All, length};
ghost use Rattle.finite.specs.Sizes.{AllWithin};
ghost use Rattle.soft_bits.specs.Places.{slot_with, in_subframe};
ghost use Rattle.soft_bits.specs.Pairs.{pair_values, paired_by};
ghost use Rattle.lte_types.specs.Numerology.{subcarriers};

use crate::{PortSlot, Ports, point_values, slot_of};
use grid_map::Place;

/// Fills `values` with the soft values of resource elements sent in pairs, two values per element, in order. Symbols 7
/// to 13 belong to `second`. A pair's elements are in one slot, and their count is even.
pub(crate) fn fill_pairs<K: Ports>(
    first: &PortSlot<K>,
    second: &PortSlot<K>,
    places: &[Place],
    values: &mut [i16],
)
    requires inside { All (λ p. (p.symbol < 14) × (p.k < subcarriers)) places.now }
    requires even { length places.now % 2 ≡ 0 }
    requires room { length values.old ≡ 2 * length places.now }
    ensures values { values.new
        ≡ paired_by K.pairing (in_subframe first.now second.now) places.now }
    ensures magnitudes { AllWithin 127 values.new }
{
    for i in 0..places.len() / 2 {
        let four = pair_at(i, first, second, &places[2 * i], &places[2 * i + 1]);
        values[4 * i..4 * i + 4].copy_from_slice(&four);
    }
}

// Returns the four soft values of pair `i`, which is sent at elements `p` and `q`.
fn pair_at<K: Ports>(
    i: usize,
    first: &PortSlot<K>,
    second: &PortSlot<K>,
    p: &Place,
    q: &Place,
) -> [i16; 4]
    requires p { p.now.k < subcarriers }
    requires q { q.now.k < subcarriers }
    ensures values { result ≡ pair_values K.pairing i
        (slot_with first.now second.now p.now.symbol) p.now q.now }
    ensures magnitudes { AllWithin 127 result }
{
    let slot = slot_of(first, second, p.symbol);
    let ports = K::pair(i);
    point_values(
        slot.channel(ports.0, p.k),
        slot.channel(ports.1, p.k),
        slot.energy(),
        slot.seen(p.symbol % 7, p.k),
        slot.seen(q.symbol % 7, q.k),
    )
}

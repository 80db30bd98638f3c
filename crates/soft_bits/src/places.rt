//! Soft values of a channel's resource elements.

ghost use Rattle.std.specs.Prelude.{◌≡◌, ◌*◌, ◌<◌, All, length};
ghost use Rattle.finite.specs.Sizes.{AllWithin};
ghost use Rattle.lte_types.specs.Carrier.{prefix_of, ports_of};
ghost use Rattle.lte_types.specs.Numerology.{normal, subcarriers};
ghost use Rattle.soft_bits.specs.Places.{slot_with, in_subframe, values_at, placed_values};

use crate::value::soft_of;
use crate::{PortSlot, Ports};
use grid_map::Place;

/// Fills `values` with the soft values of resource elements in a subframe, two per element, in order, for a cell with
/// one antenna port. Symbols 7 to 13 belong to `second`.
pub(crate) fn fill_soft<K: Ports>(
    first: &PortSlot<K>,
    second: &PortSlot<K>,
    places: &[Place],
    values: &mut [i16],
)
    requires one { ports_of K.pairing.carrier ≡ 1 }
    requires normal { prefix_of K.pairing.carrier ≡ normal }
    requires inside { All (λ p. (p.symbol < 14) × (p.k < subcarriers)) places.now }
    requires room { length values.old ≡ 2 * length places.now }
    ensures values { values.new ≡ placed_values (in_subframe first.now second.now) places.now }
    ensures magnitudes { AllWithin 127 values.new }
{
    for i in 0..places.len() {
        let pair = soft_at(slot_of(first, second, places[i].symbol), &places[i]);
        values[2 * i] = pair[0];
        values[2 * i + 1] = pair[1];
    }
}

/// Returns the slot of a subframe that contains `symbol`: `first` for symbols 0 to 6, `second` for 7 to 13.
pub fn slot_of<'a, S>(first: &'a S, second: &'a S, symbol: u8) -> &'a S
    ensures { result.now ≡ slot_with first.now second.now symbol }
{
    if symbol < 7 { first } else { second }
}

// Returns the two soft values of a resource element in its slot. The element's symbol is numbered 0 to 13 in the
// subframe.
fn soft_at<K: Ports>(slot: &PortSlot<K>, place: &Place) -> [i16; 2]
    requires one { ports_of K.pairing.carrier ≡ 1 }
    requires normal { prefix_of K.pairing.carrier ≡ normal }
    requires inside { place.now.k < subcarriers }
    ensures values { result ≡ values_at slot.now place.now }
    ensures magnitudes { AllWithin 127 result }
{
    soft_of(slot, place.symbol % 7, place.k)
}

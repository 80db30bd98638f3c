//! Reading a slot: the soft values of its resource elements, for any number of antenna ports.

ghost use Rattle.std.specs.Prelude.{◌≡◌, ◌*◌, ◌%◌, ◌<◌, All, length};
ghost use Rattle.finite.specs.Sizes.{AllWithin};
ghost use Rattle.lte_types.specs.declared.carrier.Carrier.{Carrier as CarrierValue};
ghost use Rattle.soft_bits.specs.Soft.{SeenSlot, AreSmall};
ghost use Rattle.soft_bits.specs.Front.{LooksAtFront};
ghost use Rattle.soft_bits.specs.Places.{Valuing, in_subframe};
ghost use Rattle.soft_bits.specs.Pairs.{valued_by};
ghost use Rattle.lte_types.specs.Numerology.{subcarriers};

use crate::pairs::fill_pairs;
use crate::places::fill_soft;
use crate::{PortSlot, Ports};
use cs_num::Cpx;
use grid_map::Place;
use lte_types::{Carrier, CellId, SUBCARRIERS};

/// A received slot, and the way to compute its soft values.
pub trait ReadSlot: Drop {
    ghost seen_as: { Self → SeenSlot };

    ghost carrier: { CarrierValue };

    ghost values_by: { Valuing };

    /// Returns the slot whose symbols are `seen`, by subcarrier. `number` is 0 to 19, and components have magnitude at
    /// most 2^25.
    fn of(seen: [[Cpx; SUBCARRIERS]; 7], number: u8, id: CellId) -> Self
        requires number { number < 20 }
        requires small { AreSmall seen }
        ensures { seen_as result ≡ record { symbols = seen; number = number; identity = id } };

    /// Returns the transmission scheme, cyclic prefix and port count, of the slots that the type reads.
    fn carrier() -> Carrier
        ensures { result ≡ carrier };

    /// Returns the cell identity, 0 to 503.
    fn cell(&self) -> CellId
        ensures { result ≡ (seen_as self.now).identity };

    /// Returns the slot number in the frame, 0 to 19.
    fn slot_number(&self) -> u8
        ensures value { result ≡ (seen_as self.now).number }
        ensures valid { result < 20 };

    /// Fills `values` with the soft values of an even number of resource elements, two per element, in the subframe
    /// that consists of this slot and `second`. Symbols 7 to 13 belong to `second`.
    fn fill(&self, second: &Self, places: &[Place], values: &mut [i16])
        requires inside { All (λ p. (p.symbol < 14) × (p.k < subcarriers)) places.now }
        requires even { length places.now % 2 ≡ 0 }
        requires room { length values.old ≡ 2 * length places.now }
        ensures values { values.new ≡ values_by (in_subframe (seen_as self.now) (seen_as second.now)) places.now }
        ensures magnitudes { AllWithin 127 values.new };

    /// A law: for resource elements in a slot's first four symbols, soft values depend only on the slot's first five.
    fn looks_at_front()
        ensures { LooksAtFront values_by };
}

impl<K: Ports> ReadSlot for PortSlot<K> {
    ghost seen_as = { λ s. s };

    ghost carrier = { K.pairing.carrier };

    ghost values_by = { valued_by K.pairing };

    fn of(seen: [[Cpx; SUBCARRIERS]; 7], number: u8, id: CellId) -> PortSlot<K> {
        PortSlot::new(seen, number, id)
    }

    fn carrier() -> Carrier {
        K::carrier()
    }

    fn cell(&self) -> CellId {
        self.id()
    }

    fn slot_number(&self) -> u8 {
        self.number()
    }

    fn fill(&self, second: &PortSlot<K>, places: &[Place], values: &mut [i16]) {
        if K::carrier().ports() == 1 {
            fill_soft(self, second, places, values);
        } else {
            fill_pairs(self, second, places, values);
        }
    }

    fn looks_at_front() {}
}

/// Fills `values` with the soft values of an even number of resource elements in one slot, two per element.
pub fn fill_slot<S: ReadSlot>(slot: &S, places: &[Place], values: &mut [i16])
    requires inside { All (λ p. (p.symbol < 14) × (p.k < subcarriers)) places.now }
    requires even { length places.now % 2 ≡ 0 }
    requires room { length values.old ≡ 2 * length places.now }
    ensures values { values.new ≡ S.values_by (λ p. S.seen_as slot.now) places.now }
    ensures magnitudes { AllWithin 127 values.new }
{
    slot.fill(slot, places, values);
}

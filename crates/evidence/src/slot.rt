//! The measurements of a slot.

ghost use Rattle.std.specs.Prelude.{◌≡◌, ◌*◌, ◌/◌, ◌^◌, ◌<◌, ◌≤◌, [], length};
ghost use Rattle.explain.specs.Frame.{IsWhole, broadcast_slot};
ghost use Rattle.explain.specs.Receiver.{broadcast_by};
ghost use Rattle.lte_types.specs.declared.carrier.Carrier.TheVariants.{LongPrefix as Long};
ghost use Rattle.soft_bits.specs.Pairs.{valued_by};
ghost use Rattle.evidence.specs.Evidence.{SlotShown as SlotShownAs, shown_by, shown_in as shown_in_of, with_port};

use crate::noise::differences_of;
use arrayvec::ArrayVec;
use explain::slot_of;
use long_prefix::long_frame;
use lte_types::CellPlace;
use pbch::{Received, received};
use sample_file::Recording;
use soft_bits::{Pilots, PortSlot, Ports};
use std::marker::Model;

/// The measurements of a frame's slot with the PBCH: the pilots' energy and squared second differences, over all
/// antenna ports; each port's pilots; and the PBCH's soft values. (own)
#[derive(Drop)]
pub struct SlotShown {
    power: u64,
    differences: u128,
    channel: ArrayVec<Pilots, 4>,
    values: Received,
}

impl Model for SlotShown {
    ghost Value = { SlotShownAs };

    ghost view = { λ s. record {
      power = s.power;
      differences = s.differences;
      channel = s.channel.items;
      values = s.values;
    } };

    ghost invariant = { λ s.
        (s.differences ≤ length s.channel.items * (24 * 2 ^ 70)) × (length s.channel.items ≤ 4) };
}

impl SlotShown {
    // Returns the measurements before any port's pilots are added.
    fn new(power: u64, values: Received) -> SlotShown
        ensures { result ≡ record { power = power; differences = 0; channel = []; values = values } }
    {
        SlotShown {
            power,
            differences: 0,
            channel: ArrayVec::new(),
            values,
        }
    }

    // Adds an antenna port's pilots, and the squared second differences of these pilots.
    fn add(&mut self, pilots: &Pilots)
        requires room { length self.old.channel < 4 }
        requires step { 0 < pilots.now.step }
        requires some { 2 * (6 / pilots.now.step) ≤ length pilots.now.pilots }
        ensures { self.new ≡ with_port self.old pilots.now }
    {
        let stride = 6 / pilots.step();
        self.differences += differences_of(pilots.values(), stride as usize);
        self.channel.push(pilots.copied());
    }

    // Returns the energy of the pilots over all antenna ports.
    pub(crate) fn power(&self) -> u64
        ensures { result ≡ self.now.power }
    {
        self.power
    }

    // Returns the sum of the pilots' squared second differences over all antenna ports.
    pub(crate) fn differences(&self) -> u128
        ensures value { result ≡ self.now.differences }
        ensures small { result ≤ 96 * 2 ^ 70 }
    {
        self.differences
    }

    /// Returns the pilots of each antenna port, in the order of the ports.
    pub fn channel(&self) -> &[Pilots]
        ensures { result.now ≡ self.now.channel }
    {
        &self.channel
    }

    /// Returns the PBCH's soft values in received order: for each resource element the real part, then the imaginary
    /// part.
    pub fn values(&self) -> &[i16]
        ensures { result.now ≡ self.now.values }
    {
        self.values.slice()
    }
}

// Measures the slot with the PBCH in frame `j` of a cell with the normal cyclic prefix.
pub(crate) fn shown_of<K: Ports>(recording: &Recording, place: CellPlace, j: u8) -> SlotShown
    requires { IsWhole recording.now place.start j }
    ensures { result ≡ shown_by K.pairing.carrier (broadcast_slot recording.now place.id place.start j)
        (broadcast_by (valued_by K.pairing) recording.now place j) }
{
    let slot: PortSlot<K> = slot_of(recording, place, j, 1);
    let mut shown = SlotShown::new(slot.energy(), received(&slot));
    for port in 0..K::carrier().ports() {
        shown.add(slot.pilots(port));
    }
    shown
}

// Measures the slot with the PBCH in frame `j` of a cell with the extended cyclic prefix.
pub(crate) fn shown_of_long(recording: &Recording, place: CellPlace, j: u8) -> SlotShown
    requires { IsWhole recording.now place.start j }
    ensures { result ≡ shown_in_of Long recording.now place j }
{
    let frame = long_frame(recording, place, j);
    let mut shown = SlotShown::new(frame.energy, frame.values);
    shown.add(&frame.pilots);
    shown
}

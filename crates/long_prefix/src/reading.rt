//! The receiver for the extended cyclic prefix.

ghost use Rattle.std.specs.Prelude.{◌≡◌, ◌+◌, ◌*◌, ◌^◌, ◌<◌, ◌≤◌, All, length};
ghost use Rattle.finite.specs.Lists.{values_below};
ghost use Rattle.finite.specs.Sizes.{AllWithin};
ghost use Rattle.cs_num.specs.Complex.{IsWithin};
ghost use Rattle.lte_types.specs.declared.carrier.Carrier.TheVariants.{LongPrefix};
ghost use Rattle.lte_types.specs.Numerology.{frame_length, extended, useful_start, subcarriers};
ghost use Rattle.crs.specs.Reference.{long_prefix};
ghost use Rattle.observe.specs.Seen.{seen_symbol};
ghost use Rattle.soft_bits.specs.Soft.{AreSmall, pattern_energy};
ghost use Rattle.soft_bits.specs.Lines.{line_of, ports_energy};
ghost use Rattle.soft_bits.specs.Kept.{slot_of, seen_line};
ghost use Rattle.explain.specs.Frame.{IsWhole};
ghost use Rattle.long_prefix.specs.Entries.{long_slot, ArePilots, long_pair, long_values, long_prefix_receiver};

use cs_num::Cpx;
use explain::{FrameReader, Informed, NumberedCell, Scheme};
use grid_map::{Place, long_places};
use lte_types::{Carrier, CellPlace, FRAME_LENGTH, Prefix, SUBCARRIERS, Sib1Reason};
use observe::symbol;
use pbch::Received;
use sample_file::Recording;
use sib1_reader::Decoders;
use soft_bits::{Pilots, Seen, energy_of, pilots_of, soft_pair};

/// The receiver for the extended cyclic prefix. It accepts MIBs with any antenna port count, and does not read SIB1.
/// (own)
pub struct ExtendedPrefix;

impl FrameReader for ExtendedPrefix {
    ghost receiver = { long_prefix_receiver };

    fn scheme(&self) -> Scheme {
        Scheme {
            carrier: Carrier::LongPrefix,
            most_frames: 1,
            ports: None,
        }
    }

    fn received(&self, recording: &Recording, place: CellPlace, j: u8) -> Received {
        long_frame(recording, place, j).values
    }

    fn system_of(
        &self,
        recording: &Recording,
        cell: &NumberedCell,
        work: &mut Decoders,
    ) -> Informed {
        Informed::not_read(Sib1Reason::LongPrefix)
    }
}

// Returns the 72 demodulated subcarrier values of symbol `l`, 0 to 5, in slot 1 of a frame that begins at sample
// `frame`.
fn symbol_of(recording: &Recording, frame: usize, l: usize) -> [Cpx; SUBCARRIERS]
    requires within { frame + frame_length ≤ length recording.now }
    requires small { frame < 2 ^ 40 }
    requires l { l < 6 }
    ensures value { result ≡ seen_symbol recording.now (useful_start extended frame 1 l) }
    ensures small { All (IsWithin (2 ^ 25)) result }
{
    symbol(recording, Prefix::EXTENDED.useful_start(frame, 1, l))
}

// Returns the demodulated subcarrier values of the six symbols in slot 1 of a frame that begins at sample `frame`.
fn symbols_of(recording: &Recording, frame: usize) -> [[Cpx; SUBCARRIERS]; 6]
    requires within { frame + frame_length ≤ length recording.now }
    requires small { frame < 2 ^ 40 }
    ensures values { result
        ≡ values_below 6 (λ symbol. seen_symbol recording.now (useful_start extended frame 1 symbol)) }
    ensures small { AreSmall result }
{
    [
        symbol_of(recording, frame, 0),
        symbol_of(recording, frame, 1),
        symbol_of(recording, frame, 2),
        symbol_of(recording, frame, 3),
        symbol_of(recording, frame, 4),
        symbol_of(recording, frame, 5),
    ]
}

/// Measurements of a frame's slot 1 with the extended cyclic prefix, which carries the PBCH. (own)
#[derive(Drop)]
pub struct LongFrame {
    /// The 24 pilots in subcarrier order. A pilot is a received reference element of symbol 0 or 3, times the conjugate
    /// of the sent value.
    pub pilots: Pilots,
    /// The sum of the received reference elements' squared magnitudes.
    pub energy: u64,
    /// The 432 PBCH soft values in received order, two per resource element, the real part first.
    pub values: Received,
}

/// Measures slot 1 in frame `j` of a cell with the extended cyclic prefix. The frame lies within `recording`. The pilot
/// energy is at most 24 * 2^51.
pub fn long_frame(recording: &Recording, place: CellPlace, j: u8) -> LongFrame
    requires { IsWhole recording.now place.start j }
    ensures pilots { result.pilots
        ≡ seen_line (line_of LongPrefix 0 (long_slot recording.now place.id place.start j))
        (long_slot recording.now place.id place.start j) }
    ensures energy { result.energy ≡ ports_energy LongPrefix (long_slot recording.now place.id place.start j) }
    ensures few { result.energy ≤ 24 * 2 ^ 51 }
    ensures values { result.values ≡ long_values (long_slot recording.now place.id place.start j) }
    ensures length { length result.values ≡ 432 }
{
    let frame = place.start() as usize + FRAME_LENGTH * j as usize;
    let symbols = symbols_of(recording, frame);
    let seen = Seen {
        symbols: &symbols,
        number: 1,
        id: place.id(),
        carrier: Carrier::LongPrefix,
    };
    let pilots = pilots_of(&seen, 0);
    let energy = energy_of(&seen);
    let values = Received::new(&values_of(&seen, &pilots, energy));
    LongFrame {
        pilots,
        energy,
        values,
    }
}

// Returns the slot's 432 PBCH soft values, given its pilots and their energy.
fn values_of(seen: &Seen, pilots: &Pilots, energy: u64) -> [i16; 432]
    requires symbols { length seen.now.symbols.now ≡ 6 }
    requires pilots { ArePilots (slot_of seen.now) pilots.now }
    requires energy { energy ≡ pattern_energy long_prefix (slot_of seen.now) }
    requires few { energy ≤ 24 * 2 ^ 51 }
    ensures values { result ≡ long_values (slot_of seen.now) }
    ensures magnitudes { AllWithin 127 result }
{
    let places = long_places(seen.id);
    let mut values = [0; 432];
    for i in 0..216 {
        let pair = pair_at(seen, pilots, energy, places[i]);
        values[2 * i] = pair[0];
        values[2 * i + 1] = pair[1];
    }
    values
}

// Returns the two soft values of a resource element, given the slot's pilots and their energy.
fn pair_at(seen: &Seen, pilots: &Pilots, energy: u64, place: Place) -> [i16; 2]
    requires symbols { length seen.now.symbols.now ≡ 6 }
    requires pilots { ArePilots (slot_of seen.now) pilots.now }
    requires energy { energy ≡ pattern_energy long_prefix (slot_of seen.now) }
    requires few { energy ≤ 24 * 2 ^ 51 }
    requires symbol { place.symbol < 4 }
    requires k { place.k < subcarriers }
    ensures values { result ≡ long_pair (slot_of seen.now) place }
    ensures magnitudes { AllWithin 127 result }
{
    let here = seen.symbols[place.symbol as usize][place.k as usize];
    soft_pair(here, pilots.channel(place.k), energy)
}

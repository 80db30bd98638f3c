//! An entry's measurements, and the room of its MIB's codeword.

ghost use Rattle.std.specs.Prelude.{◌≡◌};
ghost use Rattle.explain.specs.Entries.{place_of, IsEntryFor};
ghost use Rattle.explain.specs.Laws.{IsEntryOfSome};
ghost use Rattle.explain.specs.Readings.{IsReadingFor};
ghost use Rattle.explain.specs.Receiver.{Receiver, hits_by};
ghost use Rattle.evidence.specs.Evidence.{shown_in as shown_in_of, HasRoom, IsMeasuredFor, IsInRange};

use crate::SlotShown;
use crate::listing::numbers_and_slot;
use code_distance::room;
use explain::Reading;
use lte_types::{Carrier, Entry, Evidence};
use sample_file::Recording;
use tailbite::{Trellis, least};

/// An entry's measurements, and the room of its MIB's codeword. (own)
#[derive(Clone, Copy, Debug, PartialEq, Eq)]
pub struct Measured {
    /// The measurements.
    pub numbers: Evidence,
    /// The sum of the 15 smallest of the 120 combined soft values, taken in the direction of the MIB's coded bits. Every
    /// other codeword costs at least the cost plus the room; if the room is positive, no other codeword fits as well.
    pub room: i64,
}

// Returns an entry's measurements and room, and the measurements of its slot.
pub(crate) fn measured_and_slot(
    recording: &Recording,
    carrier: Carrier,
    entry: &Entry,
    reading: &Reading,
    work: &mut Trellis,
) -> (Measured, SlotShown)
    ghost receiver: { Receiver }
    requires carrier { carrier ≡ receiver.carrier }
    requires entry { IsEntryOfSome (IsEntryFor receiver recording.now)
        (hits_by receiver.carrier recording.now) entry.now }
    requires reading { IsReadingFor receiver recording.now entry.now reading.now }
    ensures measured { IsMeasuredFor receiver recording.now entry.now result.0 }
    ensures range { IsInRange result.0.numbers }
    ensures slot { result.1 ≡ shown_in_of receiver.carrier recording.now (place_of entry.now) entry.now.frame }
{
    let (numbers, slot) = numbers_and_slot(recording, carrier, entry, reading);
    let room = room_of(reading, work);
    (Measured { numbers, room }, slot)
}

// Returns the room of the word that is decoded from a reading's soft values.
fn room_of(reading: &Reading, work: &mut Trellis) -> i64
    ensures { HasRoom reading.now.sums result }
{
    let sums = reading.sums.rows();
    let (word, _cost) = least(&sums, work);
    room(&sums, &word)
}

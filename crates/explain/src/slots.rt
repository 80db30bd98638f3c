//! The slots of a cell's frames, with the normal cyclic prefix.

ghost use Rattle.std.specs.Prelude.{◌≡◌, ◌<◌, length};
ghost use Rattle.soft_bits.specs.Front.{HaveOneFront};
ghost use Rattle.explain.specs.Frame.{IsWhole, frame_at, seen_slot, broadcast_slot as broadcast_slot_of};
ghost use Rattle.explain.specs.Receiver.{broadcast_by, subframes_by};
ghost use Rattle.sib1_reader.specs.Attempt.{IsAttempt, IsAttemptBlock};

use crate::frame::{broadcast_front, symbols_of};
use lte_types::{CellPlace, Mib};
use pbch::{Received, received};
use sample_file::Recording;
use sib1_reader::{Decoded, Decoders, decoded_in};
use soft_bits::ReadSlot;

/// Returns demodulated slot `number`, 0 to 19, in frame `j` of the cell at `place`. The frame lies within the
/// recording.
pub fn slot_of<S: ReadSlot>(recording: &Recording, place: CellPlace, j: u8, number: u8) -> S
    requires whole { IsWhole recording.now place.start j }
    requires number { number < 20 }
    ensures { S.seen_as result ≡ seen_slot recording.now (frame_at place.start j) number place.id }
{
    S::of(symbols_of(recording, place, j, number), number, place.id())
}

// Returns the PBCH slot in frame `j` of a cell, demodulated only in the symbols on which the PBCH soft values depend.
// The others are zero.
fn front_of<S: ReadSlot>(recording: &Recording, place: CellPlace, j: u8) -> S
    requires { IsWhole recording.now place.start j }
    ensures { HaveOneFront (S.seen_as result) (broadcast_slot_of recording.now place.id place.start j) }
{
    S::of(broadcast_front(recording, place, j), 1, place.id())
}

/// Returns the PBCH soft values in frame `j` of a cell. The frame lies within the recording.
pub fn received_in<S: ReadSlot>(recording: &Recording, place: CellPlace, j: u8) -> Received
    requires { IsWhole recording.now place.start j }
    ensures values { result ≡ broadcast_by S.values_by recording.now place j }
    ensures length { length result ≡ 480 }
{
    S::looks_at_front();
    let slot: S = front_of(recording, place, j);
    received(&slot)
}

/// Returns the attempt to read system information in subframe 5 of frame `j` of a cell, and the transport block that
/// carried it. The frame lies within the recording.
pub(crate) fn attempt_at<S: ReadSlot>(
    recording: &Recording,
    place: CellPlace,
    j: u8,
    mib: Mib,
    work: &mut Decoders,
) -> Decoded
    requires { IsWhole recording.now place.start j }
    ensures attempt { IsAttempt (subframes_by S.carrier S.values_by recording.now place j mib.duration mib.resource)
        result.attempt }
    ensures block { IsAttemptBlock (subframes_by S.carrier S.values_by recording.now place j mib.duration mib.resource)
        result.attempt result.block.items }
{
    let first: S = slot_of(recording, place, j, 10);
    let second: S = slot_of(recording, place, j, 11);
    decoded_in(&first, &second, mib, work)
}

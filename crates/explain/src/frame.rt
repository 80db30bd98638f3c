//! The frames of a recording.

ghost use Rattle.std.specs.Prelude.{◌≡◌, ℕ, ◌+◌, ◌^◌, ◌<◌, ◌≤◌, ◌↔◌, [], IsTrue, All, length, slice_index_or};
ghost use Rattle.cs_num.specs.Complex.{IsWithin};
ghost use Rattle.lte_types.specs.Numerology.{frame_length, normal, useful_start};
ghost use Rattle.observe.specs.Seen.{seen_symbol};
ghost use Rattle.soft_bits.specs.Soft.{AreSmall};
ghost use Rattle.explain.specs.Frame.{IsWhole, frame_at, seen_slot, broadcast_slot as broadcast_slot_of};

use crate::slots::slot_of;
use cs_num::Cpx;
use lte_types::{CellPlace, FRAME_LENGTH, Prefix, SUBCARRIERS};
use observe::symbol;
use sample_file::Recording;
use soft_bits::Slot;

/// Returns whether frame `j` of the cell at `place` lies within the recording.
pub fn is_whole(recording: &Recording, place: CellPlace, j: u8) -> bool
    ensures { IsTrue result ↔ IsWhole recording.now place.start j }
{
    place.start() as usize + FRAME_LENGTH * (j as usize + 1) <= recording.len()
}

/// Returns how many of a cell's frames 0 to 7 lie within the recording.
pub(crate) fn whole_frames(recording: &Recording, place: CellPlace) -> u8
    ensures few { result ≤ 8 }
    ensures whole { (j : ℕ) → j < result → IsWhole recording.now place.start j }
    ensures all { (j : ℕ) → j < 8 → IsWhole recording.now place.start j → j < result }
{
    let length = recording.len().saturating_sub(place.start() as usize);
    (length / FRAME_LENGTH).min(8) as u8
}

// Returns demodulated symbol `l`, 0 to 6, of slot `number` in a frame that begins at sample `frame`.
fn symbol_of(recording: &Recording, frame: usize, number: u8, l: usize) -> [Cpx; SUBCARRIERS]
    requires within { frame + frame_length ≤ length recording.now }
    requires small { frame < 2 ^ 40 }
    requires number { number < 20 }
    requires l { l < 7 }
    ensures value { result ≡ seen_symbol recording.now (useful_start normal frame number l) }
    ensures small { All (IsWithin (2 ^ 25)) result }
{
    symbol(
        recording,
        Prefix::NORMAL.useful_start(frame, number as usize, l),
    )
}

// Returns the seven demodulated symbols of slot `number` in a frame that begins at sample `frame`.
fn symbols_in(recording: &Recording, frame: usize, number: u8) -> [[Cpx; SUBCARRIERS]; 7]
    requires within { frame + frame_length ≤ length recording.now }
    requires small { frame < 2 ^ 40 }
    requires number { number < 20 }
    ensures symbols { (identity : ℕ) → result ≡ (seen_slot recording.now frame number identity).symbols }
    ensures small { AreSmall result }
{
    [
        symbol_of(recording, frame, number, 0),
        symbol_of(recording, frame, number, 1),
        symbol_of(recording, frame, number, 2),
        symbol_of(recording, frame, number, 3),
        symbol_of(recording, frame, number, 4),
        symbol_of(recording, frame, number, 5),
        symbol_of(recording, frame, number, 6),
    ]
}

/// Returns the seven demodulated symbols of slot `number`, 0 to 19, in frame `j` of a cell, with 72 subcarriers each.
/// The frame lies within the recording; components have magnitude at most 2^25.
pub(crate) fn symbols_of(
    recording: &Recording,
    place: CellPlace,
    j: u8,
    number: u8,
) -> [[Cpx; SUBCARRIERS]; 7]
    requires whole { IsWhole recording.now place.start j }
    requires number { number < 20 }
    ensures symbols { result ≡ (seen_slot recording.now (frame_at place.start j) number place.id).symbols }
    ensures small { AreSmall result }
{
    let frame = place.start() as usize + FRAME_LENGTH * j as usize;
    symbols_in(recording, frame, number)
}

// Returns a symbol of zeros, for symbols that no receiver reads.
fn zeros() -> [Cpx; SUBCARRIERS]
    ensures { All (IsWithin (2 ^ 25)) result }
{
    [Cpx::ZERO; SUBCARRIERS]
}

// Returns the first five demodulated symbols of slot 1 in a frame that begins at sample `frame`, followed by two zero
// symbols, which are not read.
fn front_in(recording: &Recording, frame: usize) -> [[Cpx; SUBCARRIERS]; 7]
    requires within { frame + frame_length ≤ length recording.now }
    requires small { frame < 2 ^ 40 }
    ensures front { (identity symbol : ℕ) → symbol < 5 → slice_index_or result symbol []
        ≡ slice_index_or (seen_slot recording.now frame 1 identity).symbols symbol [] }
    ensures small { AreSmall result }
{
    [
        symbol_of(recording, frame, 1, 0),
        symbol_of(recording, frame, 1, 1),
        symbol_of(recording, frame, 1, 2),
        symbol_of(recording, frame, 1, 3),
        symbol_of(recording, frame, 1, 4),
        zeros(),
        zeros(),
    ]
}

/// Returns the first five demodulated symbols of the PBCH slot in frame `j`, then two zero symbols, which carry neither
/// PBCH nor reference signals. The frame lies within the recording; components have magnitude at most 2^25.
pub(crate) fn broadcast_front(
    recording: &Recording,
    place: CellPlace,
    j: u8,
) -> [[Cpx; SUBCARRIERS]; 7]
    requires { IsWhole recording.now place.start j }
    ensures front { (symbol : ℕ) → symbol < 5 → slice_index_or result symbol []
        ≡ slice_index_or (broadcast_slot_of recording.now place.id place.start j).symbols symbol [] }
    ensures small { AreSmall result }
{
    let frame = place.start() as usize + FRAME_LENGTH * j as usize;
    front_in(recording, frame)
}

/// Returns the demodulated slot that carries the PBCH in frame `j` of a cell. The frame lies within the recording.
pub fn broadcast_slot(recording: &Recording, place: CellPlace, j: u8) -> Slot
    requires { IsWhole recording.now place.start j }
    ensures { result ≡ broadcast_slot_of recording.now place.id place.start j }
{
    slot_of(recording, place, j, 1)
}

//! The frames that are tried.

ghost use Rattle.std.specs.Prelude.{◌≡◌, ℕ, ◌+◌, ◌<◌, ◌≤◌, ◌↔◌, true, IfOk, length};
ghost use Rattle.halving.specs.Wide.{narrowed};
ghost use Rattle.wide_cell.specs.Cell.{fits_rate};
ghost use Rattle.explain.specs.Frame.{IsWhole};
ghost use Rattle.explain.specs.System.{IsTried};
ghost use Rattle.wide_list.specs.Frames.{IsFrame, slot_at};

use crate::offers::FrameOffers;
use crate::{FoundCell, WideWork};
use halving::WideRecording;
use lte_types::{FRAME_LENGTH, Sfn};
use std::alloc::{AllocError, Global};
use tones::Tones;
use wide_slot::{Weights, WideSlot};

/// Returns how many of a cell's even-numbered frames are tried. The cell's first frame begins at sample `start`, 0 to
/// 19,199, and has the number `sfn`.
pub(crate) fn tried_frames(wide: &WideRecording, start: u32, sfn: Sfn) -> u8
    requires { start < 19200 }
    ensures tried { (i : ℕ) → (i < result) ↔ IsTried (narrowed wide.now) start sfn i }
    ensures bounds { (1 ≤ result) × (result ≤ 8) }
{
    let whole = (narrow_length(wide) - start as usize) / FRAME_LENGTH;
    let even = (whole + 1 - sfn.value() as usize % 2) / 2;
    even.min(8) as u8
}

// Returns the length of a wide recording at 1.92 million samples per second.
fn narrow_length(wide: &WideRecording) -> usize
    ensures value { result ≡ length (narrowed wide.now) }
    ensures long { 57600 ≤ result }
{
    wide.as_slice().len() >> wide.rate()
}

/// Receives what frame `j` of a cell offers. The frame lies within the recording, which contains all subcarriers. Fails
/// only if an allocation fails.
pub(crate) fn frame_in(
    alloc: Global,
    wide: &WideRecording,
    found: &FoundCell,
    j: u8,
    work: &mut WideWork,
) -> Result<FrameOffers, AllocError>
    requires fits { fits_rate found.now.cell.blocks wide.now.rate ≡ true }
    requires whole { IsWhole (narrowed wide.now) found.now.start j }
    ensures { IfOk result (IsFrame wide.now found.now.cell found.now.start found.now.sfn j) }
{
    let first = slot_in(alloc, &work.tones, wide, found, j, 10)?;
    let second = slot_in(alloc, &work.tones, wide, found, j, 11)?;
    let number = found.sfn.value() + u16::from(j);
    FrameOffers::of_slots(alloc, &first, &second, number, &mut work.decoders.trellis)
}

// Receives slot `number` of a cell's frame `j`, which lies within the recording.
fn slot_in(
    alloc: Global,
    tones: &Tones,
    wide: &WideRecording,
    found: &FoundCell,
    j: u8,
    number: u8,
) -> Result<WideSlot, AllocError>
    requires fits { fits_rate found.now.cell.blocks wide.now.rate ≡ true }
    requires whole { IsWhole (narrowed wide.now) found.now.start j }
    requires number { number < 20 }
    ensures { IfOk result (λ slot. slot ≡ slot_at wide.now found.now.cell found.now.start j number) }
{
    let frame = found.start as usize + FRAME_LENGTH * j as usize;
    WideSlot::receive(
        alloc,
        tones,
        wide,
        &found.cell,
        frame,
        number,
        Weights::SMOOTHING,
    )
}

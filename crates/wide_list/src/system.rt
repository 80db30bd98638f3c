//! The system information of a cell, from the frames that are tried: the first eight even-numbered frames that lie
//! within the recording.
//!
//! SIB1 is read from the first of these frames that has any alone. If none has, it is read from frames together, and if
//! these have none, the reason is that of the first frame.

ghost use Rattle.std.specs.Prelude.{◌≡◌, ℕ, ◌<◌, ◌≤◌, [], true, IfOk, Err, length};
ghost use Rattle.lte_types.specs.declared.sib1_reason.Sib1Reason.{Sib1Reason as ReasonValue};
ghost use Rattle.lte_types.specs.Ranges.{IsValid};
ghost use Rattle.halving.specs.Wide.{Wide, narrowed};
ghost use Rattle.wide_cell.specs.Cell.{Cell, fits_rate};
ghost use Rattle.wide_block.specs.Answer.{fields_in, bits_in};
ghost use Rattle.explain.specs.System.{IsReadFrom};
ghost use Rattle.wide_list.specs.Frames.{IsAlone};
ghost use Rattle.wide_list.specs.System.{AreTried, AreUnread, IsWideSystem};
ghost use Rattle.wide_list.specs.Bits.{AreSystemBits};

use crate::alone::{answer_alone, first_reason};
use crate::offers::FrameOffers;
use crate::together::first_together;
use crate::tried::{frame_in, tried_frames};
use crate::{FoundCell, WideWork};
use explain::even_frame;
use halving::WideRecording;
use lte_types::{Sib1, Sib1Reason};
use std::alloc::{AllocError, Global};
use turbo_dec::Work;
use wide_block::{SystemBlock, fields_of};

/// Returns the system information by the rules at the head of this file. The cell's first frame begins before sample
/// 19,200, and the recording contains all its subcarriers. Fails only if an allocation fails. (own)
pub fn system_in(
    alloc: Global,
    wide: &WideRecording,
    found: &FoundCell,
    work: &mut WideWork,
) -> Result<Result<Sib1, Sib1Reason>, AllocError>
    requires fits { fits_rate found.now.cell.blocks wide.now.rate ≡ true }
    requires early { found.now.start < 19200 }
    ensures system { IfOk result (IsWideSystem wide.now found.now.cell found.now.start found.now.sfn) }
    ensures valid { IfOk result (λ answer. IfOk answer IsValid) }
{
    Ok(fields_of(system_block_in(alloc, wide, found, work)?))
}

/// Returns the system information as `system_in` does, with the transport block that carries the fields.
pub(crate) fn system_block_in(
    alloc: Global,
    wide: &WideRecording,
    found: &FoundCell,
    work: &mut WideWork,
) -> Result<Result<SystemBlock, Sib1Reason>, AllocError>
    requires fits { fits_rate found.now.cell.blocks wide.now.rate ≡ true }
    requires early { found.now.start < 19200 }
    ensures system { IfOk result (λ answer.
        IsWideSystem wide.now found.now.cell found.now.start found.now.sfn (fields_in answer)) }
    ensures bits { IfOk result (λ answer.
        AreSystemBits wide.now found.now.cell found.now.start found.now.sfn (bits_in answer)) }
{
    let mut frames = Vec::with_capacity(alloc, 8)?;
    let alone = read_alone(alloc, wide, found, &mut frames, work)?;
    Ok(answer_of(alone, &frames, &mut work.decoders.turbo))
}

// Returns the fields that frames have alone, or else the first fields that they have together, or else the reason.
// Fields are returned with their transport block.
fn answer_of(
    alone: Result<SystemBlock, Sib1Reason>,
    frames: &[FrameOffers],
    work: &mut Work,
) -> Result<SystemBlock, Sib1Reason>
    requires { length frames.now ≤ 8 }
    ensures system { (wide : Wide) (cell : Cell) (start sfn : ℕ) →
        IsReadFrom (IsAlone wide cell start sfn) (narrowed wide) start sfn (fields_in alone) →
        ((reason : ReasonValue) → alone ≡ Err reason → AreTried wide cell start sfn frames.now) →
        IsWideSystem wide cell start sfn (fields_in result) }
    ensures bits { (wide : Wide) (cell : Cell) (start sfn : ℕ) →
        IsReadFrom (IsAlone wide cell start sfn) (narrowed wide) start sfn (fields_in alone) →
        ((reason : ReasonValue) → alone ≡ Err reason → AreTried wide cell start sfn frames.now) →
        IfOk alone (λ found. AreSystemBits wide cell start sfn found.bits.items) →
        AreSystemBits wide cell start sfn (bits_in result) }
{
    match alone {
        Ok(found) => Ok(found),
        Err(reason) => together_or(frames, reason, work),
    }
}

// Returns the first fields that frames have together, with their transport block, or else `reason`.
fn together_or(
    frames: &[FrameOffers],
    reason: Sib1Reason,
    work: &mut Work,
) -> Result<SystemBlock, Sib1Reason>
    requires { length frames.now ≤ 8 }
    ensures system { (wide : Wide) (cell : Cell) (start sfn : ℕ) →
        AreUnread wide cell start sfn reason frames.now → IsWideSystem wide cell start sfn (fields_in result) }
    ensures bits { (wide : Wide) (cell : Cell) (start sfn : ℕ) →
        AreUnread wide cell start sfn reason frames.now → AreSystemBits wide cell start sfn (bits_in result) }
{
    match first_together(frames, work) {
        Some(found) => Ok(found),
        None => Err(reason),
    }
}

// Returns the fields of the first tried frame that has any alone, with their transport block, or else the reason of the
// first. If there are no fields, `frames` then has what all tried frames offer.
fn read_alone(
    alloc: Global,
    wide: &WideRecording,
    found: &FoundCell,
    frames: &mut Vec<FrameOffers>,
    work: &mut WideWork,
) -> Result<Result<SystemBlock, Sib1Reason>, AllocError>
    requires fits { fits_rate found.now.cell.blocks wide.now.rate ≡ true }
    requires early { found.now.start < 19200 }
    requires none { frames.old.items ≡ [] }
    ensures read { IfOk result (λ answer. IsReadFrom (IsAlone wide.now found.now.cell found.now.start found.now.sfn)
        (narrowed wide.now) found.now.start found.now.sfn (fields_in answer)) }
    ensures bits { IfOk result (λ answer. IfOk answer (λ block.
        AreSystemBits wide.now found.now.cell found.now.start found.now.sfn block.bits.items)) }
    ensures tried { IfOk result (λ answer. (reason : ReasonValue) → answer ≡ Err reason →
        AreTried wide.now found.now.cell found.now.start found.now.sfn frames.new.items) }
    ensures few { length frames.new.items ≤ 8 }
{
    let count = tried_frames(wide, found.start, found.sfn);
    let mut reason = Sib1Reason::NoControl;
    for i in 0..count {
        let frame = frame_in(alloc, wide, found, even_frame(found.sfn, i), work)?;
        let other = match answer_alone(&frame, &mut work.decoders.turbo) {
            Ok(block) => return Ok(Ok(block)),
            Err(other) => other,
        };
        reason = first_reason(i as usize, reason, other);
        frames.push(frame)?;
    }
    Ok(Err(reason))
}

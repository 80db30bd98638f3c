//! How close a cell's first frame is to a MIB.

ghost use Rattle.std.specs.Prelude.{◌≡◌, ℕ, ℤ, ◌+◌, ◌*◌, ◌<◌, ◌≤◌, List, MatchOption};
ghost use Rattle.std.specs.List.{flat_map};
ghost use Rattle.finite.specs.Sizes.{RowsWithin};
ghost use Rattle.lte_types.specs.Frames.{frames_from};
ghost use Rattle.pbch.specs.Values.{summed_values};
ghost use Rattle.pbch.specs.Master.{DecodesNothing};
ghost use Rattle.explain.specs.Frame.{IsWhole};
ghost use Rattle.explain.specs.Receiver.{sums_by};
ghost use Rattle.reasons.specs.Attempt.{HasPorts, IsAttempt, IsClosest, IsClosestBefore};

use crate::reason::Attempt;
use explain::FrameReader;
use lte_types::{CellId, CellPlace};
use pbch::{Received, master_of, sums_of, total_of};
use sample_file::Recording;
use tailbite::{Trellis, least};

/// Returns the attempt to decode a MIB from a cell's first frame alone, at the phase with the minimum ratio of cost to
/// total.
pub(crate) fn closest_attempt<F: FrameReader>(
    reader: &F,
    recording: &Recording,
    place: CellPlace,
    work: &mut Trellis,
) -> Attempt
    requires { IsWhole recording.now place.start 0 }
    ensures { IsClosest (λ phase. sums_by F.receiver recording.now place (frames_from 1 0 phase)) result }
{
    let frame = reader.received(recording, place, 0);
    let size = frame.len();
    let frames = [frame];
    let first = attempt_at(place.id(), size, 0, &frames, work);
    let second = attempt_at(place.id(), size, 1, &frames, work);
    let third = attempt_at(place.id(), size, 2, &frames, work);
    let fourth = attempt_at(place.id(), size, 3, &frames, work);
    closer(closer(closer(first, second), third), fourth)
}

// Returns the attempt to decode a MIB from one frame at `phase`, with `size` bits per frame in the period.
fn attempt_at(
    id: CellId,
    size: usize,
    phase: u8,
    frames: &[Received; 1],
    work: &mut Trellis,
) -> Attempt
    requires size { size ≤ 480 }
    requires phase { phase < 4 }
    ensures { IsAttempt (summed_values id (size * phase) (flat_map (λ frame. frame) frames.now)) phase result }
{
    let sums = sums_of(id, size * phase as usize, frames);
    attempt_of(&sums, phase, work)
}

// Returns the attempt to decode a MIB from a frame's combined soft values at `phase`.
fn attempt_of(sums: &[[i32; 3]; 40], phase: u8, work: &mut Trellis) -> Attempt
    requires { RowsWithin 2032 sums.now }
    ensures { IsAttempt sums.now phase result }
{
    let total = total_of(sums);
    let (_word, cost) = least(sums, work);
    let ports = ports_of(sums, work);
    Attempt {
        phase,
        cost,
        total,
        ports,
    }
}

// Returns the antenna port count of the MIB that combined soft values decode to, if any.
fn ports_of(sums: &[[i32; 3]; 40], work: &mut Trellis) -> Option<u8>
    requires { RowsWithin 2032 sums.now }
    ensures { MatchOption result (DecodesNothing sums.now) (HasPorts sums.now) }
{
    match master_of(sums, work) {
        Some(master) => Some(master.ports),
        None => None,
    }
}

// Returns `next` if its ratio of cost to total is lower than that of `best`, otherwise `best`.
fn closer(best: Attempt, next: Attempt) -> Attempt
    ensures { (values : ℕ → List (List ℤ)) → IsClosestBefore values next.phase best →
        IsAttempt (values next.phase) next.phase next → IsClosestBefore values (next.phase + 1) result }
{
    let ours = best.cost as u64 * next.total as u64;
    let theirs = next.cost as u64 * best.total as u64;
    if theirs < ours { next } else { best }
}

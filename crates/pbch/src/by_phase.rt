//! MIB decoding in consecutive frames, by the phase of the first frame.

ghost use Rattle.std.specs.Prelude.{◌≡◌, ℕ, ◌+◌, ◌*◌, ◌^◌, ◌<◌, ◌≤◌, All, nat_abs, length, slice_index_or, pos, None, MatchOption};
ghost use Rattle.std.specs.List.{flat_map};
ghost use Rattle.finite.specs.Sizes.{AllWithin, RowsWithin};
ghost use Rattle.finite.specs.Sums.{total_below};
ghost use Rattle.pbch.specs.Values.{summed_values, identity_of};
ghost use Rattle.pbch.specs.Master.{total, DecodesMaster, DecodesNothing, IsMaster, HasNoMaster, AreMasters, sums_at};

use crate::block::{mib_of, ports_of};
use crate::broadcast::{sums_by, values};
use crate::{CellScrambling, Master, Received, WordSums};
use soft_bits::Slot;
use tailbite::{Trellis, least};

/// Decodes the MIB (TS 36.212 section 5.3.1, TS 36.331 section 6.2.2). Returns `None` if all combined values are 0,
/// over a quarter by magnitude opposes the minimum-cost word, no CRC mask fits, or the bandwidth code exceeds 5.
pub fn explain_slots(slots: &[Slot], phase: u8, work: &mut Trellis) -> Option<Master>
    requires some { 0 < length slots.now }
    requires period { phase + length slots.now ≤ 4 }
    requires number { All (λ slot. slot.number ≡ 1) slots.now }
    requires cell { All (λ slot. slot.identity ≡ identity_of slots.now) slots.now }
    ensures { MatchOption result (HasNoMaster slots.now phase) (IsMaster slots.now phase) }
{
    master_of(&values(slots, phase), work)
}

/// The MIBs decoded in a cell's consecutive frames, by the phase of the first frame. (own)
#[derive(Clone, Copy)]
pub struct ByPhase {
    /// The MIB decoded at each phase, if there is one.
    pub at: [Option<Master>; 4],
    /// The combined soft values at each phase.
    pub sums: [WordSums; 4],
}

// The MIB decoded at one phase, if there is one, and the combined soft values.
#[derive(Clone, Copy)]
struct AtPhase {
    master: Option<Master>,
    sums: WordSums,
}

/// Decodes the MIB at phases 0 to 3 of the first of `frames`, each with `size` bits in the period: 480, or 432 with the
/// extended cyclic prefix. Phases at which the frames exceed the period have no MIB.
pub fn masters(
    cell: &CellScrambling,
    size: usize,
    frames: &[Received],
    work: &mut Trellis,
) -> ByPhase
    requires { size ≤ 480 }
    ensures masters { AreMasters cell.now size (length frames.now) (flat_map (λ frame. frame) frames.now) result.at }
    ensures sums { (phase : ℕ) → phase < 4 → phase + length frames.now ≤ 4 →
        sums_at result.sums phase ≡ summed_values cell.now (size * phase) (flat_map (λ frame. frame) frames.now) }
{
    let first = decoded_at(cell, size, 0, frames, work);
    let second = decoded_at(cell, size, 1, frames, work);
    let third = decoded_at(cell, size, 2, frames, work);
    let fourth = decoded_at(cell, size, 3, frames, work);
    ByPhase {
        at: [first.master, second.master, third.master, fourth.master],
        sums: [first.sums, second.sums, third.sums, fourth.sums],
    }
}

// Decodes the MIB if the first frame is at `phase` in the period of four.
fn decoded_at(
    cell: &CellScrambling,
    size: usize,
    phase: u8,
    frames: &[Received],
    work: &mut Trellis,
) -> AtPhase
    requires size { size ≤ 480 }
    requires phase { phase < 4 }
    ensures master { phase + length frames.now ≤ 4 →
        let values = summed_values cell.now (size * phase) (flat_map (λ frame. frame) frames.now) in
        MatchOption result.master (DecodesNothing values) (DecodesMaster values) }
    ensures sums { phase + length frames.now ≤ 4 →
        result.sums ≡ summed_values cell.now (size * phase) (flat_map (λ frame. frame) frames.now) }
    ensures beyond { 4 < phase + length frames.now → result.master ≡ None }
{
    if frames.len() > 4 - phase as usize {
        return AtPhase {
            master: None,
            sums: WordSums::new(&[[0; 3]; 40]),
        };
    }
    let sums = sums_by(cell, size * phase as usize, frames);
    AtPhase {
        master: master_of(&sums, work),
        sums: WordSums::new(&sums),
    }
}

/// Decodes the MIB from the combined soft values of the 40-bit word, three per bit, of magnitude at most 2^20. Returns
/// `None` under the conditions that `explain_slots` lists.
pub fn master_of(values: &[[i32; 3]; 40], work: &mut Trellis) -> Option<Master>
    requires { RowsWithin (2 ^ 20) values.now }
    ensures { MatchOption result (DecodesNothing values.now) (DecodesMaster values.now) }
{
    let total = total_of(values);
    if total == 0 {
        return None;
    }
    let (word, cost) = least(values, work);
    if 4 * cost as u64 > total as u64 {
        return None;
    }
    let ports = ports_of(&word)?;
    let mib = mib_of(&word)?;
    Some(Master { ports, mib, cost })
}

// Returns the sum of the magnitudes of the three combined soft values at one index of the 40-bit word.
fn weight_of(place: &[i32; 3]) -> u32
    requires { AllWithin (2 ^ 20) place.now }
    ensures value { result ≡ total_below 3 (λ t. nat_abs (slice_index_or place.now t (pos 0))) }
    ensures bound { result ≤ 3 * 2 ^ 20 }
{
    place[0].unsigned_abs() + place[1].unsigned_abs() + place[2].unsigned_abs()
}

/// Returns the sum of the magnitudes of the 40-bit word's combined soft values, each at most 2^20 in magnitude.
pub fn total_of(values: &[[i32; 3]; 40]) -> u32
    requires { RowsWithin (2 ^ 20) values.now }
    ensures { result ≡ total values.now }
{
    let mut total = 0;
    for place in values {
        total += weight_of(place);
    }
    total
}

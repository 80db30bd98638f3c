//! Soft values of the PBCH.

ghost use Rattle.std.specs.Prelude.{◌≡◌, ℕ, ◌+◌, ◌*◌, ◌<◌, ◌≤◌, All, length};
ghost use Rattle.std.specs.List.{flat_map};
ghost use Rattle.finite.specs.Sizes.{AllWithin, RowsWithin};
ghost use Rattle.arrayvec.specs.ArrayVec.{array_vec_len};
ghost use Rattle.pbch.specs.Values.{received_values_by, summed_values, identity_of, coded_values};

use crate::{CellScrambling, Received};
use arrayvec::ArrayVec;
use conv_code::combine_from;
use grid_map::pbch_places;
use lte_types::CellId;
use soft_bits::{ReadSlot, Slot, fill_slot};

/// Returns the 40-bit word's soft values, combined over 1 to 4 consecutive frames in one period (TS 36.211 section 6.6,
/// TS 36.212 section 5.3.1). `slots` has each frame's slot 1; `phase` is the first frame's number modulo 4.
pub fn values(slots: &[Slot], phase: u8) -> [[i32; 3]; 40]
    requires some { 0 < length slots.now }
    requires period { phase + length slots.now ≤ 4 }
    requires number { All (λ slot. slot.number ≡ 1) slots.now }
    requires cell { All (λ slot. slot.identity ≡ identity_of slots.now) slots.now }
    ensures values { result ≡ coded_values slots.now phase }
    ensures magnitudes { RowsWithin 2032 result }
{
    let mut frames = ArrayVec::<Received, 4>::new();
    for slot in slots {
        frames.push(received(slot));
    }
    sums_of(slots[0].id(), 480 * phase as usize, frames.as_slice())
}

/// Returns the 480 PBCH soft values, not descrambled, in slot 1 of a frame with the normal cyclic prefix.
pub fn received<S: ReadSlot>(slot: &S) -> Received
    ensures values { result ≡ received_values_by S.values_by (S.seen_as slot.now) }
    ensures count { length result ≡ 480 }
{
    let places = pbch_places(slot.cell());
    let mut values = [0; 480];
    fill_slot(slot, &places, &mut values);
    Received::new(&values)
}

/// Returns the 40-bit word's soft values, combined from consecutive frames, the first at bit `first` in the period of
/// 1,920 bits, 1,728 with the extended prefix (TS 36.211 section 6.6.1). `first` plus 480 per frame is at most 1,920.
pub fn sums_of(id: CellId, first: usize, frames: &[Received]) -> [[i32; 3]; 40]
    requires period { first + 480 * length frames.now ≤ 1920 }
    ensures values { result ≡ summed_values id first (flat_map (λ frame. frame) frames.now) }
    ensures magnitudes { RowsWithin 2032 result }
{
    sums_by(&CellScrambling::new(id), first, frames)
}

// Returns the combined soft values of the 40-bit word as `sums_of` does, given the cell's scrambling bits.
pub(crate) fn sums_by(cell: &CellScrambling, first: usize, frames: &[Received]) -> [[i32; 3]; 40]
    requires period { first + 480 * length frames.now ≤ 1920 }
    ensures values { result ≡ summed_values cell.now first (flat_map (λ frame. frame) frames.now) }
    ensures magnitudes { RowsWithin 2032 result }
{
    let mut values = joined(frames);
    cell.descramble(first, values.as_mut_slice());
    combine_from(first, values.as_slice())
}

// Returns the soft values of at most four frames, one after the other.
fn joined(frames: &[Received]) -> ArrayVec<i16, 1920>
    requires { length frames.now ≤ 4 }
    ensures values { result.items ≡ flat_map (λ frame. frame) frames.now }
    ensures count { array_vec_len result ≤ 480 * length frames.now }
    ensures magnitudes { AllWithin 127 result.items }
{
    let mut values = ArrayVec::new();
    for frame in frames {
        let _fits = values.try_extend_from_slice(frame.slice());
    }
    values
}

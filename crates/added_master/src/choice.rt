//! The choice among port counts, phases and frame numbers.

ghost use Rattle.std.specs.Prelude.{◌≡◌, ◌⊎◌, ◌<◌, ◌≤◌, length};
ghost use Rattle.added_master.specs.Sums.{added_sums as added_sums_of};
ghost use Rattle.added_master.specs.Master.{DecodesAdded};
ghost use Rattle.added_master.specs.Choice.{IsChoice, IsMasterOf, frames_for, better as better_of, IsDecodedWith};

use crate::AddedMaster;
use crate::decoding::decode_added;
use crate::sums::{added_sums, period_sums};
use lte_types::CellId;
use pbch::{Received, WordSums};
use tailbite::Trellis;

/// Returns the MIB with the most matches to which a position's frames decode, if there is one. `one`, `two` and `four`
/// have the soft values for one, two and four antenna ports, in at most 17 frames. (own)
pub fn master_of_frames(
    id: CellId,
    one: &[Received],
    two: &[Received],
    four: &[Received],
    work: &mut Trellis,
) -> Option<AddedMaster>
    requires one { length one.now ≤ 17 }
    requires two { length two.now ≤ 17 }
    requires four { length four.now ≤ 17 }
    ensures { IsMasterOf id (frames_for one.now two.now four.now) result }
{
    let first = master_with(id, 1, one, work);
    let second = better(first, master_with(id, 2, two, work));
    better(second, master_with(id, 4, four, work))
}

// Returns the chosen MIB with `ports` antenna ports, 1, 2 or 4.
fn master_with(
    id: CellId,
    ports: u8,
    frames: &[Received],
    work: &mut Trellis,
) -> Option<AddedMaster>
    requires ports { (ports ≡ 1) ⊎ (ports ≡ 2) ⊎ (ports ≡ 4) }
    requires few { length frames.now ≤ 17 }
    ensures { IsChoice (IsDecodedWith id ports frames.now) result }
{
    let mut best = None;
    for phase in 0..4_usize {
        let sums = period_sums(id, phase, frames);
        best = better(best, master_at(ports, phase as u8, &sums, work));
    }
    best
}

// Returns the chosen MIB with `ports` antenna ports, 1, 2 or 4, if the first frame's number modulo 4 is `phase`. `sums`
// has the combined soft values in each period.
fn master_at(ports: u8, phase: u8, sums: &[WordSums; 5], work: &mut Trellis) -> Option<AddedMaster>
    requires ports { (ports ≡ 1) ⊎ (ports ≡ 2) ⊎ (ports ≡ 4) }
    ensures { IsChoice (λ m. (m.ports ≡ ports) × (m.phase ≡ phase)
        × DecodesAdded (added_sums_of sums.now m.mib.upper) m) result }
{
    let mut best = None;
    for upper in 0..256_usize {
        let added = added_sums(sums, upper as u8);
        best = better(best, decode_added(&added, ports, phase, upper as u8, work));
    }
    best
}

// Returns the MIB with more matches, or `first` if both have as many.
fn better(first: Option<AddedMaster>, second: Option<AddedMaster>) -> Option<AddedMaster>
    ensures { result ≡ better_of first second }
{
    match (first, second) {
        (Some(a), Some(b)) if a.matches < b.matches => Some(b),
        (None, Some(b)) => Some(b),
        _ => first,
    }
}

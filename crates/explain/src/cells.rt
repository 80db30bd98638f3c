//! The cell list of a recording with one antenna port, by the rules of `explain_by`.

ghost use Rattle.std.specs.Prelude.{◌≡◌, ◌<◌, All, IfOk};
ghost use Rattle.std.specs.List.{AllZip};
ghost use Rattle.finite.specs.Sizes.{RowsWithin};
ghost use Rattle.lte_types.specs.Ranges.{IsValid};
ghost use Rattle.pbch.specs.Master.{DecodesMaster};
ghost use Rattle.explain.specs.Readings.{IsReading};
ghost use Rattle.explain.specs.Entries.{IsExplained, IsInList, master_of};
ghost use Rattle.explain.specs.Entries.{place_of as place_of_entry, values_of_entry};

use crate::frame::broadcast_slot;
use crate::one_port::OnePort;
use crate::{EntryList, Workspace, explain_by};
use arrayvec::ArrayVec;
use lte_types::{CellPlace, Entry};
use pbch::{Received, received, sums_of};
use sample_file::Recording;

/// Replaces `list` with a recording's cell list for one antenna port, by the rules of `explain_by`, and the content of
/// `work` with the reading of each entry. Does not allocate. (own)
pub fn explain(recording: &Recording, work: &mut Workspace, list: &mut EntryList)
    ensures list { IsExplained recording.now list.new }
    ensures readings { AllZip (IsReading recording.now) list.new work.new }
    ensures valid { All (λ entry. IfOk entry.sib1 IsValid) list.new }
{
    explain_by(&OnePort, recording, work, list);
}

/// Returns the combined PBCH soft values for the listed `entry`, by index and stream of the codeword. Their magnitude
/// is at most 2,032, and their minimum-cost codeword gives the entry's MIB, ports and cost.
pub fn values_of(recording: &Recording, entry: &Entry) -> [[i32; 3]; 40]
    requires { IsInList recording.now entry.now }
    ensures values { result ≡ values_of_entry recording.now entry.now }
    ensures master { DecodesMaster result (master_of entry.now) }
    ensures magnitudes { RowsWithin 2032 result }
{
    let place = place_in(entry);
    let mut frames = ArrayVec::<Received, 4>::new();
    for m in 0..entry.frames {
        frames.push(received(&broadcast_slot(recording, place, entry.frame + m)));
    }
    sums_of(entry.id, 480 * entry.phase as usize, frames.as_slice())
}

/// Returns the place of the cell of `entry`, whose start is below 19,200 samples.
pub fn place_in(entry: &Entry) -> CellPlace
    requires { entry.now.start < 19200 }
    ensures { result ≡ place_of_entry entry.now }
{
    match CellPlace::new(entry.id, entry.start) {
        Some(place) => place,
        None => unreachable!(),
    }
}

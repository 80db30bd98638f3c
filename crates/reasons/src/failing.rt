//! The first rule that a cell fails at a hit.

ghost use Rattle.std.specs.Prelude.{◌≡◌, ◌%◌, ◌≤◌, true, false};
ghost use Rattle.lte_types.specs.CellPlace.{Place};
ghost use Rattle.pss_search.specs.Hits.{IsInSpan, IsSmallHit};
ghost use Rattle.explain.specs.Receiver.{HasRoom, has_step_before, place_by};
ghost use Rattle.reasons.specs.Reason.{IsFirstFailing, HasNoMib, no_room, other_cell as other_cell_of};
ghost use Rattle.reasons.specs.Reason.{ratio_of as ratio_in};

use crate::attempts::closest_attempt;
use crate::reason::{EarlyHit, OtherCell, Reason, UnreadCell};
use crate::strongest::thousandths;
use explain::FrameReader;
use lte_types::{Carrier, CellId, CellPlace, Hit};
use sample_file::Recording;
use sss_detect::{group_choice_with, place_with, ranking_with};
use tailbite::Trellis;

/// Returns the first rule that the cell with identity `id` fails at `hit`, which belongs to its primary signal. The
/// list has no entry with `id`.
pub(crate) fn first_failing<F: FrameReader>(
    reader: &F,
    recording: &Recording,
    hit: &Hit,
    id: CellId,
    work: &mut Trellis,
) -> Reason
    requires span { IsInSpan hit.now }
    requires small { IsSmallHit hit.now }
    ensures { IsFirstFailing F.receiver recording.now id hit.now result }
{
    let carrier = reader.scheme().carrier;
    let step = carrier.prefix().step();
    if step <= hit.t as usize {
        failing_with_room(reader, recording, hit, id, work)
    } else {
        Reason::NoRoom(EarlyHit {
            t: hit.t,
            ratio: ratio_of(hit),
            step,
        })
    }
}

// Returns the first rule that the cell with identity `id` fails at `hit`, if the recording contains the useful part of
// the preceding symbol, which carries the secondary signal.
fn failing_with_room<F: FrameReader>(
    reader: &F,
    recording: &Recording,
    hit: &Hit,
    id: CellId,
    work: &mut Trellis,
) -> Reason
    requires room { HasRoom F.receiver.carrier hit.now }
    requires small { IsSmallHit hit.now }
    ensures { IsFirstFailing F.receiver recording.now id hit.now result }
{
    let carrier = reader.scheme().carrier;
    let place = place_of(recording, hit, carrier);
    if place.id() == id {
        no_mib(reader, recording, hit, place, work)
    } else {
        Reason::OtherIdentity(other_cell(recording, hit, carrier, id))
    }
}

// Returns the place of the hit's cell: the cell identity and the sample at which its first frame starts.
fn place_of(recording: &Recording, hit: &Hit, carrier: Carrier) -> CellPlace
    requires { HasRoom carrier hit.now }
    ensures { result ≡ place_by carrier recording.now hit.now }
{
    let end = recording.len();
    prove!(hit.t as usize + 128 <= end);
    place_with(recording, hit, carrier.prefix())
}

// Returns the reason `NoMib` for a hit, with the attempt that shows how close the first frame of its cell is to a MIB.
fn no_mib<F: FrameReader>(
    reader: &F,
    recording: &Recording,
    hit: &Hit,
    place: CellPlace,
    work: &mut Trellis,
) -> Reason
    requires place { place ≡ place_by F.receiver.carrier recording.now hit.now }
    requires span { IsInSpan hit.now }
    requires small { IsSmallHit hit.now }
    ensures { HasNoMib F.receiver recording.now hit.now result }
{
    let end = recording.len();
    let start = place.start();
    prove!(start as usize + 19_200 <= end);
    let attempt = closest_attempt(reader, recording, place, work);
    Reason::NoMib(UnreadCell {
        t: hit.t,
        ratio: ratio_of(hit),
        start,
        attempt,
    })
}

// Returns the report on a hit whose cell has another identity than `id`, with the scores of both.
fn other_cell(recording: &Recording, hit: &Hit, carrier: Carrier, id: CellId) -> OtherCell
    requires room { HasRoom carrier hit.now }
    requires small { IsSmallHit hit.now }
    ensures { result ≡ other_cell_of carrier recording.now id hit.now }
{
    let end = recording.len();
    prove!(hit.t as usize + 128 <= end);
    let prefix = carrier.prefix();
    let ranking = ranking_with(recording, hit, prefix);
    let own = group_choice_with(recording, hit, prefix, id.n1());
    OtherCell {
        t: hit.t,
        ratio: ratio_of(hit),
        id: place_of(recording, hit, carrier).id(),
        best: ranking.best,
        own,
    }
}

// Returns the fraction of the energy at a hit that the primary signal explains, in thousandths, rounded down.
fn ratio_of(hit: &Hit) -> u64
    requires span { IsInSpan hit.now }
    requires small { IsSmallHit hit.now }
    ensures { result ≡ ratio_in hit.now }
{
    thousandths(hit.peak, hit.energy, hit.n2)
}

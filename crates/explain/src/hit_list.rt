//! The hits that a receiver uses.

ghost use Rattle.std.specs.Prelude.{◌≡◌, ◌≤◌, All, drop, filter, length};
ghost use Rattle.std.specs.List.{AllPairs};
ghost use Rattle.pss_search.specs.Hits.{IsInSpan};
ghost use Rattle.pss_search.specs.Laws.{IsEarlier};
ghost use Rattle.explain.specs.Receiver.{HasRoom, has_step_before, place_by};

use lte_types::{Carrier, CellPlace, Hit, USEFUL_LENGTH};
use sample_file::Recording;
use sss_detect::place_with;

// Returns the number of leading hits that are too early: the useful part of the preceding symbol, which carries the
// secondary signal, begins before the recording.
pub(crate) fn early_hits(hits: &[Hit], carrier: Carrier) -> usize
    requires span { All IsInSpan hits.now }
    requires order { AllPairs IsEarlier hits.now }
    ensures within { result ≤ length hits.now }
    ensures later { filter (has_step_before carrier) hits.now ≡ drop result hits.now }
{
    let step = carrier.prefix().step();
    for (at, hit) in hits.iter().enumerate() {
        if step <= hit.t as usize {
            return at;
        }
    }
    hits.len()
}

// Returns the place of the hit's cell: the cell identity and the sample at which its first frame starts.
pub(crate) fn detected_place(recording: &Recording, hit: &Hit, carrier: Carrier) -> CellPlace
    requires { HasRoom carrier hit.now }
    ensures { result ≡ place_by carrier recording.now hit.now }
{
    let end = recording.len();
    prove!(hit.t as usize + USEFUL_LENGTH <= end);
    place_with(recording, hit, carrier.prefix())
}

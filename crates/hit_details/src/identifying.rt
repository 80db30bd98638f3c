//! Cell identities of hits.

ghost use Rattle.std.specs.Prelude.{◌≡◌, ◌≤◌, All, IfOk, map};
ghost use Rattle.sample_file.specs.Recording.{IsRecording};
ghost use Rattle.pss_search.specs.Hits.{IsInSpan};
ghost use Rattle.hit_details.specs.Details.{identified as identified_in, identified_by};

use crate::hits::IdentifiedHit;
use lte_types::{Half, Hit};
use sample_file::Recording;
use sss_detect::{cell_id, frame_start, identity};
use std::alloc::{AllocError, Global};

/// Returns `hits`, in order, with the cell identity and frame start that `recording` gives for each. Fails only if an
/// allocation fails. (own)
pub fn identified_hits(
    alloc: Global,
    recording: &Recording,
    hits: &[Hit],
) -> Result<Vec<IdentifiedHit>, AllocError>
    requires recording { IsRecording recording.now }
    requires span { All IsInSpan hits.now }
    ensures { IfOk result (λ found. found.items ≡ map (identified_in recording.now) hits.now) }
{
    let mut found = Vec::with_capacity(alloc, hits.len())?;
    for hit in hits {
        found.push(identity_of(recording, hit))?;
    }
    Ok(found)
}

// Returns a hit with its cell identity, half-frame and frame start.
fn identity_of(recording: &Recording, hit: &Hit) -> IdentifiedHit
    requires recording { IsRecording recording.now }
    requires span { IsInSpan hit.now }
    ensures { result ≡ identified_in recording.now hit.now }
{
    let (n1, half) = identity(recording, hit);
    identified(hit, n1, half)
}

/// Returns `hit` with its cell identity and frame start, given the SSS group `n1` and the half-frame.
pub(crate) fn identified(hit: &Hit, n1: u16, half: Half) -> IdentifiedHit
    requires group { n1 ≤ 167 }
    requires member { hit.now.n2 ≤ 2 }
    ensures { result ≡ identified_by hit.now (n1, half) }
{
    IdentifiedHit {
        hit: *hit,
        id: cell_id(n1, hit.n2),
        half,
        start: frame_start(hit, half),
    }
}

//! Hits with the numbers in their metrics.

ghost use Rattle.std.specs.Prelude.{◌≡◌, All, IfOk, map};
ghost use Rattle.sample_file.specs.Recording.{IsRecording};
ghost use Rattle.pss_search.specs.Hits.{IsInSpan, IsSmallHit};
ghost use Rattle.hit_details.specs.Details.{measured as measured_of, measured_id as measured_id_of};

use crate::hits::{MeasuredHit, MeasuredId};
use crate::identifying::identified;
use lte_types::{Hit, Prefix};
use pss_search::signal_power;
use sample_file::Recording;
use sss_detect::ranking_with;
use std::alloc::{AllocError, Global};

/// Returns `hits`, in order, with the numbers in their metrics. Fails only if an allocation fails. (own)
pub fn measured_hits(alloc: Global, hits: &[Hit]) -> Result<Vec<MeasuredHit>, AllocError>
    requires span { All IsInSpan hits.now }
    requires small { All IsSmallHit hits.now }
    ensures { IfOk result (λ list. list.items ≡ map measured_of hits.now) }
{
    let mut list = Vec::with_capacity(alloc, hits.len())?;
    for hit in hits {
        list.push(measured(hit))?;
    }
    Ok(list)
}

/// Returns `hits`, in order, with their cell identities and SSS rankings in `recording`, and the numbers in their
/// metrics. Fails only if an allocation fails. (own)
pub fn measured_ids(
    alloc: Global,
    recording: &Recording,
    hits: &[Hit],
) -> Result<Vec<MeasuredId>, AllocError>
    requires recording { IsRecording recording.now }
    requires span { All IsInSpan hits.now }
    requires small { All IsSmallHit hits.now }
    ensures { IfOk result (λ list. list.items ≡ map (measured_id_of recording.now) hits.now) }
{
    let mut list = Vec::with_capacity(alloc, hits.len())?;
    for hit in hits {
        list.push(measured_id(recording, hit))?;
    }
    Ok(list)
}

// Returns a hit with the numbers in its metric.
fn measured(hit: &Hit) -> MeasuredHit
    requires span { IsInSpan hit.now }
    requires small { IsSmallHit hit.now }
    ensures { result ≡ measured_of hit.now }
{
    MeasuredHit {
        hit: *hit,
        peak: hit.peak as u64,
        energy: hit.energy,
        power: signal_power(hit.n2),
    }
}

// Returns a hit with its cell identity, its SSS ranking and the numbers in its metric.
fn measured_id(recording: &Recording, hit: &Hit) -> MeasuredId
    requires recording { IsRecording recording.now }
    requires span { IsInSpan hit.now }
    requires small { IsSmallHit hit.now }
    ensures { result ≡ measured_id_of recording.now hit.now }
{
    let measured = measured(hit);
    let ranking = ranking_with(recording, hit, Prefix::NORMAL);
    MeasuredId {
        found: identified(hit, ranking.best.n1, ranking.best.half),
        ranking,
        peak: measured.peak,
        energy: measured.energy,
        power: measured.power,
    }
}

//! Candidate offsets.

ghost use Rattle.std.specs.Prelude.{◌≡◌, ◌+◌, ◌*◌, ◌<◌, ◌≤◌, All, IfOk, OnOk, nat_abs, length};
ghost use Rattle.pss_search.specs.Hits.{hits_of};
ghost use Rattle.frequency_offset.specs.Candidates.{candidate_by as candidate_by_hit, candidate_at as candidate_of};
ghost use Rattle.frequency_offset.specs.Candidates.{coarse_turn as coarse_turn_of, candidates_below};
ghost use Rattle.frequency_offset.specs.Candidates.{candidates_of as all_candidates};
ghost use Rattle.frequency_offset.specs.Steps.{IsSmallHit, IsSmallCandidate};

use crate::at_turn::Turned;
use crate::centred::Centred;
use crate::fine::fine_turn;
use crate::fraction::{Fraction, best_hit, fraction_of};
use crate::order::by_magnitude;
use lte_types::Hit;
use pss_search::{HitList, hits};
use std::alloc::{AllocError, Global};

/// A candidate offset in steps of 117.1875 Hz. (own)
#[derive(Clone, Copy, Debug, PartialEq, Eq)]
pub struct Candidate {
    /// The coarse offset, in steps of 3.75 kHz: -16 to 16.
    pub coarse: i16,
    /// The coarse plus the fine offset, in steps of 117.1875 Hz: -576 to 575.
    pub turn: i16,
    /// The hit count at the coarse offset.
    pub hits: usize,
    /// The largest fraction of a hit at the coarse offset.
    pub fraction: Fraction,
}

// Returns the candidates at all 33 coarse offsets of a recording.
pub(crate) fn candidates_of(alloc: Global, centred: &Centred) -> Result<Vec<Candidate>, AllocError>
    ensures value { IfOk result (λ list. list.items ≡ all_candidates centred.now) }
    ensures small { IfOk result (λ list. All IsSmallCandidate list.items) }
{
    let mut list = HitList::new(alloc)?;
    let mut candidates = Vec::new(alloc);
    for k in 0..33 {
        add_candidate(alloc, centred, k, &mut list, &mut candidates)?;
    }
    Ok(candidates)
}

// Appends the candidate at coarse offset `k`, if there is one.
fn add_candidate(
    alloc: Global,
    centred: &Centred,
    k: usize,
    list: &mut HitList,
    candidates: &mut Vec<Candidate>,
) -> Result<(), AllocError>
    requires known { k < 33 }
    requires before { candidates.old.items ≡ candidates_below centred.now k }
    ensures { OnOk result (candidates.new.items ≡ candidates_below centred.now (k + 1)) }
{
    match candidate_at(alloc, centred, k, list)? {
        Some(candidate) => {
            candidates.push(candidate)?;
            Ok(())
        }
        None => Ok(()),
    }
}

// Returns coarse offset `k`, ordered by magnitude, in steps of 117.1875 Hz.
fn coarse_turn(k: usize) -> i16
    requires { k < 33 }
    ensures value { result ≡ coarse_turn_of k }
    ensures small { nat_abs result ≤ 512 }
{
    32 * by_magnitude(k)
}

// Returns the candidate at coarse offset `k`, if the corrected recording has a hit.
fn candidate_at(
    alloc: Global,
    centred: &Centred,
    k: usize,
    list: &mut HitList,
) -> Result<Option<Candidate>, AllocError>
    requires { k < 33 }
    ensures { IfOk result (λ candidate. candidate ≡ candidate_of centred.now k) }
{
    let m = coarse_turn(k);
    let turned = centred.turned(m);
    let front = turned.looked_at(alloc)?;
    hits(&front, list);
    let hits = list.slice();
    match best_hit(hits) {
        Some(best) => Ok(Some(candidate_by(&turned, k, hits.len(), &best))),
        None => Ok(None),
    }
}

// Returns the candidate from the best hit at coarse offset `k`.
fn candidate_by(turned: &Turned, k: usize, hits: usize, best: &Hit) -> Candidate
    requires known { k < 33 }
    requires best { IsSmallHit best.now }
    requires hits { hits ≡ length (hits_of turned.now) }
    ensures { result ≡ candidate_by_hit turned.now k best.now }
{
    Candidate {
        coarse: by_magnitude(k),
        turn: coarse_turn(k) + fine_turn(turned, best.t as usize),
        hits,
        fraction: fraction_of(best),
    }
}

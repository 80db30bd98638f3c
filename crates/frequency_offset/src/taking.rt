//! The selection among candidate offsets.

ghost use Rattle.std.specs.Prelude.{◌≡◌, All, IfOk, fold, filter};
ghost use Rattle.frequency_offset.specs.Fractions.{greater, greatest as greatest_of};
ghost use Rattle.frequency_offset.specs.Candidates.{is_far as is_far_from, first_taken};
ghost use Rattle.frequency_offset.specs.Steps.{IsSmallCandidate};

use crate::candidate::Candidate;
use crate::fraction::is_less;
use std::alloc::{AllocError, Global};

// Returns at most four selected candidates, in order of selection.
pub(crate) fn taken(alloc: Global, candidates: Vec<Candidate>) -> Result<Vec<Candidate>, AllocError>
    requires { All IsSmallCandidate candidates.items }
    ensures { IfOk result (λ taken. taken.items ≡ first_taken 4 candidates.items) }
{
    let mut rest = candidates;
    let mut taken = Vec::with_capacity(alloc, 4)?;
    'take: while taken.len() < 4 {
        match greatest(&rest) {
            Some(best) => {
                taken.push(best)?;
                rest = far_from(alloc, &best, &rest)?;
            }
            None => return Ok(taken),
        }
    }
    Ok(taken)
}

// Returns the candidates whose offsets differ from the offset of `best` by more than 64 steps.
fn far_from(
    alloc: Global,
    best: &Candidate,
    candidates: &[Candidate],
) -> Result<Vec<Candidate>, AllocError>
    requires best { IsSmallCandidate best.now }
    requires small { All IsSmallCandidate candidates.now }
    ensures value { IfOk result (λ far. far.items ≡ filter (is_far_from best.now) candidates.now) }
    ensures small { IfOk result (λ far. All IsSmallCandidate far.items) }
{
    let mut far = Vec::new(alloc);
    for candidate in candidates {
        if is_far(best, candidate) {
            far.push(*candidate)?;
        }
    }
    Ok(far)
}

// Returns whether the offsets of `first` and `second` differ by more than 64 steps.
fn is_far(first: &Candidate, second: &Candidate) -> bool
    requires first { IsSmallCandidate first.now }
    requires second { IsSmallCandidate second.now }
    ensures { result ≡ is_far_from first.now second.now }
{
    (second.turn - first.turn).unsigned_abs() > 64
}

// Returns the candidate with the largest fraction; the earliest on a tie, none if `candidates` is empty.
fn greatest(candidates: &[Candidate]) -> Option<Candidate>
    requires { All IsSmallCandidate candidates.now }
    ensures { result ≡ greatest_of (λ c. c.fraction) candidates.now }
{
    match candidates.split_first() {
        Some((first, rest)) => Some(greatest_by(first, rest)),
        None => None,
    }
}

// Returns the candidate with the largest fraction among `first` and `rest`; the earliest on a tie.
fn greatest_by(first: &Candidate, rest: &[Candidate]) -> Candidate
    requires first { IsSmallCandidate first.now }
    requires rest { All IsSmallCandidate rest.now }
    ensures { result ≡ fold (greater (λ c. c.fraction)) first.now rest.now }
{
    let mut best = *first;
    for candidate in rest {
        best = better_turn(&best, candidate);
    }
    best
}

// Returns whichever candidate has the larger fraction; `first` on a tie.
fn better_turn(first: &Candidate, second: &Candidate) -> Candidate
    requires first { IsSmallCandidate first.now }
    requires second { IsSmallCandidate second.now }
    ensures value { result ≡ greater (λ c. c.fraction) first.now second.now }
    ensures small { IsSmallCandidate result }
{
    if is_less(&first.fraction, &second.fraction) {
        *second
    } else {
        *first
    }
}

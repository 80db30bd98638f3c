//! The estimated frequency offset, and corrected recordings.

ghost use Rattle.std.specs.Prelude.{◌≡◌, IfOk, IfSome};
ghost use Rattle.sample_file.specs.Recording.{IsRecording};
ghost use Rattle.frequency_offset.specs.Turned.{turned as turned_by};
ghost use Rattle.frequency_offset.specs.Candidates.{taken_of as all_taken};
ghost use Rattle.frequency_offset.specs.Estimation.{Estimates, IsEstimatedBy, IsEstimated, IsApplied, turn_of as turn_that_is};
ghost use Rattle.frequency_offset.specs.Laws.{IsTurnInRange};

use crate::candidate::{Candidate, candidates_of};
use crate::centred::Centred;
use crate::taking::taken;
use explain::{EntryList, Workspace, explain};
use sample_file::Recording;
use std::alloc::{AllocError, Global};

/// The estimate of a recording's frequency offset. (own)
#[derive(Clone, Copy, Debug, PartialEq, Eq)]
pub struct OffsetEstimate {
    /// The frequency offset to correct, in steps of 117.1875 Hz: -576 to 575.
    pub turn: i16,
    /// The hit count at the coarse offset.
    pub hits: usize,
    /// The length of the cell list after correction by `turn`.
    pub cells: usize,
}

/// The estimate of a recording's frequency offset, with its candidates. (own)
#[derive(Drop)]
pub struct Estimation {
    /// The estimate, if one of the 33 coarse offsets gives a hit.
    pub estimate: Option<OffsetEstimate>,
    /// The selected candidates, at most four, in order of selection.
    pub candidates: Vec<Candidate>,
}

/// Corrects a recording by offset `m`: subtracts the mean, shifts the frequency by `-m` times 117.1875 Hz, rounds, and
/// clamps to 16 bits. Fails only if an allocation fails. (own)
pub fn turned(alloc: Global, recording: &Recording, m: i16) -> Result<Recording, AllocError>
    ensures value { IfOk result (λ samples. samples ≡ turned_by recording.now m) }
    ensures valid { IfOk result IsRecording }
{
    Centred::new(recording).turned(m).whole(alloc)
}

/// Estimates a recording's frequency offset; `None` if none of the 33 coarse offsets, up to 60 kHz, gives a hit. Fails
/// only if an allocation fails. (own)
pub fn tell(alloc: Global, recording: &Recording) -> Result<Option<OffsetEstimate>, AllocError>
    ensures estimate { IfOk result (IsEstimated recording.now) }
    ensures range { IfOk result (λ estimate. IfSome estimate IsTurnInRange) }
{
    let centred = Centred::new(recording);
    estimated_with(alloc, &centred)
}

/// Estimates a recording's frequency offset as `tell` does, and returns the selected candidates too. Fails only if an
/// allocation fails. (own)
pub fn tell_with_candidates(alloc: Global, recording: &Recording) -> Result<Estimation, AllocError>
    ensures estimate { IfOk result (λ estimation. IsEstimated recording.now estimation.estimate) }
    ensures candidates { IfOk result (λ estimation. estimation.candidates.items ≡ all_taken recording.now) }
{
    let centred = Centred::new(recording);
    let candidates = taken_of(alloc, &centred)?;
    let estimate = estimated_among(alloc, &centred, &candidates)?;
    Ok(Estimation {
        estimate,
        candidates,
    })
}

/// Corrects a recording by its estimated frequency offset, or by 0 without an estimate. Fails only if an allocation
/// fails. (own)
pub fn applied(alloc: Global, recording: &Recording) -> Result<Recording, AllocError>
    ensures value { IfOk result (IsApplied recording.now) }
    ensures valid { IfOk result IsRecording }
{
    let centred = Centred::new(recording);
    let estimate = estimated_with(alloc, &centred)?;
    centred.turned(turn_of(&estimate)).whole(alloc)
}

// Returns the estimate for a recording and its mean.
fn estimated_with(alloc: Global, centred: &Centred) -> Result<Option<OffsetEstimate>, AllocError>
    ensures { IfOk result (IsEstimated centred.now) }
{
    let taken = taken_of(alloc, centred)?;
    estimated_among(alloc, centred, &taken)
}

/// Returns the estimated offset in steps of 117.1875 Hz; 0 without an estimate. (own)
pub fn turn_of(estimate: &Option<OffsetEstimate>) -> i16
    ensures { result ≡ turn_that_is estimate.now }
{
    match estimate {
        Some(estimate) => estimate.turn,
        None => 0,
    }
}

// Returns the selected candidates in a recording, in order of selection.
fn taken_of(alloc: Global, centred: &Centred) -> Result<Vec<Candidate>, AllocError>
    ensures { IfOk result (λ taken. taken.items ≡ all_taken centred.now) }
{
    let candidates = candidates_of(alloc, centred)?;
    taken(alloc, candidates)
}

// Returns the estimate from the first candidate in `taken` that gives cells, or from the first one if none does.
fn estimated_among(
    alloc: Global,
    centred: &Centred,
    taken: &[Candidate],
) -> Result<Option<OffsetEstimate>, AllocError>
    ensures { IfOk result (IsEstimatedBy centred.now taken.now) }
{
    let mut work = Workspace::new(alloc)?;
    let mut list = EntryList::new(alloc)?;
    let mut first = None;
    for candidate in taken {
        let estimate = turn_estimated_of(alloc, centred, candidate, &mut work, &mut list)?;
        if estimate.cells > 0 {
            return Ok(Some(estimate));
        }
        first = first.or(Some(estimate));
    }
    Ok(first)
}

// Returns the candidate's offset and hit count, and the number of cells after correction by that offset.
fn turn_estimated_of(
    alloc: Global,
    centred: &Centred,
    candidate: &Candidate,
    work: &mut Workspace,
    list: &mut EntryList,
) -> Result<OffsetEstimate, AllocError>
    ensures { IfOk result (Estimates centred.now candidate.now) }
{
    let front = centred.turned(candidate.turn).front(alloc)?;
    explain(&front, work, list);
    Ok(OffsetEstimate {
        turn: candidate.turn,
        hits: candidate.hits,
        cells: list.slice().len(),
    })
}

//! The cancellation rounds of a recording.

ghost use Rattle.std.specs.Prelude.{◌≡◌, IfOk, IfSome};
ghost use Rattle.std.specs.List.{AllZip};
ghost use Rattle.explain.specs.Entries.{IsInList, IsExplained};
ghost use Rattle.explain.specs.Grant.{IsGrantOf};
ghost use Rattle.explain.specs.Readings.{IsReading};
ghost use Rattle.clean_air.specs.Clean.{IsListOfCells};
ghost use Rattle.cancel.specs.Residue.{power_of as sum_of};
ghost use Rattle.successive_cancel.specs.Rounds.{AreRounds, IsCancelled};
ghost use Rattle.successive_cancel.specs.Steps.{IsTakenIf, IsNextRound};

use crate::{Round, Rounds};
use cancel::{Subtracted, power_of, subtract_from};
use clean_air::{explain_clean, plan_granted};
use dci::Grant;
use explain::{EntryList, Workspace};
use lte_types::{Cfi, Entry};
use sample_file::Recording;
use std::alloc::{AllocError, Global};

// The maximum number of rounds.
const MOST_ROUNDS: u8 = 4;

/// Returns the cell list of `recording` and at most four rounds, each of which cancels the first cell that can be
/// cancelled and lists the residual. Fails only if an allocation fails. (own)
pub fn cancel_rounds(
    alloc: Global,
    recording: &Recording,
    work: &mut Workspace,
) -> Result<Rounds, AllocError>
    ensures { IfOk result (IsCancelled recording.now) }
{
    let first = list_of(alloc, recording, work)?;
    let power = power_of(recording) as u128;
    let (taken, ended) = rounds_on(alloc, MOST_ROUNDS, recording, power, first.slice(), work)?;
    Ok(Rounds {
        first,
        taken,
        ended,
    })
}

// Returns a recording's cell list, and leaves a reading (how the cell was decoded) of each entry in `work`.
fn list_of(
    alloc: Global,
    recording: &Recording,
    work: &mut Workspace,
) -> Result<EntryList, AllocError>
    ensures list { IfOk result (IsListOfCells recording.now) }
    ensures readings { IfOk result (λ list. AllZip (IsReading recording.now) list work.new) }
{
    let mut list = EntryList::new(alloc)?;
    explain_clean(recording, work, &mut list);
    Ok(list)
}

// Runs at most `most` rounds on a recording with power `power` and cell list `list`, whose readings are in `work`. Also
// returns whether no entry of the last list can be cancelled.
fn rounds_on(
    alloc: Global,
    most: u8,
    recording: &Recording,
    power: u128,
    list: &[Entry],
    work: &mut Workspace,
) -> Result<(Vec<Round>, bool), AllocError>
    requires power { power ≡ sum_of recording.now }
    requires list { IsExplained recording.now list.now }
    requires readings { AllZip (IsReading recording.now) list.now work.old }
    ensures { IfOk result (λ decoded. AreRounds most recording.now list.now decoded.0.items decoded.1) }
{
    if most == 0 {
        return Ok((Vec::new(alloc), false));
    }
    match round_on(alloc, recording, power, list, work)? {
        Some(round) => {
            let (mut rest, ended) = rounds_on(
                alloc,
                most - 1,
                &round.taken.residue,
                round.taken.after,
                round.list.slice(),
                work,
            )?;
            rest.insert(0, round)?;
            Ok((rest, ended))
        }
        None => Ok((Vec::new(alloc), true)),
    }
}

// Runs a round on a recording with power `power` and cell list `list`, or returns `None` if no cell can be cancelled.
// Replaces the list's readings in `work` by the new list's readings.
fn round_on(
    alloc: Global,
    recording: &Recording,
    power: u128,
    list: &[Entry],
    work: &mut Workspace,
) -> Result<Option<Round>, AllocError>
    requires power { power ≡ sum_of recording.now }
    requires list { IsExplained recording.now list.now }
    requires readings { AllZip (IsReading recording.now) list.now work.old }
    ensures next { IfOk result (IsNextRound recording.now list.now) }
    ensures readings { IfOk result (λ next.
        IfSome next (λ round. AllZip (IsReading round.taken.residue) round.list work.new)) }
{
    for (i, entry) in list.iter().enumerate() {
        let granted = work.readings()[i].granted;
        match taken_off(alloc, recording, power, entry, granted)? {
            Some(taken) => {
                let list = list_of(alloc, &taken.residue, work)?;
                return Ok(Some(Round {
                    id: entry.id,
                    taken,
                    list,
                }));
            }
            None => {}
        }
    }
    Ok(None)
}

// Cancels an entry's cell in a recording with power `power`, or returns `None` if the cell cannot be cancelled.
fn taken_off(
    alloc: Global,
    recording: &Recording,
    power: u128,
    entry: &Entry,
    granted: Option<(Cfi, Grant)>,
) -> Result<Option<Subtracted>, AllocError>
    requires power { power ≡ sum_of recording.now }
    requires entry { IsInList recording.now entry.now }
    requires granted { IsGrantOf recording.now entry.now granted }
    ensures { IfOk result (IsTakenIf recording.now entry.now) }
{
    match plan_granted(recording, entry, granted) {
        Some(cell) => subtract_from(alloc, recording, power, &cell, entry.start, entry.sfn),
        None => Ok(None),
    }
}

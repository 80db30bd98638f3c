//! A listed cell's grant, and the plan with which it can be sent again.

ghost use Rattle.std.specs.Prelude.{IfOk};
ghost use Rattle.explain.specs.Entries.{IsExplained};

use cell_json::read;
use cell_tx::{CellPlan, send_all};
use clean_air::plan_of;
use dci::Grant;
use explain::{EntryList, Workspace, explain, grant_of};
use lte_types::{Duration, Entry, Resource};
use sample_file::Recording;
use std::alloc::{AllocError, Global};
use std::test::Fail;
use test_support::{description, silent, wide_cell};

// Returns 30 ms of the plain cell, with CFI 2 and its SIB1 in six resource blocks.
fn plain_recording(alloc: Global) -> Result<Recording, Fail> {
    let text = description(alloc, "", "")?;
    let transmission = read(alloc, text.as_bytes())?;
    if transmission.samples != 57_600 {
        return Err("30 ms".into());
    }
    let mut samples = silent(alloc, 57_600)?;
    send_all(&transmission, &mut samples);
    let recording = Recording::new(samples).ok_or("30 ms")?;
    Ok(recording)
}

// Returns a recording's cell list.
pub(crate) fn list_of(
    alloc: Global,
    recording: &Recording,
    work: &mut Workspace,
) -> Result<EntryList, AllocError>
    ensures { IfOk result (λ list. IsExplained recording.now list) }
{
    let mut list = EntryList::new(alloc)?;
    explain(recording, work, &mut list);
    Ok(list)
}

// Returns whether an entry's MIB was decoded from the first frame alone, at phase 0.
fn is_of_the_first_frame(entry: &Entry) -> bool {
    entry.frames == 1 && entry.frame == 0 && entry.phase == 0
}

// Returns whether `grant` is the plain cell's grant.
fn is_granted(grant: &Grant) -> bool {
    let sent = Grant {
        start: 0,
        blocks: 6,
        mcs: 4,
        column: 2,
        rv: 0,
        size: 120,
    };
    *grant == sent
}

// Returns whether `plan` is the plain cell's plan, apart from the SIB1.
fn is_plain(plan: &CellPlan) -> bool {
    plan.identity == 0
        && plan.duration == Duration::Normal
        && plan.resource == Resource::One
        && plan.spare == 0
        && plan.cfi == 2
        && (plan.start, plan.blocks) == (0, 6)
        && (plan.mcs, plan.column) == (4, 2)
}

#[test]
fn a_cell_that_was_sent_has_its_grant_and_its_plan(rt: HostRuntime) -> Result<(), Fail> {
    let recording = plain_recording(rt.alloc())?;
    let mut work = Workspace::new(rt.alloc())?;
    let list = list_of(rt.alloc(), &recording, &mut work)?;
    let [entry] = list.slice() else {
        return Err(Fail::from("one entry"));
    };
    assert!(rt; is_of_the_first_frame(entry));
    let (cfi, grant) = grant_of(&recording, entry, &mut work).ok_or("a grant")?;
    assert!(rt; cfi.value() == 2 && is_granted(&grant));
    let cell = plan_of(&recording, entry, &mut work).ok_or("a plan")?;
    assert!(rt; is_plain(cell.plan()) && cell.plan().sib1.tac == 1);
    Ok(())
}

#[test]
fn a_wider_cell_has_no_grant_and_no_plan(rt: HostRuntime) -> Result<(), Fail> {
    let recording = Recording::new(wide_cell(rt.alloc())?).expect(&rt, "30 ms");
    let mut work = Workspace::new(rt.alloc())?;
    let list = list_of(rt.alloc(), &recording, &mut work)?;
    let [entry] = list.slice() else {
        return Err(Fail::from("one entry"));
    };
    assert!(rt; grant_of(&recording, entry, &mut work).is_none());
    assert!(rt; plan_of(&recording, entry, &mut work).is_none());
    Ok(())
}

ghost use Rattle.std.specs.Prelude.{◌≡◌, ◌+◌, ◌*◌, ◌^◌, ◌<◌, All, IfSome, length};
ghost use Rattle.cs_num.specs.Complex.{IsWithin};
ghost use Rattle.dci.specs.Format1A.{IsGrant};

use crate::examples::cell_of;
use cell_tx::{Cell, CellPlan, frame};
use clean_air::{
    carried_blocks_are_heard, explain_clean, sent_grant_is_decoded, sent_grant_is_read,
    sent_indicator_is_decoded,
};
use cs_num::{Cpx, Sample, clamp_div};
use dci::Grant;
use explain::{EntryList, Workspace};
use lte_types::{Bandwidth, CellId, Cfi, Duration, Mib, Resource, Sfn, Sib1};
use observe::symbol;
use pdcch::candidate;
use pdsch::{MOST_VALUES, values};
use sample_file::Recording;
use sib1_reader::{Attempt, Decoders, attempt_in};
use soft_bits::Slot;
use std::alloc::Global;
use std::test::Fail;
use test_support::{information, silent, silent_recording};

#[test]
fn silence_has_no_cell(rt: HostRuntime) -> Result<(), Fail> {
    let mut work = Workspace::new(rt.alloc())?;
    let mut list = EntryList::new(rt.alloc())?;
    explain_clean(&silent_recording(rt.alloc())?, &mut work, &mut list);
    assert!(rt; list.slice().is_empty());
    Ok(())
}

// Returns the plan for identity 503 and CFI 3, with the SIB1 in resource blocks 1 to 5.
fn plan() -> CellPlan {
    CellPlan {
        identity: 503,
        duration: Duration::Extended,
        resource: Resource::Two,
        spare: 0,
        cfi: 3,
        start: 1,
        blocks: 5,
        mcs: 5,
        column: 3,
        sib1: Sib1 {
            tac: 0x1a2b,
            cell: 0x0abcdef,
            q_rx: -61,
            band: 20,
            window: 5,
            tag: 9,
            ..information(3)
        },
    }
}

// Moves a component by ten against its sign.
fn opposed(component: i64) -> i16
    requires { IsWithin (2 ^ 20) (record { re = component; im = component }) }
{
    let moved = if component > 0 {
        component - 10
    } else {
        component + 10
    };
    clamp_div(moved, 1, 32_767)
}

// Returns a sample times 3 + 4j (magnitude 5), with each component moved by ten against its sign.
fn received(sent: Sample) -> Sample {
    let (re, im) = (sent.re as i64, sent.im as i64);
    Sample {
        re: opposed(3 * re - 4 * im),
        im: opposed(4 * re + 3 * im),
    }
}

// Writes a received frame into the first 19,200 samples.
fn receive(cell: &Cell, sfn: Sfn, samples: &mut [Sample])
    requires { length samples.old ≡ 57600 }
{
    frame(cell, sfn, &mut samples[..19_200]);
    for i in 0..19_200 {
        samples[i] = received(samples[i]);
    }
}

// Returns received symbol `l` of slot `number` in the first frame.
fn symbol_of(recording: &Recording, number: u8, l: usize) -> [Cpx; 72]
    requires number { number < 20 }
    requires l { l < 7 }
    ensures { All (IsWithin (2 ^ 25)) result }
{
    let count = recording.len();
    let start = 960 * number as usize + 137 * l + 10;
    prove!(start + 128 <= count);
    symbol(recording, start)
}

// Returns received slot `number` in the first frame.
fn slot_of(recording: &Recording, number: u8, id: CellId) -> Slot
    requires { number < 20 }
    ensures number { result.number ≡ number }
    ensures identity { result.identity ≡ id }
{
    let seen = [
        symbol_of(recording, number, 0),
        symbol_of(recording, number, 1),
        symbol_of(recording, number, 2),
        symbol_of(recording, number, 3),
        symbol_of(recording, number, 4),
        symbol_of(recording, number, 5),
        symbol_of(recording, number, 6),
    ];
    Slot::new(seen, number, id)
}

// Returns whether all soft values have a magnitude of at least 8.
fn are_large(values: &[i16]) -> bool {
    values.iter().all(|value| value.unsigned_abs() >= 8)
}

// Returns the number of soft values for the decoded grant, if all have a magnitude of at least 8.
fn large_values(first: &Slot, second: &Slot, attempt: &Attempt) -> Option<usize>
    requires first { first.now.number ≡ 10 }
    requires second { second.now.number ≡ 11 }
    requires cell { second.now.identity ≡ first.now.identity }
    requires grant { IfSome attempt.now.grant IsGrant }
{
    let Some(grant) = &attempt.grant else {
        return None;
    };
    if attempt.cfi.value() < 2 {
        return None;
    }
    let mut out = [0; MOST_VALUES];
    let count = values(first, second, attempt.cfi, grant, &mut out);
    if out
        .iter()
        .take(count)
        .all(|value| value.unsigned_abs() >= 8)
    {
        Some(count)
    } else {
        None
    }
}

// Returns a recording of one received frame, followed by silence.
fn received_recording(alloc: Global) -> Result<Recording, Fail> {
    let cell = cell_of(plan()).ok_or("a plan that is sent")?;
    let mut samples = silent(alloc, 57_600)?;
    receive(&cell, Sfn::modulo(6), &mut samples[..]);
    let recording = Recording::new(samples).ok_or("30 ms")?;
    Ok(recording)
}

// Returns whether CFI 3 and the sent grant were decoded.
fn has_grant(attempt: &Attempt) -> bool {
    let granted = Grant {
        start: 1,
        blocks: 5,
        mcs: 5,
        column: 3,
        rv: 1,
        size: 224,
    };
    attempt.cfi.value() == 3 && attempt.grant == Some(granted)
}

// Returns whether all soft values in the PDCCH candidate have a magnitude of at least 8.
fn has_large_control(slot: &Slot, cfi: Cfi, mib: Mib) -> bool
    requires { slot.now.number ≡ 10 }
{
    match candidate(slot, cfi, mib) {
        Some(control) => are_large(&control),
        None => false,
    }
}

// Returns whether SIB1 was decoded, with the sent tracking area code, cell identity and q-RxLevMin.
fn has_fields(attempt: &Attempt) -> bool {
    match &attempt.answer {
        Ok(fields) => fields.tac == 0x1a2b && fields.cell == 0x0abcdef && fields.q_rx == -61,
        Err(_) => false,
    }
}

#[test]
fn what_was_sent_is_read_with_errors_at_the_bound(rt: HostRuntime) -> Result<(), Fail> {
    let recording = received_recording(rt.alloc())?;
    let id = CellId::new(503).ok_or("in range")?;
    let mib = Mib::new(Bandwidth::N6, Duration::Extended, Resource::Two, 1, 0).ok_or("in range")?;
    let (first, second) = (slot_of(&recording, 10, id), slot_of(&recording, 11, id));
    let mut work = Decoders::new(rt.alloc())?;
    let attempt = attempt_in(&first, &second, mib, &mut work);
    assert!(rt; has_grant(&attempt));
    assert!(rt; has_large_control(&first, attempt.cfi, mib));
    assert!(rt; large_values(&first, &second, &attempt) == Some(900));
    assert!(rt; has_fields(&attempt));
    carried_blocks_are_heard();
    sent_indicator_is_decoded();
    sent_grant_is_decoded();
    sent_grant_is_read();
    Ok(())
}

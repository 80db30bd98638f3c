//! The cell lists of synthetic recordings.

ghost use Rattle.std.specs.Prelude.{◌≡◌, ◌↔◌, ◌≤◌, IfOk, IsTrue, length, string_bytes};
ghost use Rattle.clean_air.specs.Clean.{system_of_carrier};
ghost use Rattle.lte_top.specs.Making.{Counts, IsSentCell, IsMadeOutput, cell_of, IsMadeText};

use crate::searching::list_of;
use capture_make::make_by;
use cell_plan::Emission;
use lte_types::{
    Bandwidth, Carrier, Duration, Entry, Resource, Sfn, Sib1, Sib1Reason, same_answers,
};
use report_text::{line_of_made, text};
use std::alloc::{AllocError, Global};

// A sent cell: the start (`first`) and the frame number (`number`) of its first frame, and the other values that its
// list entry must have.
#[derive(Drop)]
pub(crate) struct SentCell {
    pub identity: u16,
    pub first: u32,
    pub number: Sfn,
    pub ports: u8,
    pub duration: Duration,
    pub resource: Resource,
    pub spare: u16,
    pub sib1: Result<Sib1, Sib1Reason>,
}

// Returns the line of synthetic recording `n`, and the text of its cell list.
#[inline(never)]
pub(crate) fn made_text(alloc: Global, carrier: Carrier, n: u32) -> Result<String, AllocError>
    ensures { IfOk result (λ text. IsMadeText carrier n (string_bytes text)) }
{
    let made = make_by(alloc, carrier, n)?;
    let list = list_of(alloc, carrier, &made.recording)?;
    text_of_sent(alloc, &sent_cell(&made.sent), list.slice())
}

// Returns the cell that the emission `sent` contains, as it should be listed.
fn sent_cell(sent: &Emission) -> SentCell
    ensures { result ≡ cell_of sent.now }
{
    let plan = sent.cell.plan();
    SentCell {
        identity: plan.identity,
        first: sent.timing.start(),
        number: sent.timing.number_at_start(),
        ports: sent.carrier.ports(),
        duration: plan.duration,
        resource: plan.resource,
        spare: plan.spare,
        sib1: system_by(sent.carrier, &plan.sib1),
    }
}

// Returns the SIB1 result of a cell that sends `sib1`: SIB1 itself, or the reason why it is not read under `carrier`.
fn system_by(carrier: Carrier, sib1: &Sib1) -> Result<Sib1, Sib1Reason>
    ensures { result ≡ system_of_carrier carrier sib1.now }
{
    if carrier.prefix().is_extended() {
        Err(Sib1Reason::LongPrefix)
    } else if carrier.ports() > 2 {
        Err(Sib1Reason::NotOnePort(carrier.ports()))
    } else {
        Ok(sib1.copy())
    }
}

// Returns a sent cell's line, and the text of a cell list.
fn text_of_sent(alloc: Global, cell: &SentCell, list: &[Entry]) -> Result<String, AllocError>
    ensures { IfOk result (λ text. IsMadeOutput cell.now list.now (string_bytes text)) }
{
    let held = count_held(list, cell);
    let mut output = line_of_made(alloc, cell.identity, cell.first, cell.number.value(), held)?;
    let lines = text(alloc, list)?;
    output.push_str(&lines)?;
    Ok(output)
}

// Counts the entries that match a sent cell.
fn count_held(list: &[Entry], cell: &SentCell) -> usize
    ensures counts { Counts (IsSentCell cell.now) list.now result }
    ensures bound { result ≤ length list.now }
{
    let mut held = 0;
    for entry in list {
        if is_sent_cell(entry, cell) {
            held += 1;
        }
    }
    held
}

// Returns whether an entry matches a sent cell.
fn is_sent_cell(entry: &Entry, cell: &SentCell) -> bool
    ensures { IsTrue result ↔ IsSentCell cell.now entry.now }
{
    let mib = &entry.mib;
    entry.id.value() == cell.identity
        && entry.start == cell.first
        && entry.sfn == cell.number
        && entry.ports == cell.ports
        && mib.bandwidth == Bandwidth::N6
        && mib.duration == cell.duration
        && mib.resource == cell.resource
        && mib.upper as u16 == cell.number.value() / 4
        && mib.spare == cell.spare
        && same_answers(&entry.sib1, &cell.sib1)
}

// The expected soft values of pairs are from the reference implementation, `python/lte_reference/pairs.py`. The
// synthetic recordings are from `two_tx`, with the samples of `python/lte_reference/two_ports.py`.
ghost use Rattle.std.specs.Prelude.{◌≡◌, IfOk, length};

use crate::ports::{is_of, is_pair, of_port, opposed, symbols, values_of, with_port};
use capture_make::plan;
use cell_tx::Cell;
use cs_num::Sample;
use explain::EntryList;
use lte_types::{Carrier, CellId, Entry, Sib1};
use sample_file::Recording;
use std::alloc::{AllocError, Global};
use std::test::Fail;
use test_support::silent_recording;
use two_ports::{PairSlot, Workspace2, explain_clean};
use two_tx::make;

#[test]
fn values_of_pairs(rt: HostRuntime) -> Result<(), Fail> {
    let id = CellId::new(271).ok_or("an identity")?;
    let values = values_of(&PairSlot::new(symbols(), 10, id));
    for (i, expected) in [
        (0, [61, 8, -18, -73]),
        (1, [-49, -17, -33, -26]),
        (2, [74, 20, -44, 58]),
        (3, [18, 0, -25, 1]),
        (4, [12, 66, 101, -36]),
        (5, [23, -14, 28, 27]),
    ] {
        assert!(rt; is_pair(&values, i, expected), "pair {i}");
    }
    Ok(())
}

// Returns a recording's cell list.
fn list_of(alloc: Global, recording: &Recording) -> Result<EntryList, AllocError> {
    let mut work = Workspace2::new(alloc)?;
    let mut list = EntryList::new(alloc)?;
    explain_clean(recording, &mut work, &mut list);
    Ok(list)
}

#[test]
fn silence_has_no_cell(rt: HostRuntime) -> Result<(), Fail> {
    let recording = silent_recording(rt.alloc())?;
    assert!(rt; list_of(rt.alloc(), &recording)?.slice().is_empty());
    Ok(())
}

// Returns whether a few fields of an entry's SIB1 equal those of `sib1`.
fn has_fields(entry: &Entry, sib1: &Sib1) -> bool {
    match &entry.sib1 {
        Ok(fields) => {
            fields.tac == sib1.tac
                && fields.cell == sib1.cell
                && fields.band == sib1.band
                && fields.tag == sib1.tag
        }
        Err(_) => false,
    }
}

// Returns whether a list's only entry is the cell of synthetic recording 7, at the given start and frame number.
fn is_list_of_7(list: &EntryList, start: u32, sfn: u16) -> bool {
    match list.slice() {
        [entry] => is_of(entry, 7, start, sfn, 2) && has_fields(entry, &plan(7).sib1),
        _ => false,
    }
}

#[test]
fn recording_7_has_its_cell(rt: HostRuntime) -> Result<(), Fail> {
    let made = make(rt.alloc(), 7)?;
    assert!(rt; made.gains == [(8, 7), (7, -7)]);
    let list = list_of(rt.alloc(), &made.recording)?;
    assert!(rt; is_list_of_7(&list, 19_193, 8));
    Ok(())
}

// Returns the received sum of both ports with gains 1 and 19 + 5j, with each component moved by 2 against its sign.
fn received(first: Sample, second: Sample) -> Sample {
    let sum = with_port((0, 0), first, (1, 0));
    opposed(with_port(sum, second, (19, 5)), 2)
}

// Replaces the first port's samples by the received sum of both ports.
fn receive(samples: &mut [Sample], second: &[Sample])
    requires { length second.now ≡ length samples.old }
{
    for i in 0..samples.len() {
        samples[i] = received(samples[i], second[i]);
    }
}

// Returns 30 ms as received from both antenna ports.
fn both_ports(alloc: Global, cell: &Cell) -> Result<Vec<Sample>, AllocError>
    ensures { IfOk result (λ samples. length samples.items ≡ 57600) }
{
    let mut samples = of_port(alloc, cell, Carrier::TwoPorts, 0)?;
    let second = of_port(alloc, cell, Carrier::TwoPorts, 1)?;
    receive(&mut samples, &second);
    Ok(samples)
}

#[test]
fn a_weak_first_port_beside_a_strong_second(rt: HostRuntime) -> Result<(), Fail> {
    let cell = Cell::new(plan(7))?;
    let recording = Recording::new(both_ports(rt.alloc(), &cell)?).ok_or("30 ms")?;
    let list = list_of(rt.alloc(), &recording)?;
    assert!(rt; is_list_of_7(&list, 0, 512));
    Ok(())
}

// The expected soft values of pairs are from the reference implementation, `python/lte_reference/pairs.py --ports 4`.
// The synthetic recordings have the samples of `python/lte_reference/four_ports.py`.
ghost use Rattle.std.specs.Prelude.{◌≡◌, IfOk, length};

use crate::ports::{is_of, is_pair, of_port, opposed, symbols, values_of, with_port};
use capture_make::{make_by, plan};
use cell_tx::Cell;
use cs_num::Sample;
use explain::EntryList;
use four_ports::{FourSlot, Workspace4, explain_clean};
use lte_types::{Carrier, CellId, Sib1Reason};
use sample_file::Recording;
use std::alloc::{AllocError, Global};
use std::test::Fail;
use test_support::silent_recording;

#[test]
fn values_of_pairs(rt: HostRuntime) -> Result<(), Fail> {
    let id = CellId::new(271).ok_or("an identity")?;
    let values = values_of(&FourSlot::new(symbols(), 10, id));
    for (i, expected) in [
        (0, [44, -37, 53, -22]),
        (1, [2, 0, -48, 4]),
        (2, [52, 62, 20, 21]),
        (3, [8, 1, 24, 25]),
        (4, [-92, 100, 33, 41]),
        (5, [4, -18, 35, 36]),
        (6, [23, 2, -23, -2]),
        (7, [14, 11, -20, 15]),
        (8, [-10, -15, -33, -14]),
        (9, [1, 22, 0, -14]),
        (10, [-47, -46, 40, -11]),
        (11, [50, -2, 25, 38]),
    ] {
        assert!(rt; is_pair(&values, i, expected), "pair {i}");
    }
    Ok(())
}

// Returns a recording's cell list.
fn list_of(alloc: Global, recording: &Recording) -> Result<EntryList, AllocError> {
    let mut work = Workspace4::new(alloc)?;
    let mut list = EntryList::new(alloc)?;
    explain_clean(recording, &mut work, &mut list);
    Ok(list)
}

#[test]
fn silence_has_no_cell(rt: HostRuntime) -> Result<(), Fail> {
    let recording = silent_recording(rt.alloc())?;
    assert!(rt; list_of(rt.alloc(), &recording)?.slice().is_empty());
    Ok(())
}

// Returns whether a list's only entry is the cell of synthetic recording 7, at the given start and frame number.
fn is_list_of_7(list: &EntryList, start: u32, sfn: u16) -> bool {
    match list.slice() {
        [entry] => {
            is_of(entry, 7, start, sfn, 4) && matches!(&entry.sib1, Err(Sib1Reason::NotOnePort(4)))
        }
        _ => false,
    }
}

// Recording 7 starts at sample 7 of frame 7, so its frame 8 begins at sample 19,193.
#[test]
fn recording_7_has_its_cell(rt: HostRuntime) -> Result<(), Fail> {
    let made = make_by(rt.alloc(), Carrier::FourPorts, 7)?;
    let list = list_of(rt.alloc(), &made.recording)?;
    assert!(rt; is_list_of_7(&list, 19_193, 8));
    Ok(())
}

// The gains of antenna ports 0 to 3. Port 0 has the minimum gain, and each pair has at least three eighths of the
// power.
const GAINS: [(i64, i64); 4] = [(1, 0), (5, -5), (-6, 6), (0, 7)];

// Returns the received sum over all ports, with each component moved by 1 against its sign.
fn received(zero: Sample, one: Sample, two: Sample, three: Sample) -> Sample {
    let sum = with_port((0, 0), zero, GAINS[0]);
    let sum = with_port(sum, one, GAINS[1]);
    let sum = with_port(sum, two, GAINS[2]);
    opposed(with_port(sum, three, GAINS[3]), 1)
}

// Replaces port 0's samples by the received sum over all ports.
fn receive(samples: &mut [Sample], one: &[Sample], two: &[Sample], three: &[Sample])
    requires one { length one.now ≡ length samples.old }
    requires two { length two.now ≡ length samples.old }
    requires three { length three.now ≡ length samples.old }
{
    for i in 0..samples.len() {
        samples[i] = received(samples[i], one[i], two[i], three[i]);
    }
}

// Returns 30 ms as received from all antenna ports.
fn all_ports(alloc: Global, cell: &Cell) -> Result<Vec<Sample>, AllocError>
    ensures { IfOk result (λ samples. length samples.items ≡ 57600) }
{
    let mut samples = of_port(alloc, cell, Carrier::FourPorts, 0)?;
    let one = of_port(alloc, cell, Carrier::FourPorts, 1)?;
    let two = of_port(alloc, cell, Carrier::FourPorts, 2)?;
    let three = of_port(alloc, cell, Carrier::FourPorts, 3)?;
    receive(&mut samples, &one, &two, &three);
    Ok(samples)
}

#[test]
fn a_weak_first_port_beside_three_strong_ones(rt: HostRuntime) -> Result<(), Fail> {
    let cell = Cell::of(Carrier::FourPorts, plan(7))?;
    let recording = Recording::new(all_ports(rt.alloc(), &cell)?).ok_or("30 ms")?;
    let list = list_of(rt.alloc(), &recording)?;
    assert!(rt; is_list_of_7(&list, 0, 512));
    Ok(())
}

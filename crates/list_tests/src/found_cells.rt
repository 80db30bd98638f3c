//! A recording's cell list, and the calls that compute it.

ghost use Rattle.std.specs.Prelude.{◌≡◌, IfOk, length};
ghost use Rattle.explain.specs.Entries.{IsExplained};

use crate::plans;
use crate::rows::SPARSE;
use cs_num::Sample;
use explain::{EntryList, Workspace, one_frame_is_enough, the_list_in_plain_words, values_of};
use lte_types::{Bandwidth, Duration, Entry, Mib, Resource, Sib1Reason};
use sample_file::Recording;
use std::alloc::{AllocError, Global};
use std::test::Fail;
use test_support::{
    Rows, primary_grid, put_rows, put_signals, send_often, silent, silent_recording, wide_cell,
};

// Symbols 0 to 4 of slot 1 for identity 0, from the reference implementation: bandwidth n6, PHICH duration extended and
// resource two, upper frame number bits 5, spare bits 1023, four antenna ports, phase 3.
const OTHER: Rows = [
    b"310.21230.23300.30223.23010.30333.31110.31213.00013.22101.03213.21121.02",
    b".10.20.22.13.12.21.33.20.20.03.13.13.00.33.03.22.32.22.00.01.11.33.33.13",
    b"102102030311201323121312302332301010300212223013112201001111301202011100",
    b"322211201110111332211322223221022132300000120200323023100123110222100222",
    b"...0.....3.....3.....3.....2.....2.....0.....1.....3.....3.....0.....0..",
];

// Writes symbols 0 to 4 of slot 1 in four consecutive frames.
fn send_frames(samples: &mut [Sample], frames: &[Rows; 4])
    requires { length samples.old ≡ 96000 }
{
    for m in 0..4 {
        put_rows(samples, 19_200 * m, &frames[m]);
    }
}

// Returns a recording's cell list.
fn list_of(alloc: Global, recording: &Recording) -> Result<EntryList, AllocError>
    ensures { IfOk result (λ list. IsExplained recording.now list) }
{
    plans::list_of(alloc, recording, &mut Workspace::new(alloc)?)
}

// Returns whether an entry has identity 0, and the given start, frame number and port count.
fn is_cell_at(entry: &Entry, start: u32, sfn: u16, ports: u8) -> bool {
    entry.id.value() == 0
        && entry.start == start
        && entry.sfn.value() == sfn
        && entry.ports == ports
}

// Returns whether an entry's MIB was decoded with cost 0, from `frames` frames starting at frame `frame`, which has
// phase `phase`.
fn is_estimated_by(entry: &Entry, frames: u8, frame: u8, phase: u8) -> bool {
    entry.frames == frames && entry.frame == frame && entry.phase == phase && entry.cost == 0
}

// Returns a MIB with bandwidth n6, PHICH duration extended and resource two, and the given upper frame number bits and
// spare bits.
fn narrow(upper: u8, spare: u16) -> Option<Mib> {
    Mib::new(
        Bandwidth::N6,
        Duration::Extended,
        Resource::Two,
        upper,
        spare,
    )
}

// Returns the MIB in `WIDE`, with bandwidth n50.
fn wide() -> Option<Mib> {
    Mib::new(Bandwidth::N50, Duration::Normal, Resource::One, 0, 0)
}

// Returns whether an entry has no system information because its bandwidth is n50.
fn is_too_wide(entry: &Entry) -> bool {
    match &entry.sib1 {
        Ok(_) => false,
        Err(reason) => *reason == Sib1Reason::Bandwidth(Bandwidth::N50),
    }
}

// Returns whether the soft values have the signs of the coded bits at indices 0 and 39.
fn has_signs(values: &[[i32; 3]; 40]) -> bool {
    values[0][0] < 0
        && values[0][1] < 0
        && values[0][2] > 0
        && values[39][0] > 0
        && values[39][1] < 0
        && values[39][2] > 0
}

#[test]
fn silence_explains_no_cell(rt: HostRuntime) -> Result<(), Fail> {
    let recording = silent_recording(rt.alloc())?;
    assert!(rt; list_of(rt.alloc(), &recording)?.slice().is_empty());
    the_list_in_plain_words();
    Ok(())
}

#[test]
fn primary_signals_alone_explain_no_cell(rt: HostRuntime) -> Result<(), Fail> {
    let mut samples = silent(rt.alloc(), 57_600)?;
    send_often(&mut samples[..], &primary_grid(0));
    let recording = Recording::new(samples).expect(&rt, "30 ms");
    assert!(rt; list_of(rt.alloc(), &recording)?.slice().is_empty());
    Ok(())
}

#[test]
fn a_master_block_of_the_first_frame_is_an_entry(rt: HostRuntime) -> Result<(), Fail> {
    let recording = Recording::new(wide_cell(rt.alloc())?).expect(&rt, "30 ms");
    let mut list = list_of(rt.alloc(), &recording)?;
    let [entry] = list.slice() else {
        return Err(Fail::from("one entry"));
    };
    assert!(rt; is_cell_at(entry, 0, 0, 1) && is_estimated_by(entry, 1, 0, 0));
    assert!(rt; Some(entry.mib) == wide() && is_too_wide(entry));
    assert!(rt; has_signs(&values_of(&recording, entry)));
    list.clear();
    assert!(rt; list.slice().is_empty());
    Ok(())
}

#[test]
fn a_later_frame_gives_the_number_of_the_first(rt: HostRuntime) -> Result<(), Fail> {
    let mut samples = silent(rt.alloc(), 57_600)?;
    put_signals(&mut samples[18_000..], 0);
    put_rows(&mut samples[37_200..], 0, &OTHER);
    let recording = Recording::new(samples).expect(&rt, "30 ms");
    let list = list_of(rt.alloc(), &recording)?;
    let [entry] = list.slice() else {
        return Err(Fail::from("one entry"));
    };
    assert!(rt; is_cell_at(entry, 18_000, 22, 4) && is_estimated_by(entry, 1, 1, 3));
    assert!(rt; Some(entry.mib) == narrow(5, 1023));
    Ok(())
}

#[test]
fn four_frames_decode_together_and_fewer_do_not(rt: HostRuntime) -> Result<(), Fail> {
    let mut samples = silent(rt.alloc(), 96_000)?;
    put_signals(&mut samples[..], 0);
    send_frames(&mut samples[..], &SPARSE);
    let recording = Recording::new(samples).expect(&rt, "50 ms");
    let list = list_of(rt.alloc(), &recording)?;
    let [entry] = list.slice() else {
        return Err(Fail::from("one entry"));
    };
    assert!(rt; is_cell_at(entry, 0, 724, 2) && is_estimated_by(entry, 4, 0, 0));
    assert!(rt; Some(entry.mib) == narrow(181, 1000));
    let _values = values_of(&recording, entry);
    one_frame_is_enough();
    Ok(())
}

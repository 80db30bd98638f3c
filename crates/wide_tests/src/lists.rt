//! Lists whose missing SIB1 is read in a recording of the reference implementation, and corrected recordings.
use crate::checksum::of_samples;
use crate::rows::{ROWS, Row};
use crate::samples::drawn;
use crate::sender::{recording_of, symbols_of};
use crate::slots::rate_of;
use crate::systems::is_answer;
use cs_num::Sample;
use explain::EntryList;
use halving::WideRecording;
use lte_types::{Bandwidth, Carrier, CellId, Entry, Mib, Sib1, Sib1Reason};
use std::alloc::{AllocError, Global};
use std::test::Fail;
use wide_list::{WideWork, inform};
use wide_turn::turned;

type Answer = Result<Sib1, Sib1Reason>;

// Returns an entry for a row's cell, at another bandwidth or port count if those differ.
fn entry_of(row: &Row, bandwidth: Bandwidth, ports: u8, sib1: Answer) -> Result<Entry, Fail> {
    let mib = Mib::new(bandwidth, row.duration, row.resource, 0, 0).ok_or("a MIB")?;
    Ok(Entry {
        id: CellId::new(row.id).ok_or("an identity")?,
        start: u32::from(row.start),
        sfn: row.sfn(),
        ports,
        mib,
        frames: 1,
        frame: 0,
        phase: 0,
        cost: 0,
        sib1,
    })
}

// Returns whether the list of one entry has this answer after SIB1 is read in the recording.
fn is_informed(
    alloc: Global,
    wide: &WideRecording,
    carrier: Carrier,
    entry: Entry,
    work: &mut WideWork,
    expected: &Result<(u16, u32), Sib1Reason>,
) -> Result<bool, AllocError> {
    if entry.start >= 19_200 {
        return Ok(false);
    }
    let mut list = EntryList::new(alloc)?;
    list.insert(0, entry);
    inform(alloc, wide, carrier, &mut list, work)?;
    match list.slice() {
        [entry] => Ok(is_answer(&entry.sib1, expected)),
        _ => Ok(false),
    }
}

// SIB1 is read in the wide recording if it is missing, the prefix is normal, the port count is 1, 2 or 4, and the rate
// holds the bandwidth; otherwise an entry stays as it is.
#[test]
fn entries_without_sib1_are_informed(rt: HostRuntime) -> Result<(), Fail> {
    let alloc = rt.alloc();
    let mut work = WideWork::new(alloc)?;
    let [_, row, ..] = &ROWS;
    let (bandwidth, ports) = (row.bandwidth, row.ports);
    let symbols = symbols_of(alloc, row)?;
    let wide = recording_of(alloc, rate_of(bandwidth), row.even_start(), &symbols, &[])?.ok_or(
        "a recording",
    )?;
    let missing = Sib1Reason::Bandwidth(bandwidth);
    let kept = Err(missing);
    let two = Carrier::TwoPorts;

    let entry = entry_of(row, bandwidth, ports, Err(missing))?;
    assert!(rt; is_informed(alloc, &wide, two, entry, &mut work, &row.answer)?);
    let entry = entry_of(row, bandwidth, ports, Err(missing))?;
    assert!(rt; is_informed(alloc, &wide, Carrier::LongPrefix, entry, &mut work, &kept)?);
    let entry = entry_of(row, bandwidth, 3, Err(missing))?;
    assert!(rt; is_informed(alloc, &wide, two, entry, &mut work, &kept)?);
    let entry = entry_of(row, Bandwidth::N25, ports, Err(missing))?;
    assert!(rt; is_informed(alloc, &wide, two, entry, &mut work, &kept)?);
    Ok(())
}

// Returns samples corrected by offset `m`, or none if there are too many or too few.
fn corrected(samples: Vec<Sample>, rate: u8, m: i16) -> Vec<Sample> {
    if rate <= 4 && 1 <= samples.len() && samples.len() <= 30_720_000 {
        turned(samples, rate, m)
    } else {
        samples
    }
}

// The rate, an offset, and the checksum of 4,096 drawn samples corrected by it.
const TURNED: [(u8, i16, u64); 5] = [
    (0, 77, 2_478_170_194),
    (1, -2_048, 1_110_715_414),
    (2, 2_047, 2_457_058_398),
    (3, -500, 760_580_028),
    (4, 1_234, 1_580_990_480),
];

#[test]
fn drawn_samples_are_corrected_as_by_the_reference(rt: HostRuntime) -> Result<(), Fail> {
    for (rate, m, sum) in TURNED {
        let samples = drawn(rt.alloc(), 9, 4096)?;
        assert!(rt; of_samples(&corrected(samples, rate, m)) == sum, "{rate}");
    }
    Ok(())
}

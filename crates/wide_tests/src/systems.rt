//! What is read in subframes of the reference implementation: control channels, transport blocks, and system information
//! from one frame or from two together.
ghost use Rattle.std.specs.Prelude.{◌≡◌};

use crate::checksum::of_samples;
use crate::rows::{ROWS, Row, TOGETHER, TOGETHER_ROWS};
use crate::sender::{places_of, recording_of, symbols_of};
use crate::slots::{rate_of, received_in};
use cs_num::Sample;
use grid_map::pdcch_c_init;
use halving::WideRecording;
use lte_types::{Sib1, Sib1Reason};
use sib1_reader::Decoders;
use std::alloc::{AllocError, Global};
use std::test::Fail;
use tones::Tones;
use wide_block::{GrantSums, Total, sums_of};
use wide_cell::{WideCell, fits_rate};
use wide_control::{Control, DciFormat, control_in, offer};
use wide_grant::WideGrant;
use wide_grid::Candidate;
use wide_list::{FoundCell, WideWork, system_in};
use wide_slot::{WideSlot, descrambled, soft_values};

type Answer = Result<Sib1, Sib1Reason>;

// Returns whether an answer has this tracking area code and cell identity, or this reason.
pub(crate) fn is_answer(answer: &Answer, expected: &Result<(u16, u32), Sib1Reason>) -> bool {
    match (answer, expected) {
        (Ok(fields), Ok((tac, cell))) => fields.tac == *tac && fields.cell == *cell,
        (Err(reason), Err(other)) => reason == other,
        _ => false,
    }
}

// Returns whether grants are those that a receiver finds in a row's subframe.
fn are_found(grants: &[WideGrant], row: &Row) -> bool {
    for (grant, at) in grants.iter().zip(row.found) {
        match row.sent.get(*at) {
            Some((_, _, sent)) => {
                if grant != sent {
                    return false;
                }
            }
            None => return false,
        }
    }
    grants.len() == row.found.len()
}

fn is_control(control: &Control, row: &Row) -> bool {
    control.cfi().value() == row.cfi
        && control.elements() == row.elements
        && are_found(control.grants(), row)
}

// Returns the grants of a subframe with their sums.
fn offers_in(
    alloc: Global,
    first: &WideSlot,
    second: &WideSlot,
    control: &Control,
) -> Result<Vec<GrantSums>, AllocError>
    requires first { first.now.slot.number ≡ 10 }
    requires second { second.now.slot.number ≡ 11 }
    requires same { second.now.cell ≡ first.now.cell }
{
    let mut offers = Vec::new(alloc);
    for grant in control.grants() {
        offers.push(sums_of(alloc, first, second, control.cfi(), grant)?)?;
    }
    Ok(offers)
}

// What is read in a row's subframe.
#[derive(Drop)]
struct Reading {
    control: Control,
    offers: Vec<GrantSums>,
}

// Returns what is read in a row's subframe, which a recording holds.
fn reading_of(
    alloc: Global,
    tones: &Tones,
    wide: &WideRecording,
    row: &Row,
    cell: &WideCell,
    work: &mut Decoders,
) -> Result<Option<Reading>, AllocError> {
    let first = received_in(alloc, tones, wide, cell, row.even_start(), 10)?;
    let second = received_in(alloc, tones, wide, cell, row.even_start(), 11)?;
    match (first, second) {
        (Some(first), Some(second)) => {
            let control = control_in(alloc, &first, row.even_sfn(), &mut work.trellis)?;
            let offers = offers_in(alloc, &first, &second, &control)?;
            Ok(Some(Reading { control, offers }))
        }
        _ => Ok(None),
    }
}

// Returns the system information in a recording of a row's cell.
fn system_of(
    alloc: Global,
    wide: &WideRecording,
    row: &Row,
    cell: WideCell,
    work: &mut WideWork,
) -> Result<Option<Answer>, AllocError> {
    if !fits_rate(&cell, wide.rate()) || row.start >= 19_200 {
        return Ok(None);
    }
    let start = u32::from(row.start);
    let found = FoundCell {
        cell,
        start,
        sfn: row.sfn(),
    };
    Ok(Some(system_in(alloc, wide, &found, work)?))
}

// Returns whether the first offer's fields are the answer of a row, if there is an offer.
fn is_first_answer(offers: &[GrantSums], row: &Row, work: &mut Decoders) -> bool {
    match offers.first() {
        Some(offer) => is_answer(&offer.fields(&mut work.turbo), &row.answer),
        None => row.found.is_empty(),
    }
}

#[test]
fn subframes_are_read_as_the_references(rt: HostRuntime) -> Result<(), Fail> {
    let alloc = rt.alloc();
    let tones = Tones::new(alloc)?;
    let mut decoders = Decoders::new(alloc)?;
    let mut work = WideWork::new(alloc)?;
    for row in &ROWS {
        let cell = row.cell()?;
        let symbols = symbols_of(alloc, row)?;
        assert!(rt; of_samples(&symbols) == row.samples, "{}", row.id);
        let wide = recording_of(
            alloc,
            rate_of(row.bandwidth),
            row.even_start(),
            &symbols,
            &[],
        )?
        .ok_or("a recording")?;
        let reading = reading_of(alloc, &tones, &wide, row, &cell, &mut decoders)?.ok_or("slots")?;
        assert!(rt; is_control(&reading.control, row), "{}", row.id);
        assert!(rt;
            is_first_answer(&reading.offers, row, &mut decoders),
            "{}",
            row.id
        );
        let system = system_of(alloc, &wide, row, cell, &mut work)?.ok_or("a cell")?;
        assert!(rt; is_answer(&system, &row.answer), "{}", row.id);
    }
    Ok(())
}

// Returns the grant that a candidate of a row's subframe offers in a format.
fn offered(
    alloc: Global,
    slot: &WideSlot,
    row: &Row,
    format: DciFormat,
    candidate: Candidate,
    work: &mut Decoders,
) -> Result<Option<WideGrant>, Fail> {
    let places = places_of(alloc, slot.cell(), row, candidate)?;
    let values = soft_values(alloc, slot, slot, &places)?;
    let first = 72 * candidate.first as usize;
    if values.len() > 576 || first > 864 {
        return Ok(None);
    }
    let plain = descrambled(alloc, pdcch_c_init(slot.cell().id(), 10), first, &values)?;
    if plain.len() > 576 {
        return Ok(None);
    }
    Ok(offer(
        slot.cell(),
        row.even_sfn(),
        format,
        &plain,
        &mut work.trellis,
    ))
}

fn other_format(format: DciFormat) -> DciFormat {
    match format {
        DciFormat::Format1A => DciFormat::Format1C,
        DciFormat::Format1C => DciFormat::Format1A,
    }
}

// Each candidate that is sent offers its grant in its format, and none in the other.
#[test]
fn sent_grants_are_offered(rt: HostRuntime) -> Result<(), Fail> {
    let alloc = rt.alloc();
    let tones = Tones::new(alloc)?;
    let mut work = Decoders::new(alloc)?;
    for row in &ROWS {
        let cell = row.cell()?;
        let symbols = symbols_of(alloc, row)?;
        let wide = recording_of(
            alloc,
            rate_of(row.bandwidth),
            row.even_start(),
            &symbols,
            &[],
        )?
        .ok_or("a recording")?;
        let slot = received_in(alloc, &tones, &wide, &cell, row.even_start(), 10)?.ok_or("a slot")?;
        for (format, candidate, grant) in row.sent {
            let found = offered(alloc, &slot, row, *format, *candidate, &mut work)?;
            assert!(rt; found == Some(*grant), "{}", row.id);
            let other = other_format(*format);
            let found = offered(alloc, &slot, row, other, *candidate, &mut work)?;
            assert!(rt; found == None, "{}", row.id);
        }
    }
    Ok(())
}

// Returns the sums of the first offer in the subframe of one of the rows that are read together.
fn first_offer(
    alloc: Global,
    tones: &Tones,
    row: &Row,
    symbols: &[Sample],
    work: &mut Decoders,
) -> Result<GrantSums, Fail> {
    let cell = row.cell()?;
    let wide = recording_of(
        alloc,
        rate_of(row.bandwidth),
        row.even_start(),
        symbols,
        &[],
    )?
    .ok_or("a recording")?;
    let reading = reading_of(alloc, tones, &wide, row, &cell, work)?.ok_or("slots")?;
    for offer in reading.offers {
        return Ok(offer);
    }
    Err("an offer")?
}

// Neither frame gives fields alone; the sums of both do, and so does the recording of both.
#[test]
fn two_frames_are_read_together(rt: HostRuntime) -> Result<(), Fail> {
    let alloc = rt.alloc();
    let tones = Tones::new(alloc)?;
    let mut decoders = Decoders::new(alloc)?;
    let [one, other] = &TOGETHER_ROWS;
    let first = symbols_of(alloc, one)?;
    let second = symbols_of(alloc, other)?;
    assert!(rt; of_samples(&first) == one.samples);
    assert!(rt; of_samples(&second) == other.samples);
    let offer = first_offer(alloc, &tones, one, &first, &mut decoders)?;
    let later = first_offer(alloc, &tones, other, &second, &mut decoders)?;
    assert!(rt; is_answer(&offer.fields(&mut decoders.turbo), &one.answer));
    assert!(rt; is_answer(&later.fields(&mut decoders.turbo), &other.answer));
    let mut total = Total::new();
    total.add(&offer);
    total.add(&later);
    let answer = total.fields(offer.grant().size, &mut decoders.turbo);
    assert!(rt; is_answer(&answer, &Ok(TOGETHER)));

    let wide = recording_of(
        alloc,
        rate_of(one.bandwidth),
        one.even_start(),
        &first,
        &second,
    )?
    .ok_or("a recording")?;
    let mut work = WideWork::new(alloc)?;
    let system = system_of(alloc, &wide, one, one.cell()?, &mut work)?.ok_or("a cell")?;
    assert!(rt; is_answer(&system, &Ok(TOGETHER)));
    Ok(())
}

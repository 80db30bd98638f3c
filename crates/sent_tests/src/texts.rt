use hit_details::IdentifiedHit;
use lte_types::{
    Bandwidth, CellId, Duration, Entry, Half, Hit, Mib, Mnc, Plmn, Resource, Sfn, Sib1, Sib1Reason,
};
use report_json::json;
use report_text::{text, text_of_answers, text_of_hits, text_of_ids};
use std::alloc::{AllocError, Global};
use std::test::Fail;
use test_support::{PLAIN_REPORT, message, plain_block};

// Returns a list entry with the given identity, start, frame number, MIB and system information.
fn entry_of(
    id: u16,
    start: u32,
    sfn: u16,
    mib: Mib,
    sib1: Result<Sib1, Sib1Reason>,
) -> Option<Entry> {
    Some(Entry {
        id: CellId::new(id)?,
        start,
        sfn: Sfn::new(sfn)?,
        ports: 1,
        mib,
        frames: 1,
        frame: 0,
        phase: 0,
        cost: 0,
        sib1,
    })
}

// Returns a cell list with `entry` as its only entry.
fn list_of(entry: Option<Entry>) -> Result<[Entry; 1], Fail> {
    let entry = entry.ok_or("out of range")?;
    Ok([entry])
}

// Returns the text report for one cell.
fn report_of(alloc: Global, entry: Option<Entry>) -> Result<String, Fail> {
    let list = list_of(entry)?;
    Ok(text(alloc, &list)?)
}

// Returns the JSON text for one cell.
fn json_of(alloc: Global, entry: Option<Entry>) -> Result<String, Fail> {
    let list = list_of(entry)?;
    Ok(json(alloc, &list)?)
}

fn is_text(found: String, wanted: &str) -> bool {
    found.as_str() == wanted
}

// Returns a list entry with the minimum identity, start and frame number, and the plain SIB1.
fn plain_entry() -> Option<Entry> {
    let mib = Mib::new(Bandwidth::N6, Duration::Normal, Resource::One, 0, 0)?;
    entry_of(0, 0, 0, mib, Ok(plain_block()))
}

// Returns a list entry whose SIB1 has two scheduling entries.
fn scheduled_entry() -> Option<Entry> {
    let mib = Mib::new(Bandwidth::N6, Duration::Extended, Resource::Two, 2, 7)?;
    let mut sib1 = Sib1 {
        tac: 7,
        cell: 7,
        q_rx: -63,
        band: 8,
        tag: 7,
        ..plain_block()
    };
    sib1.scheduling.push(message(0, &[0, 2]));
    entry_of(7, 19_193, 8, mib, Ok(sib1))
}

const SCHEDULED_REPORT: &str = "cells 1
cell 7 at 19193 sfn 8 ports 1 n6 phich extended two br 0 spare 7
sib1 tac 7 cell 7 open allowed csg 0 - rx -63 offset - pmax - band 8 window ms1 tag 7 tdd - extension 0
plmn 001 01 free
si rf8 -
si rf8 0,2
";

// Returns a list entry with the maximum identity, start and frame number, and every optional field of SIB1.
fn full_entry() -> Option<Entry> {
    let mib = Mib::new(Bandwidth::N6, Duration::Normal, Resource::OneSixth, 0, 1023)?;
    let mut sib1 = Sib1 {
        tac: 65_535,
        cell: 65_535,
        barred: true,
        intra: false,
        csg: true,
        csg_identity: Some(134_217_727),
        q_rx: -22,
        q_offset: Some(8),
        p_max: Some(-30),
        band: 64,
        tdd: Some((6, 8)),
        window: 6,
        tag: 31,
        extended: true,
        ..plain_block()
    };
    sib1.plmns.push(Plmn {
        mcc: None,
        mnc: Mnc::Three([2, 0, 9]),
        reserved: true,
    });
    sib1.scheduling.push(message(6, &[79]));
    entry_of(503, 19_199, 1023, mib, Ok(sib1))
}

const FULL_REPORT: &str = "cells 1
cell 503 at 19199 sfn 1023 ports 1 n6 phich normal oneSixth br 31 spare 31
sib1 tac 65535 cell 65535 barred forbidden csg 1 134217727 rx -22 offset 8 pmax -30 band 64 window ms40 \
tag 31 tdd 6/8 extension 1
plmn 001 01 free
plmn - 209 reserved
si rf8 -
si rf512 79
";

// The JSON of `full_entry`, from Python's `json`, with sorted keys and without spaces.
const FULL_JSON: &str =
    "[{\"at\":19199,\"bandwidth\":\"n6\",\"br\":31,\"duration\":\"normal\",\"identity\":503,\"ports\":1,\
    \"resource\":\"oneSixth\",\"sfn\":1023,\"sib1\":{\"band\":64,\"barred\":true,\"cell\":65535,\"csg\":true,\
    \"csg_identity\":134217727,\"extension\":true,\"intra\":false,\"p_max\":-30,\
    \"plmns\":[{\"mcc\":\"001\",\"mnc\":\"01\",\"reserved\":false},\
    {\"mcc\":null,\"mnc\":\"209\",\"reserved\":true}],\"q_offset\":8,\"q_rx\":-22,\
    \"scheduling\":[{\"period\":8,\"sibs\":[]},{\"period\":512,\"sibs\":[79]}],\"tac\":65535,\"tag\":31,\
    \"tdd\":[6,8],\"window\":40},\"spare\":31}]";

// Returns a list entry with two antenna ports, which has no system information for that reason.
fn two_port_entry() -> Option<Entry> {
    let mib = Mib::new(Bandwidth::N6, Duration::Normal, Resource::One, 0, 33)?;
    let entry = entry_of(0, 0, 0, mib, Err(Sib1Reason::NotOnePort(2)))?;
    Some(Entry { ports: 2, ..entry })
}

const TWO_PORT_JSON: &str =
    "[{\"at\":0,\"bandwidth\":\"n6\",\"br\":1,\"duration\":\"normal\",\"identity\":0,\"ports\":2,\
    \"resource\":\"one\",\"sfn\":0,\"sib1\":{\"none\":\"ports 2\"},\"spare\":1}]";

#[test]
fn no_cells_are_one_line(rt: HostRuntime) -> Result<(), Fail> {
    assert!(rt; is_text(text(rt.alloc(), &[])?, "cells 0\n"));
    Ok(())
}

#[test]
fn a_cell_has_its_system_information(rt: HostRuntime) -> Result<(), Fail> {
    let report = report_of(rt.alloc(), plain_entry())?;
    assert!(rt; is_text(report, PLAIN_REPORT));
    Ok(())
}

#[test]
fn a_schedule_has_a_line_for_each_entry(rt: HostRuntime) -> Result<(), Fail> {
    let report = report_of(rt.alloc(), scheduled_entry())?;
    assert!(rt; is_text(report, SCHEDULED_REPORT));
    Ok(())
}

#[test]
fn every_optional_field_is_written(rt: HostRuntime) -> Result<(), Fail> {
    let report = report_of(rt.alloc(), full_entry())?;
    assert!(rt; is_text(report, FULL_REPORT));
    Ok(())
}

// Returns the list entry of a cell 50 resource blocks wide, which has no system information for `reason`.
fn wide_entry(reason: Sib1Reason) -> Option<Entry> {
    let mib = Mib::new(Bandwidth::N50, Duration::Normal, Resource::Half, 0, 0)?;
    entry_of(0, 0, 0, mib, Err(reason))
}

// Returns whether the report of a `wide_entry` ends with `words`.
fn ends_with(report: String, words: &str) -> bool {
    let rest = report.as_str().strip_prefix(
        "cells 1\ncell 0 at 0 sfn 0 ports 1 n50 phich normal half br 0 spare 0\nsib1 none ",
    );
    rest == Some(words)
}

#[test]
fn each_reason_has_its_words(rt: HostRuntime) -> Result<(), Fail> {
    for (reason, words) in [
        (Sib1Reason::NotOnePort(4), "ports 4\n"),
        (Sib1Reason::Bandwidth(Bandwidth::N100), "bandwidth n100\n"),
        (Sib1Reason::NoSearchSpace(2), "no-search-space 2\n"),
        (Sib1Reason::NoControl, "no-control\n"),
        (Sib1Reason::NotFormat1A, "not-1a\n"),
        (Sib1Reason::Distributed, "distributed\n"),
        (Sib1Reason::BadRiv(21), "bad-riv 21\n"),
        (Sib1Reason::ReservedMcs(27), "reserved-mcs 27\n"),
        (Sib1Reason::BlockTooLarge, "block-too-large\n"),
        (Sib1Reason::NotDecoded, "not-decoded\n"),
        (Sib1Reason::NotSib1, "not-sib1\n"),
        (Sib1Reason::BadFields(32), "bad-fields 32\n"),
        (Sib1Reason::LongPrefix, "long-prefix\n"),
    ] {
        let report = report_of(rt.alloc(), wide_entry(reason))?;
        assert!(rt; ends_with(report, words));
    }
    Ok(())
}

// Returns a PSS detection at sample `t` with N_ID(2) = `n2`.
fn hit_at(t: u32, n2: u8) -> Hit {
    Hit {
        t,
        n2,
        peak: 1,
        energy: 1,
    }
}

#[test]
fn hits_have_a_line_each(rt: HostRuntime) -> Result<(), Fail> {
    let two = [hit_at(960, 2), hit_at(19_345, 0)];
    assert!(rt; is_text(text_of_hits(rt.alloc(), &[])?, "hits 0\n"));
    assert!(rt; is_text(text_of_hits(rt.alloc(), &two)?, "hits 2\n960 2\n19345 0\n"));
    Ok(())
}

#[test]
fn identified_hits_have_a_line_each(rt: HostRuntime) -> Result<(), Fail> {
    let id = CellId::new(503).ok_or("out of range")?;
    let two = [
        IdentifiedHit {
            hit: hit_at(960, 2),
            id,
            half: Half::Five,
            start: 9_728,
        },
        IdentifiedHit {
            hit: hit_at(832, 2),
            id,
            half: Half::Zero,
            start: 0,
        },
    ];
    assert!(rt; is_text(text_of_ids(rt.alloc(), &[])?, "ids 0\n"));
    assert!(rt;
        is_text(
            text_of_ids(rt.alloc(), &two)?,
            "ids 2\n960 503 5 9728\n832 503 0 0\n"
        )
    );
    Ok(())
}

#[test]
fn answers_have_a_line_each(rt: HostRuntime) -> Result<(), Fail> {
    let two = [true, false];
    assert!(rt; is_text(text_of_answers(rt.alloc(), &[])?, "certificates 0\n"));
    assert!(rt;
        is_text(
            text_of_answers(rt.alloc(), &two)?,
            "certificates 2\n0 yes\n1 no\n"
        )
    );
    Ok(())
}

#[test]
fn no_cells_are_an_empty_array(rt: HostRuntime) -> Result<(), Fail> {
    assert!(rt; is_text(json(rt.alloc(), &[])?, "[]"));
    Ok(())
}

#[test]
fn a_reason_is_an_object_of_its_words(rt: HostRuntime) -> Result<(), Fail> {
    let text = json_of(rt.alloc(), two_port_entry())?;
    assert!(rt; is_text(text, TWO_PORT_JSON));
    Ok(())
}

#[test]
fn every_optional_field_has_its_key(rt: HostRuntime) -> Result<(), Fail> {
    let text = json_of(rt.alloc(), full_entry())?;
    assert!(rt; is_text(text, FULL_JSON));
    Ok(())
}

const CODES: [u8; 31] = [
    0, 1, 2, 3, 4, 5, 6, 7, 8, 9, 10, 11, 12, 13, 14, 15, 16, 17, 18, 19, 20, 21, 22, 23, 24, 25,
    26, 27, 28, 29, 30,
];

// Returns the plain cell's list entry with 31 further scheduling entries of 31 codes each.
fn crowded_entry() -> Option<Entry> {
    let mib = Mib::new(Bandwidth::N6, Duration::Normal, Resource::One, 0, 0)?;
    let mut sib1 = plain_block();
    for _ in 0..31_u32 {
        sib1.scheduling.push(message(3, &CODES));
    }
    entry_of(0, 0, 0, mib, Ok(sib1))
}

// Returns the JSON text of the crowded cell, in the form of Python's `json`.
fn crowded_json(alloc: Global) -> Result<String, AllocError> {
    let mut text = String::from_str(
        alloc,
        "[{\"at\":0,\"bandwidth\":\"n6\",\"br\":0,\"duration\":\"normal\",\"identity\":0,\"ports\":1,\
        \"resource\":\"one\",\"sfn\":0,\"sib1\":{\"band\":1,\"barred\":false,\"cell\":1,\"csg\":false,\
        \"csg_identity\":null,\"extension\":false,\"intra\":true,\"p_max\":null,\
        \"plmns\":[{\"mcc\":\"001\",\"mnc\":\"01\",\"reserved\":false}],\"q_offset\":null,\"q_rx\":-70,\
        \"scheduling\":[{\"period\":8,\"sibs\":[]}",
    )?;
    for _ in 0..31_u32 {
        text.push_str(
            ",{\"period\":64,\"sibs\":[0,1,2,3,4,5,6,7,8,9,10,11,12,13,14,15,16,17,18,19,20,21,22,23,24,25,26,\
            27,28,29,30]}",
        )?;
    }
    text.push_str("],\"tac\":1,\"tag\":0,\"tdd\":null,\"window\":1},\"spare\":0}]")?;
    Ok(text)
}

#[test]
fn the_longest_lists_are_whole(rt: HostRuntime) -> Result<(), Fail> {
    let text = json_of(rt.alloc(), crowded_entry())?;
    assert!(rt; is_text(text, &crowded_json(rt.alloc())?));
    Ok(())
}

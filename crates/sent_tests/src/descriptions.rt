use cell_json::{JsonError, read};
use cell_tx::{CellError, CellPlan, Transmission};
use lte_types::{Duration, Mnc, Plmn, Resource, SiMessage, Sib1};
use std::alloc::{AllocError, Global};
use std::test::Fail;
use test_support::{PLAIN_KEYS, description, plain_block};

// Parses the plain cell's description with the keys `change` appended, and `block` appended to its SIB1.
fn answer(
    alloc: Global,
    change: &str,
    block: &str,
) -> Result<Result<Transmission, JsonError>, AllocError> {
    let text = description(alloc, change, block)?;
    Ok(read(alloc, text.as_bytes()))
}

// Returns whether the changed description is refused for `cause`.
fn is_refused(
    alloc: Global,
    change: &str,
    block: &str,
    cause: CellError,
) -> Result<bool, AllocError> {
    let found = answer(alloc, change, block)?;
    Ok(found.err() == Some(JsonError::Cell(cause)))
}

// Changes that violate the description's format.
const OTHER_FORMS: [&str; 22] = [
    ", \"identity\": 7.0, \"sfn\": 1024",
    ", \"sfn\": 1e2",
    ", \"offset\": -0",
    ", \"samples\": 9223372036854775808",
    ", \"samples\": 1e400",
    ", \"samples\": 057600",
    ", \"spare\": \"0\"",
    ", \"spare\": true",
    ", \"cfi\": null",
    ", \"column\": [2]",
    ", \"gain\": [1]",
    ", \"gain\": [1, 0, 0]",
    ", \"gain\": [1, 0.5]",
    ", \"gain\": 1",
    ", \"duration\": \"Normal\"",
    ", \"duration\": 0",
    ", \"resource\": \"1/6\"",
    ", \"resource\": null",
    ", \"tdd\": null",
    ", \"sib1\": null",
    ", \"sib1\": {}",
    "}, {",
];

#[test]
fn another_kind_of_value_or_key_has_not_the_form(rt: HostRuntime) -> Result<(), Fail> {
    for change in OTHER_FORMS {
        assert!(rt; is_refused(rt.alloc(), change, "", CellError::Form)?);
    }
    Ok(())
}

// Changes that violate the format of the SIB1.
const OTHER_FORMS_OF_THE_BLOCK: [&str; 21] = [
    ", \"tac\": null",
    ", \"barred\": 0",
    ", \"intra\": \"allowed\"",
    ", \"csg_identity\": false",
    ", \"q_offset\": \"-\"",
    ", \"p_max\": 1.5",
    ", \"window\": \"ms1\"",
    ", \"tdd\": null",
    ", \"extension\": false",
    ", \"plmns\": {}",
    ", \"plmns\": [null]",
    ", \"plmns\": [{\"mcc\": \"001\", \"mnc\": \"01\"}]",
    ", \"plmns\": [{\"mcc\": 1, \"mnc\": \"01\", \"reserved\": false}]",
    ", \"plmns\": [{\"mcc\": \"001\", \"mnc\": null, \"reserved\": false}]",
    ", \"plmns\": [{\"mcc\": \"001\", \"mnc\": \"01\", \"reserved\": false, \"tac\": 1}]",
    ", \"scheduling\": [[8, []]]",
    ", \"scheduling\": [{\"period\": 8}]",
    ", \"scheduling\": [{\"period\": \"rf8\", \"sibs\": []}]",
    ", \"scheduling\": [{\"period\": 8, \"sibs\": null}]",
    ", \"scheduling\": [{\"period\": 8, \"sibs\": [3, null]}]",
    ", \"scheduling\": [{\"period\": 8, \"sibs\": [], \"window\": 1}]",
];

#[test]
fn a_block_of_another_form_has_not_the_form(rt: HostRuntime) -> Result<(), Fail> {
    for block in OTHER_FORMS_OF_THE_BLOCK {
        assert!(rt; is_refused(rt.alloc(), "", block, CellError::Form)?);
    }
    Ok(())
}

// Changes that put a value of the transmission out of range, and the error of each.
const OUT_OF_RANGE: [(&str, CellError); 12] = [
    (", \"sfn\": 1024, \"identity\": 504", CellError::Sfn),
    (", \"sfn\": -1, \"offset\": 19200", CellError::Sfn),
    (", \"offset\": 19200, \"samples\": 57599", CellError::Offset),
    (", \"offset\": -1", CellError::Offset),
    (", \"offset\": 4294967296", CellError::Offset),
    (", \"samples\": 57599, \"gain\": [0, 0]", CellError::Samples),
    (", \"samples\": 1920001", CellError::Samples),
    (", \"gain\": [0, 0], \"identity\": 504", CellError::Gain),
    (", \"gain\": [29, 0]", CellError::Gain),
    (", \"gain\": [28, -1]", CellError::Gain),
    (", \"gain\": [4294967296, 0]", CellError::Gain),
    (
        ", \"gain\": [9223372036854775807, -9223372036854775808]",
        CellError::Gain,
    ),
];

#[test]
fn what_is_sent_is_in_its_ranges(rt: HostRuntime) -> Result<(), Fail> {
    for (change, cause) in OUT_OF_RANGE {
        assert!(rt; is_refused(rt.alloc(), change, "", cause)?);
    }
    Ok(())
}

// Changes that put a value of the SIB1 out of range.
const BLOCK_OUT_OF_RANGE: [&str; 31] = [
    ", \"tac\": 65536",
    ", \"tac\": -1",
    ", \"cell\": 268435456",
    ", \"csg_identity\": 134217728",
    ", \"q_rx\": -71",
    ", \"q_rx\": -21",
    ", \"q_offset\": 0",
    ", \"q_offset\": 9",
    ", \"p_max\": -31",
    ", \"p_max\": 34",
    ", \"band\": 0",
    ", \"band\": 65",
    ", \"window\": 0",
    ", \"window\": 3",
    ", \"window\": 6",
    ", \"tag\": 32",
    ", \"plmns\": []",
    ", \"plmns\": [{\"mcc\": null, \"mnc\": \"01\", \"reserved\": false}]",
    ", \"plmns\": [{\"mcc\": \"01\", \"mnc\": \"01\", \"reserved\": false}]",
    ", \"plmns\": [{\"mcc\": \"0010\", \"mnc\": \"01\", \"reserved\": false}]",
    ", \"plmns\": [{\"mcc\": \"00a\", \"mnc\": \"01\", \"reserved\": false}]",
    ", \"plmns\": [{\"mcc\": \"001\", \"mnc\": \"1\", \"reserved\": false}]",
    ", \"plmns\": [{\"mcc\": \"001\", \"mnc\": \"0123\", \"reserved\": false}]",
    ", \"plmns\": [{\"mcc\": \"001\", \"mnc\": \"-1\", \"reserved\": false}]",
    ", \"scheduling\": []",
    ", \"scheduling\": [{\"period\": 7, \"sibs\": []}]",
    ", \"scheduling\": [{\"period\": 0, \"sibs\": []}]",
    ", \"scheduling\": [{\"period\": 1024, \"sibs\": []}]",
    ", \"scheduling\": [{\"period\": 8, \"sibs\": [80]}]",
    ", \"scheduling\": [{\"period\": 8, \"sibs\": [-1]}]",
    ", \"scheduling\": [{\"period\": 8, \"sibs\": [0,0,0,0,0,0,0,0, 0,0,0,0,0,0,0,0, \
     0,0,0,0,0,0,0,0, 0,0,0,0,0,0,0,0]}]",
];

#[test]
fn each_value_of_the_block_is_in_its_range(rt: HostRuntime) -> Result<(), Fail> {
    for block in BLOCK_OUT_OF_RANGE {
        assert!(rt; is_refused(rt.alloc(), "", block, CellError::Sib1Range)?);
    }
    Ok(())
}

// Changes whose plan is not a valid cell, and the error of each.
const NOT_OF_A_CELL: [(&str, CellError); 19] = [
    (", \"identity\": 504, \"spare\": 1024", CellError::Identity),
    (", \"identity\": -1", CellError::Identity),
    (", \"identity\": 65536", CellError::Identity),
    (", \"spare\": 1024, \"cfi\": 1", CellError::Spare),
    (", \"spare\": -9223372036854775808", CellError::Spare),
    (", \"cfi\": 1, \"blocks\": 0", CellError::Cfi),
    (", \"cfi\": -1", CellError::Cfi),
    (", \"cfi\": 258", CellError::Cfi),
    (", \"blocks\": 0, \"mcs\": 31", CellError::Assignment),
    (", \"start\": 1", CellError::Assignment),
    (", \"start\": 256, \"blocks\": 1", CellError::Assignment),
    (", \"start\": -1, \"blocks\": 7", CellError::Assignment),
    (", \"mcs\": 27", CellError::Mcs),
    (", \"column\": 1", CellError::Mcs),
    (", \"column\": 258", CellError::Mcs),
    (", \"mcs\": -1", CellError::Mcs),
    (", \"mcs\": 21, \"blocks\": 1", CellError::Punctured),
    (
        ", \"mcs\": 9, \"cfi\": 3, \"blocks\": 3",
        CellError::Punctured,
    ),
    (", \"mcs\": 2", CellError::Sib1Long),
];

#[test]
fn the_plan_is_one_of_a_cell(rt: HostRuntime) -> Result<(), Fail> {
    for (change, cause) in NOT_OF_A_CELL {
        assert!(rt; is_refused(rt.alloc(), change, "", cause)?);
    }
    Ok(())
}

#[test]
fn the_block_is_looked_at_before_the_plan(rt: HostRuntime) -> Result<(), Fail> {
    for (change, block, cause) in [
        (", \"sfn\": 1024", ", \"tac\": null", CellError::Form),
        (", \"gain\": [0, 0]", ", \"tac\": -1", CellError::Gain),
        (", \"identity\": 504", ", \"tac\": -1", CellError::Sib1Range),
    ] {
        assert!(rt; is_refused(rt.alloc(), change, block, cause)?);
    }
    Ok(())
}

// Returns whether bytes are refused because they are not a description.
fn has_not_the_form(alloc: Global, bytes: &[u8]) -> bool {
    read(alloc, bytes).err() == Some(JsonError::Cell(CellError::Form))
}

#[test]
fn no_description_at_all_has_not_the_form(rt: HostRuntime) {
    for bytes in [
        b"".as_slice(),
        b"{}".as_slice(),
        b"[]".as_slice(),
        b"\"\xff\"".as_slice(),
        PLAIN_KEYS.as_bytes(),
        [b'['; 200].as_slice(),
    ] {
        assert!(rt; has_not_the_form(rt.alloc(), bytes));
    }
}

// Returns whether the resource blocks and the MCS are those of the plain description.
fn has_plain_assignment(plan: &CellPlan) -> bool {
    plan.cfi == 2 && plan.start == 0 && plan.blocks == 6 && plan.mcs == 4 && plan.column == 2
}

// Returns whether a scheduling entry has period code `period` and `count` SIBs.
fn is_message(entry: &SiMessage, period: u8, count: usize) -> bool {
    entry.period == period && entry.sibs.slice().len() == count
}

fn is_plain(transmission: &Transmission) -> bool {
    let plan = transmission.cell.plan();
    transmission.sfn.value() == 0
        && transmission.offset == 0
        && has_plain_assignment(plan)
        && plan.sib1 == plain_block()
}

#[test]
fn the_plain_description_is_read(rt: HostRuntime) -> Result<(), Fail> {
    let transmission = answer(rt.alloc(), "", "")??;
    assert!(rt; is_plain(&transmission));
    Ok(())
}

// Values for every key except `column` that differ from the plain cell's.
const OTHER: &str = ", \"identity\": 503, \"sfn\": 1023, \"offset\": 19199, \"samples\": 1920000, \
    \"gain\": [-27, 7], \"duration\": \"extended\", \"resource\": \"oneSixth\", \"spare\": 1023, \"cfi\": 3, \
    \"start\": 1, \"blocks\": 5, \"mcs\": 5";

fn has_other_plan(plan: &CellPlan) -> bool {
    plan.identity == 503
        && plan.spare == 1023
        && plan.duration == Duration::Extended
        && plan.resource == Resource::OneSixth
}

fn has_other_assignment(plan: &CellPlan) -> bool {
    plan.cfi == 3 && plan.start == 1 && plan.blocks == 5 && plan.mcs == 5 && plan.column == 2
}

fn is_other(transmission: &Transmission) -> bool {
    transmission.sfn.value() == 1023
        && transmission.offset == 19_199
        && transmission.samples == 1_920_000
        && transmission.gain == (-27, 7)
        && has_other_plan(transmission.cell.plan())
        && has_other_assignment(transmission.cell.plan())
}

#[test]
fn another_description_is_read(rt: HostRuntime) -> Result<(), Fail> {
    let transmission = answer(rt.alloc(), OTHER, "")??;
    assert!(rt; is_other(&transmission));
    Ok(())
}

// A SIB1 with every value at an end of its range.
const ENDS: &str =
    ", \"tac\": 65535, \"cell\": 268435455, \"barred\": true, \"intra\": false, \"csg\": true, \
    \"csg_identity\": 134217727, \"q_rx\": -22, \"q_offset\": 8, \"p_max\": 33, \"band\": 64, \
    \"scheduling\": [{\"period\": 512, \"sibs\": [79, 0]}, {\"period\": 16, \"sibs\": []}], \"window\": 40, \
    \"tag\": 31";

fn has_ends_of_identities(sib1: &Sib1) -> bool {
    sib1.tac == 65_535
        && sib1.cell == 268_435_455
        && sib1.barred
        && !sib1.intra
        && sib1.csg
        && sib1.csg_identity == Some(134_217_727)
}

fn has_ends_of_levels(sib1: &Sib1) -> bool {
    sib1.q_rx == -22
        && sib1.q_offset == Some(8)
        && sib1.p_max == Some(33)
        && sib1.band == 64
        && sib1.window == 6
        && sib1.tag == 31
}

fn has_ends_of_the_schedule(sib1: &Sib1) -> bool {
    match sib1.scheduling.slice() {
        [first, second] => is_message(first, 6, 2) && is_message(second, 1, 0),
        _ => false,
    }
}

fn has_ends(sib1: &Sib1) -> bool {
    has_ends_of_identities(sib1) && has_ends_of_levels(sib1) && has_ends_of_the_schedule(sib1)
}

#[test]
fn the_ends_of_the_ranges_are_read(rt: HostRuntime) -> Result<(), Fail> {
    let transmission = answer(rt.alloc(), ", \"mcs\": 8", ENDS)??;
    assert!(rt; has_ends(&transmission.cell.plan().sib1));
    Ok(())
}

// Six networks; only one has a country code.
const NETWORKS: &str = ", \"plmns\": [{\"mcc\": \"262\", \"mnc\": \"012\", \"reserved\": true}, \
    {\"mcc\": null, \"mnc\": \"02\", \"reserved\": false}, {\"mcc\": null, \"mnc\": \"03\", \"reserved\": false}, \
    {\"mcc\": null, \"mnc\": \"04\", \"reserved\": false}, {\"mcc\": null, \"mnc\": \"05\", \"reserved\": false}, \
    {\"mcc\": null, \"mnc\": \"06\", \"reserved\": false}";

fn has_six_networks(sib1: &Sib1) -> bool {
    let one = Plmn {
        mcc: Some([2, 6, 2]),
        mnc: Mnc::Three([0, 1, 2]),
        reserved: true,
    };
    let six = Plmn {
        mcc: None,
        mnc: Mnc::Two([0, 6]),
        reserved: false,
    };
    match sib1.plmns.slice() {
        [first, _, _, _, _, last] => *first == one && *last == six,
        _ => false,
    }
}

#[test]
fn six_networks_are_read_and_not_seven(rt: HostRuntime) -> Result<(), Fail> {
    let alloc = rt.alloc();
    let six = format!(in alloc; "{NETWORKS}]")?;
    let transmission = answer(alloc, ", \"mcs\": 6", six.as_str())??;
    assert!(rt; has_six_networks(&transmission.cell.plan().sib1));
    let seven = format!(in alloc;
        "{NETWORKS}, {{\"mcc\": null, \"mnc\": \"07\", \"reserved\": false}}]"
    )?;
    assert!(rt; is_refused(alloc, ", \"mcs\": 6", seven.as_str(), CellError::Sib1Range)?);
    Ok(())
}

// Returns the number of entries parsed from a schedule with `more` + 1 entries.
fn entries(alloc: Global, more: usize) -> Result<Result<usize, JsonError>, AllocError> {
    let mut list = String::new(alloc);
    list.push_str(", \"scheduling\": [{\"period\": 64, \"sibs\": []}")?;
    for _ in 0..more {
        list.push_str(", {\"period\": 128, \"sibs\": []}")?;
    }
    list.push_str("]")?;
    let found = answer(alloc, ", \"mcs\": 11", list.as_str())?;
    Ok(found.map(|transmission| transmission.cell.plan().sib1.scheduling.slice().len()))
}

#[test]
fn a_full_schedule_is_read_and_no_fuller_one(rt: HostRuntime) -> Result<(), Fail> {
    assert!(rt; entries(rt.alloc(), 31)? == Ok(32));
    assert!(rt; entries(rt.alloc(), 32)? == Err(JsonError::Cell(CellError::Sib1Range)));
    Ok(())
}

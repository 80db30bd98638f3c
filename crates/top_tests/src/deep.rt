//! The command `ids --deep`. The expected texts are from the reference implementation,
//! `python/lte_reference/deep.py`.

use crate::cells::{plain_gives, zeros_give};
use crate::lengths::refuse_lengths;
use crate::{gives, sent_by, with_two_ports};
use lte_top::Program;
use std::alloc::{AllocError, Global};
use std::test::Fail;

// The plain cell.
const OF_PLAIN: &str = "deep 1 of 5
832 0 0 0 matches 124 ratio 999 power 1585203525
";

const OF_PLAIN_AS_JSON: &str =
    "{\"cells\":[{\"at\":0,\"identity\":0,\"matches\":124,\"power\":1585203525,\"ratio\":999,\
\"subframe\":0,\"t\":832}],\"half_frames\":5}\n";

// The plain cell, followed by synthetic recording 90 with two antenna ports: 249,600 samples.
const OF_TWO: &str = "deep 2 of 25
742 90 0 19110 matches 124 ratio 761 power 1204056596
832 0 0 0 matches 124 ratio 251 power 372032348
";

// The plain cell's recording six times, 345,600 samples: of the first 326,400, and of all.
const OF_FIRST: &str = "deep 1 of 33
832 0 0 0 matches 124 ratio 999 power 1585201122
";

const OF_ALL: &str = "deep 1 of 35
832 0 0 0 matches 124 ratio 999 power 1585201098
";

#[test]
fn lists_of_the_plain_cell(rt: HostRuntime) -> Result<(), Fail> {
    for (line, text) in [
        ("ids --deep", OF_PLAIN),
        ("ids --deep all", OF_PLAIN),
        ("ids --deep --json", OF_PLAIN_AS_JSON),
        ("ids --deep all --json", OF_PLAIN_AS_JSON),
    ] {
        assert!(rt; plain_gives(rt.alloc(), line, text)?, "{line}");
    }
    Ok(())
}

#[test]
fn zeros_hold_no_cell(rt: HostRuntime) -> Result<(), Fail> {
    for (line, text) in [
        ("ids --deep", "deep 0 of 5\n"),
        ("ids --deep --json", "{\"cells\":[],\"half_frames\":5}\n"),
    ] {
        assert!(rt; zeros_give(rt.alloc(), line, text)?, "{line}");
    }
    Ok(())
}

// Returns the plain cell's recording, followed by synthetic recording 90 with two antenna ports.
fn two_cells(alloc: Global) -> Result<Vec<u8>, AllocError> {
    let mut bytes = sent_by(alloc, "")?.written;
    bytes.extend_from_slice(&with_two_ports(alloc)?)?;
    Ok(bytes)
}

#[test]
fn both_cells_are_listed(rt: HostRuntime) -> Result<(), Fail> {
    let bytes = two_cells(rt.alloc())?;
    assert!(rt; gives(rt.alloc(), "ids --deep", bytes, OF_TWO)?);
    Ok(())
}

#[test]
fn all_samples_or_the_first(rt: HostRuntime) -> Result<(), Fail> {
    let alloc = rt.alloc();
    let bytes = sent_by(alloc, "")?.written.repeat(alloc, 6)?;
    for (line, text) in [("ids --deep", OF_FIRST), ("ids --deep all", OF_ALL)] {
        assert!(rt; gives(alloc, line, bytes.clone()?, text)?, "{line}");
    }
    Ok(())
}

#[test]
fn lengths_that_are_refused(rt: HostRuntime) -> Result<(), Fail> {
    refuse_lengths(&rt, rt.alloc(), Program::Receiver, "ids --deep all")
}

//! The command `transmit`: refused descriptions, and `search` on its output under each transmission scheme. The
//! expected lists are from the reference implementations: `python/lte_reference/search.py` on the output of
//! `python/lte_reference/cell.py`.

use crate::{Output, gives, output_of, sent_by, sent_with_words};
use cell_tx::CellError;
use lte_top::Status;
use std::alloc::{AllocError, Global};
use std::test::Fail;
use test_support::{PLAIN_REPORT, description};

// Returns whether a description is refused for `cause`, and nothing is written.
fn is_refused(sent: &Output, cause: CellError) -> bool {
    sent.is_refused(Status::BadCell(cause), 9)
}

#[test]
fn cells_whose_punctured_block_cannot_be_resolved_are_refused(rt: HostRuntime) -> Result<(), Fail> {
    for change in [
        r#", "mcs": 21, "blocks": 1"#,
        r#", "mcs": 9, "cfi": 3, "blocks": 3"#,
        // The hard decision after one iteration, with zeros for the unresolved bits, passes the CRC.
        r#", "mcs": 17"#,
    ] {
        let sent = sent_by(rt.alloc(), change)?;
        assert!(rt; is_refused(&sent, CellError::Punctured), "{change}");
    }
    Ok(())
}

// Runs `transmit` on the first `len` bytes of the plain cell's description.
fn sent_front(alloc: Global, len: usize) -> Result<Output, AllocError> {
    let text = description(alloc, "", "")?;
    let mut bytes = text.as_bytes().to_vec(alloc)?;
    bytes.truncate(len);
    output_of(alloc, "transmit", bytes)
}

#[test]
fn descriptions_that_are_refused(rt: HostRuntime) -> Result<(), Fail> {
    for text in ["{}", ""] {
        let sent = output_of(rt.alloc(), "transmit", text.as_bytes().to_vec(rt.alloc())?)?;
        assert!(rt; is_refused(&sent, CellError::Form), "{text}");
    }
    let sent = sent_front(rt.alloc(), 100)?;
    assert!(rt; is_refused(&sent, CellError::Form));
    for (change, cause) in [
        (r#", "identity": 504, "sfn": 1024"#, CellError::Sfn),
        (r#", "identity": 504, "spare": 1024"#, CellError::Identity),
    ] {
        let sent = sent_by(rt.alloc(), change)?;
        assert!(rt; is_refused(&sent, cause), "{change}");
    }
    Ok(())
}

#[test]
fn a_description_that_is_too_long(rt: HostRuntime) -> Result<(), Fail> {
    for (len, refusal) in [
        (65_536, Status::BadCell(CellError::Form)),
        (65_537, Status::TooLong),
    ] {
        let spaces = vec![in rt.alloc(); b' '; len]?;
        let output = output_of(rt.alloc(), "transmit", spaces)?;
        assert!(rt; output.is(refusal, b""), "{len} bytes");
    }
    Ok(())
}

// Gains for two antenna ports.
const TWO_GAINS: &str = r#", "gain": [9, -5], "gain2": [-6, 8]"#;

// Gains for four antenna ports.
const FOUR_GAINS: &str =
    r#", "gain": [6, -3], "gain2": [5, 5], "gain3": [-4, 6], "gain4": [2, -6]"#;

// The plain cell with two antenna ports, as `search --ports 2` lists it.
const TWO_PORTS_REPORT: &str = "cells 1
cell 0 at 0 sfn 0 ports 2 n6 phich normal one br 0 spare 0
sib1 tac 1 cell 1 open allowed csg 0 - rx -70 offset - pmax - band 1 window ms1 tag 0 tdd - extension 0
plmn 001 01 free
si rf8 -
";

// The plain cell with four antenna ports, as `search --ports 4` lists it.
const FOUR_PORTS_REPORT: &str = "cells 1
cell 0 at 0 sfn 0 ports 4 n6 phich normal one br 0 spare 0
sib1 none ports 4
";

// The plain cell with the extended cyclic prefix, as `search --prefix long` lists it.
const LONG_PREFIX_REPORT: &str = "cells 1
cell 0 at 0 sfn 0 ports 1 n6 phich normal one br 0 spare 0
sib1 none long-prefix
";

// Returns whether `transmit` on the plain cell's description with `change` writes a recording for which `search` gives
// the expected list.
fn is_found(
    alloc: Global,
    line: &str,
    change: &str,
    search: &str,
    report: &str,
) -> Result<bool, AllocError> {
    let sent = sent_with_words(alloc, line, change)?;
    gives(alloc, search, sent.written, report)
}

#[test]
fn what_is_sent_is_found_by_the_same_rule(rt: HostRuntime) -> Result<(), Fail> {
    for (line, change, search, report) in [
        ("transmit --load 7", "", "search", PLAIN_REPORT),
        (
            "transmit --ports 2",
            TWO_GAINS,
            "search --ports 2",
            TWO_PORTS_REPORT,
        ),
        (
            "transmit --ports 2 --load 7",
            TWO_GAINS,
            "search --ports 2",
            TWO_PORTS_REPORT,
        ),
        (
            "transmit --ports 4",
            FOUR_GAINS,
            "search --ports 4",
            FOUR_PORTS_REPORT,
        ),
        (
            "transmit --ports 4 --load 7",
            FOUR_GAINS,
            "search --ports 4",
            FOUR_PORTS_REPORT,
        ),
        (
            "transmit --prefix long",
            "",
            "search --prefix long",
            LONG_PREFIX_REPORT,
        ),
        (
            "transmit --prefix long --load 7",
            "",
            "search --prefix long",
            LONG_PREFIX_REPORT,
        ),
    ] {
        assert!(rt;
            is_found(rt.alloc(), line, change, search, report)?,
            "{line}"
        );
    }
    Ok(())
}

#[test]
fn a_further_gain_is_of_its_ports_alone(rt: HostRuntime) -> Result<(), Fail> {
    for (line, change) in [
        ("transmit", TWO_GAINS),
        ("transmit --prefix long", TWO_GAINS),
        ("transmit --ports 2", ""),
        ("transmit --ports 2", FOUR_GAINS),
        ("transmit --ports 4", ""),
        ("transmit --ports 4", TWO_GAINS),
    ] {
        let sent = sent_with_words(rt.alloc(), line, change)?;
        assert!(rt; is_refused(&sent, CellError::Form), "{line}");
    }
    let greater = r#", "gain": [14, 14], "gain2": [1, 0]"#;
    let sent = sent_with_words(rt.alloc(), "transmit --ports 2", greater)?;
    assert!(rt; is_refused(&sent, CellError::Gain));
    let greater = r#", "gain": [6, -3], "gain2": [5, 5], "gain3": [-4, 7], "gain4": [2, -6]"#;
    let sent = sent_with_words(rt.alloc(), "transmit --ports 4", greater)?;
    assert!(rt; is_refused(&sent, CellError::Gain));
    Ok(())
}

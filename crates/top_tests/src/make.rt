//! The command `make`. The expected texts are from two reference implementations, `python/lte_reference/make.py` and
//! `python/lte_reference/search.py`; for further antenna ports and the extended cyclic prefix, they are worked out by
//! hand.

use crate::{Output, command_line, output_unread};
use lte_top::{Program, Status};
use std::alloc::{AllocError, Global};
use std::test::Fail;

const FIRST: &[u8] = b"made 0 at 0 sfn 0 held 1
cells 1
cell 0 at 0 sfn 0 ports 1 n6 phich normal oneSixth br 0 spare 0
sib1 tac 0 cell 0 open allowed csg 0 - rx -70 offset - pmax - band 1 window ms1 tag 0 tdd - extension 0
plmn 001 01 free
si rf8 -
si rf8 0,2
";

const LONGEST: &[u8] = b"made 89 at 19111 sfn 90 held 1
";

const TWO_PORTS: &[u8] = b"made 7 at 19193 sfn 8 held 1
cells 1
cell 7 at 19193 sfn 8 ports 2 n6 phich extended two br 0 spare 7
sib1 tac 7 cell 7 open allowed csg 0 - rx -63 offset - pmax - band 8 window ms1 tag 7 tdd - extension 0
plmn 001 01 free
si rf8 -
si rf8 0,2
";

const FOUR_PORTS: &[u8] = b"made 7 at 19193 sfn 8 held 1
cells 1
cell 7 at 19193 sfn 8 ports 4 n6 phich extended two br 0 spare 7
sib1 none ports 4
";

const LONG_PREFIX: &[u8] = b"made 7 at 19193 sfn 8 held 1
cells 1
cell 7 at 19193 sfn 8 ports 1 n6 phich extended two br 0 spare 7
sib1 none long-prefix
";

// Runs a command, and returns its output, or `None` if the command reads its input.
fn made_by(alloc: Global, line: &str) -> Result<Option<Output>, AllocError> {
    let words = command_line(alloc, line)?;
    let (output, unread) = output_unread(alloc, Program::Receiver, &words)?;
    Ok(if unread { Some(output) } else { None })
}

// Returns whether a command reads nothing, ends with `Done`, and writes exactly `text`.
fn makes(alloc: Global, line: &str, text: &[u8]) -> Result<bool, AllocError> {
    Ok(match made_by(alloc, line)? {
        Some(output) => output.is(Status::Done, text),
        None => false,
    })
}

#[test]
fn the_first_recording_holds_its_cell(rt: HostRuntime) -> Result<(), Fail> {
    assert!(rt; makes(rt.alloc(), "make 0", FIRST)?);
    Ok(())
}

#[test]
fn a_recording_of_99_frames_holds_its_cell(rt: HostRuntime) -> Result<(), Fail> {
    let output = made_by(rt.alloc(), "make 89")?.ok_or("it reads")?;
    assert!(rt; output.status == Status::Done && output.written.starts_with(LONGEST));
    Ok(())
}

#[test]
fn number_7_of_two_antenna_ports_holds_its_cell(rt: HostRuntime) -> Result<(), Fail> {
    assert!(rt; makes(rt.alloc(), "make 7 --ports 2", TWO_PORTS)?);
    Ok(())
}

#[test]
fn number_7_of_four_antenna_ports_holds_its_cell(rt: HostRuntime) -> Result<(), Fail> {
    assert!(rt; makes(rt.alloc(), "make 7 --ports 4", FOUR_PORTS)?);
    Ok(())
}

#[test]
fn number_7_with_the_extended_prefix_holds_its_cell(rt: HostRuntime) -> Result<(), Fail> {
    assert!(rt; makes(rt.alloc(), "make 7 --prefix long", LONG_PREFIX)?);
    Ok(())
}

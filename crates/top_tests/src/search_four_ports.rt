//! The command `search --ports 4`.

use crate::cells::zeros_give;
use crate::lengths::refuse_lengths;
use crate::{gives, with_four_ports};
use lte_top::Program;
use std::test::Fail;

#[test]
fn zeros_hold_no_cell(rt: HostRuntime) -> Result<(), Fail> {
    assert!(rt; zeros_give(rt.alloc(), "search --ports 4", "cells 0\n")?);
    Ok(())
}

#[test]
fn lengths_that_are_refused(rt: HostRuntime) -> Result<(), Fail> {
    refuse_lengths(&rt, rt.alloc(), Program::Receiver, "search --ports 4")
}

// The list of synthetic recording 90, from the reference implementation, `python/lte_reference/forms.py`.
const AS_JSON: &str =
    "[{\"at\":19110,\"bandwidth\":\"n6\",\"br\":2,\"duration\":\"normal\",\"identity\":90,\"ports\":4,\
\"resource\":\"one\",\"sfn\":91,\"sib1\":{\"none\":\"ports 4\"},\"spare\":26}]\n";

#[test]
fn the_cell_of_number_90_as_json(rt: HostRuntime) -> Result<(), Fail> {
    let bytes = with_four_ports(rt.alloc())?;
    assert!(rt; gives(rt.alloc(), "search --ports 4 --json", bytes, AS_JSON)?);
    Ok(())
}

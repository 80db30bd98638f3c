//! The command `search --cancel`.

use crate::cells::{plain_gives, zeros_give};
use crate::lengths::refuse_lengths;
use lte_top::Program;
use std::test::Fail;

const NONE_AS_JSON: &str = "{\"cells\":[],\"ended\":true,\"rounds\":[]}\n";

#[test]
fn zeros_hold_no_cell_to_take_off(rt: HostRuntime) -> Result<(), Fail> {
    assert!(rt; zeros_give(rt.alloc(), "search --cancel", "cells 0\ncancelled none\n")?);
    assert!(rt; zeros_give(rt.alloc(), "search --cancel --json", NONE_AS_JSON)?);
    Ok(())
}

#[test]
fn lengths_that_are_refused(rt: HostRuntime) -> Result<(), Fail> {
    refuse_lengths(&rt, rt.alloc(), Program::Receiver, "search --cancel")
}

// The plain cell's list and rounds, from the reference implementation, `python/lte_reference/forms.py`.
const AS_JSON: &str =
    "{\"cells\":[{\"at\":0,\"bandwidth\":\"n6\",\"br\":0,\"duration\":\"normal\",\"identity\":0,\"ports\":1,\
\"resource\":\"one\",\"sfn\":0,\"sib1\":{\"band\":1,\"barred\":false,\"cell\":1,\"csg\":false,\
\"csg_identity\":null,\"extension\":false,\"intra\":true,\"p_max\":null,\"plmns\":[{\"mcc\":\"001\",\
\"mnc\":\"01\",\"reserved\":false}],\"q_offset\":null,\"q_rx\":-70,\"scheduling\":[{\"period\":8,\"sibs\":[]}],\
\"tac\":1,\"tag\":0,\"tdd\":null,\"window\":1},\"spare\":0}],\"ended\":true,\"rounds\":[{\"cells\":[],\
\"gain\":[1,0],\"identity\":0,\"power\":[169776488,0],\"residue\":0}]}\n";

#[test]
fn a_plain_cell_taken_off_as_json(rt: HostRuntime) -> Result<(), Fail> {
    assert!(rt; plain_gives(rt.alloc(), "search --cancel --json", AS_JSON)?);
    Ok(())
}

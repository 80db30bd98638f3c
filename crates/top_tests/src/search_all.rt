//! The command `search --all`. The expected texts are from the reference implementation,
//! `python/lte_reference/forms.py`.

use crate::cells::{plain_gives, zeros_give};
use crate::lengths::refuse_lengths;
use crate::{gives, with_four_ports, with_two_ports};
use lte_top::Program;
use std::test::Fail;

// The lists of the plain cell's recording.
const OF_PLAIN: &str = "rule one-port
cells 1
cell 0 at 0 sfn 0 ports 1 n6 phich normal one br 0 spare 0
sib1 tac 1 cell 1 open allowed csg 0 - rx -70 offset - pmax - band 1 window ms1 tag 0 tdd - extension 0
plmn 001 01 free
si rf8 -
rule two-ports
cells 0
rule long-prefix
cells 0
rule four-ports
cells 0
";

// The lists of synthetic recording 90 with four antenna ports. The one-port list contains the cell too.
const OF_FOUR_PORTS: &str = "rule one-port
cells 1
cell 90 at 19110 sfn 91 ports 4 n6 phich normal one br 2 spare 26
sib1 none ports 4
rule two-ports
cells 0
rule long-prefix
cells 0
rule four-ports
cells 1
cell 90 at 19110 sfn 91 ports 4 n6 phich normal one br 2 spare 26
sib1 none ports 4
";

// The lists of synthetic recording 90 with two antenna ports, as JSON.
const AS_JSON: &str =
    "[{\"at\":19110,\"bandwidth\":\"n6\",\"br\":2,\"duration\":\"normal\",\"identity\":90,\"ports\":2,\
\"resource\":\"one\",\"rule\":\"one-port\",\"sfn\":91,\"sib1\":{\"none\":\"ports 2\"},\"spare\":26},\
{\"at\":19110,\"bandwidth\":\"n6\",\"br\":2,\"duration\":\"normal\",\"identity\":90,\"ports\":2,\
\"resource\":\"one\",\"rule\":\"two-ports\",\"sfn\":91,\"sib1\":{\"band\":27,\"barred\":false,\"cell\":90,\
\"csg\":false,\"csg_identity\":null,\"extension\":false,\"intra\":true,\"p_max\":null,\
\"plmns\":[{\"mcc\":\"001\",\"mnc\":\"01\",\"reserved\":false}],\"q_offset\":null,\"q_rx\":-29,\
\"scheduling\":[{\"period\":512,\"sibs\":[]},{\"period\":512,\"sibs\":[0,2]}],\"tac\":90,\"tag\":26,\
\"tdd\":null,\"window\":40},\"spare\":26}]\n";

#[test]
fn the_lists_of_a_plain_cell(rt: HostRuntime) -> Result<(), Fail> {
    assert!(rt; plain_gives(rt.alloc(), "search --all", OF_PLAIN)?);
    Ok(())
}

#[test]
fn the_lists_of_a_cell_with_four_antenna_ports(rt: HostRuntime) -> Result<(), Fail> {
    let bytes = with_four_ports(rt.alloc())?;
    assert!(rt; gives(rt.alloc(), "search --all", bytes, OF_FOUR_PORTS)?);
    Ok(())
}

#[test]
fn the_lists_of_a_cell_with_two_antenna_ports_as_json(rt: HostRuntime) -> Result<(), Fail> {
    let bytes = with_two_ports(rt.alloc())?;
    assert!(rt; gives(rt.alloc(), "search --all --json", bytes, AS_JSON)?);
    Ok(())
}

// The lists of a silent recording.
const OF_ZEROS: &str =
    "rule one-port\ncells 0\nrule two-ports\ncells 0\nrule long-prefix\ncells 0\nrule four-ports\ncells 0\n";

#[test]
fn zeros_hold_no_cell_of_any_kind(rt: HostRuntime) -> Result<(), Fail> {
    assert!(rt; zeros_give(rt.alloc(), "search --all", OF_ZEROS)?);
    assert!(rt; zeros_give(rt.alloc(), "search --all --json", "[]\n")?);
    Ok(())
}

#[test]
fn lengths_that_are_refused(rt: HostRuntime) -> Result<(), Fail> {
    refuse_lengths(&rt, rt.alloc(), Program::Receiver, "search --all")
}

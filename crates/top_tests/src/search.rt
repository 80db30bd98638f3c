//! The command `search`.

use crate::cells::{EARLY, TURNED, many_signals, zeros_give};
use crate::faults::{is_broken_off, output_with_little_room};
use crate::lengths::refuse_lengths;
use crate::{Output, gives, output_of, sent_by, sent_with};
use lte_top::{Program, Status};
use std::alloc::{AllocError, Global};
use std::test::Fail;
use test_support::{PLAIN_REPORT, add_errors, oppose, silence};

// Returns whether `search` ends with `Done`, and its output contains `lines`.
fn search_shows(alloc: Global, bytes: Vec<u8>, lines: &str) -> Result<bool, AllocError> {
    let output = output_of(alloc, "search", bytes)?;
    Ok(output.status == Status::Done && contains(&output.written, lines.as_bytes()))
}

// Returns whether a `transmit` run ended with `Done`, and `search` on its output writes `lines`.
fn is_found(alloc: Global, sent: Output, lines: &str) -> Result<bool, AllocError> {
    let done = sent.status == Status::Done;
    Ok(search_shows(alloc, sent.written, lines)? && done)
}

// Returns whether `text` contains `piece`.
fn contains(text: &[u8], piece: &[u8]) -> bool {
    for at in 0..text.len() {
        if text[at..].starts_with(piece) {
            return true;
        }
    }
    false
}

#[test]
fn silence_holds_no_cell(rt: HostRuntime) -> Result<(), Fail> {
    assert!(rt; zeros_give(rt.alloc(), "search", "cells 0\n")?);
    assert!(rt; zeros_give(rt.alloc(), "search --json", "[]\n")?);
    Ok(())
}

#[test]
fn a_second_of_silence_holds_no_cell(rt: HostRuntime) -> Result<(), Fail> {
    let zeros = silence(rt.alloc(), 7_680_000)?;
    assert!(rt; gives(rt.alloc(), "search", zeros, "cells 0\n")?);
    Ok(())
}

#[test]
fn many_signals_are_no_cell(rt: HostRuntime) -> Result<(), Fail> {
    assert!(rt; gives(rt.alloc(), "search", many_signals(rt.alloc())?, "cells 0\n")?);
    Ok(())
}

#[test]
fn a_sink_without_room_keeps_a_front(rt: HostRuntime) -> Result<(), Fail> {
    let output = output_with_little_room(rt.alloc(), "search")?;
    assert!(rt; output.is(Status::WriteFault, b"cel"));
    Ok(())
}

#[test]
fn lengths_that_are_refused(rt: HostRuntime) -> Result<(), Fail> {
    refuse_lengths(&rt, rt.alloc(), Program::Receiver, "search")
}

#[test]
fn calls_that_fail(rt: HostRuntime) -> Result<(), Fail> {
    assert!(rt; is_broken_off(rt.alloc(), "search", b"cel")?);
    Ok(())
}

// The plain cell's list in the form of Python's `json`, with sorted keys and without spaces.
const AS_JSON: &str =
    "[{\"at\":0,\"bandwidth\":\"n6\",\"br\":0,\"duration\":\"normal\",\"identity\":0,\"ports\":1,\
\"resource\":\"one\",\"sfn\":0,\"sib1\":{\"band\":1,\"barred\":false,\"cell\":1,\"csg\":false,\"csg_identity\":null,\
\"extension\":false,\"intra\":true,\"p_max\":null,\"plmns\":[{\"mcc\":\"001\",\"mnc\":\"01\",\"reserved\":false}],\
\"q_offset\":null,\"q_rx\":-70,\"scheduling\":[{\"period\":8,\"sibs\":[]}],\"tac\":1,\"tag\":0,\"tdd\":null,\
\"window\":1},\"spare\":0}]\n";

// Samples 832 to 835 of the plain cell, from the reference implementation.
const SENT: [u8; 16] = [
    104, 0, 184, 255, 27, 0, 249, 255, 157, 255, 69, 0, 144, 255, 1, 0,
];

// Returns whether a run wrote the plain cell's recording.
fn is_plain(sent: &Output) -> bool {
    sent.status == Status::Done
        && sent.written.len() == 230_400
        && sent.written[3_328..].starts_with(&SENT)
}

#[test]
fn a_sent_cell_is_found(rt: HostRuntime) -> Result<(), Fail> {
    let sent = sent_by(rt.alloc(), "")?;
    assert!(rt; is_plain(&sent));
    for (line, text) in [
        ("hits", "hits 2\n832 0\n10432 0\n"),
        ("ids", "ids 2\n832 0 0 0\n10432 0 5 0\n"),
        ("search --json", AS_JSON),
        ("search", PLAIN_REPORT),
    ] {
        let bytes = sent.written.clone()?;
        assert!(rt; gives(rt.alloc(), line, bytes, text)?, "{line}");
    }
    Ok(())
}

#[test]
fn a_cell_that_begins_before_the_recording_is_found_with_errors_at_the_bound(
    rt: HostRuntime,
) -> Result<(), Fail> {
    let mut sent = sent_by(rt.alloc(), EARLY)?;
    add_errors(&mut sent.written, 56);
    let line = "cell 503 at 1 sfn 6 ports 1 n6 phich normal one br 0 spare 0\nsib1 tac 1 cell 1 ";
    assert!(rt; is_found(rt.alloc(), sent, line)?);
    Ok(())
}

#[test]
fn a_usual_cell_is_found_with_its_schedule(rt: HostRuntime) -> Result<(), Fail> {
    let change =
        r#", "identity": 21, "sfn": 101, "offset": 300, "gain": [2, 1], "start": 1, "blocks": 4, "mcs": 6"#;
    let block =
        r#", "plmns": [{"mcc": "262", "mnc": "042", "reserved": false}], "tac": 77, "cell": 258,
 "q_rx": -64, "p_max": 23, "band": 3, "scheduling": [{"period": 8, "sibs": []}, {"period": 16, "sibs": [0]},
 {"period": 32, "sibs": [1]}, {"period": 64, "sibs": [2, 3]}], "window": 20, "tag": 9"#;
    let sent = sent_with(rt.alloc(), change, block)?;
    let lines = "cell 21 at 18900 sfn 102 ports 1 n6 phich normal one br 0 spare 0\n\
sib1 tac 77 cell 258 open allowed csg 0 - rx -64 offset - pmax 23 band 3 window ms20 tag 9 tdd - extension 0\n\
plmn 262 042 free\nsi rf8 -\nsi rf16 0\nsi rf32 1\nsi rf64 2,3\n";
    assert!(rt; is_found(rt.alloc(), sent, lines)?);
    Ok(())
}

#[test]
fn cells_with_punctured_blocks_are_found(rt: HostRuntime) -> Result<(), Fail> {
    // The first change sends 1,224 of 1,260 coded bits. The second sends 1,224 of 2,412, which only the fourth
    // iteration decodes. Redundancy version 2 is sent first.
    for change in [
        r#", "sfn": 2, "mcs": 8, "column": 3"#,
        r#", "sfn": 2, "mcs": 18"#,
    ] {
        let sent = sent_by(rt.alloc(), change)?;
        let lines = "cell 0 at 0 sfn 2 ports 1 n6 phich normal one br 0 spare 0\n\
sib1 tac 1 cell 1 open allowed csg 0 - rx -70 offset - pmax - band 1 window ms1 tag 0 tdd - extension 0\n\
plmn 001 01 free\nsi rf8 -\n";
        assert!(rt; is_found(rt.alloc(), sent, lines)?, "{change}");
    }
    Ok(())
}

// Returns the recording of a changed description, with each component moved by `error` against its sign.
fn opposed_recording(alloc: Global, change: &str, error: i16) -> Result<Vec<u8>, AllocError> {
    let mut bytes = sent_by(alloc, change)?.written;
    oppose(&mut bytes, error);
    Ok(bytes)
}

#[test]
fn cells_are_found_with_errors_at_the_bound_against_the_signal(
    rt: HostRuntime,
) -> Result<(), Fail> {
    for (change, error, line) in [
        (
            r#", "identity": 271, "sfn": 77, "offset": 18600, "duration": "extended", "resource": "two", "spare": 5"#,
            2,
            "cell 271 at 600 sfn 78 ports 1 n6 phich extended two br 0 spare 5\n",
        ),
        (
            r#", "identity": 502, "sfn": 1022, "offset": 400, "samples": 60000, "gain": [-3, 4],
 "resource": "half", "spare": 1023"#,
            10,
            "cell 502 at 18800 sfn 1023 ports 1 n6 phich normal half br 31 spare 31\n",
        ),
        (
            TURNED,
            55,
            "cell 1 at 0 sfn 4 ports 1 n6 phich normal oneSixth br 16 spare 0\n",
        ),
    ] {
        let bytes = opposed_recording(rt.alloc(), change, error)?;
        assert!(rt; search_shows(rt.alloc(), bytes, line)?, "{line}");
    }
    Ok(())
}

#[test]
fn the_frame_number_goes_round(rt: HostRuntime) -> Result<(), Fail> {
    let change =
        r#", "sfn": 1023, "offset": 1, "duration": "extended", "resource": "oneSixth", "spare": 1023"#;
    let sent = sent_by(rt.alloc(), change)?;
    let line = "cell 0 at 19199 sfn 0 ports 1 n6 phich extended oneSixth br 31 spare 31\n";
    assert!(rt; is_found(rt.alloc(), sent, line)?);
    Ok(())
}

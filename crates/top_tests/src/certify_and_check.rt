//! The commands `certify` and `check`.

ghost use Rattle.std.specs.Prelude.{◌+◌, ◌^◌, ◌≤◌, ◌<◌, length};

use crate::cells::zeros_give;
use crate::{
    Output, ROOM, command_line, gives, output_from, output_into, output_of, sent_by,
    with_four_ports, with_long_prefix, with_two_ports,
};
use cs_outside::{FailSink, FailSource, MemSource};
use lte_top::{Program, Status};
use sample_file::bytes_of;
use std::alloc::{AllocError, Global};
use std::test::Fail;
use test_support::{certificate_of_zeros, put, silence, wide_cell};

// The length of a certificate without start-state tables.
const BYTES: usize = 10_501;

// Returns whether `check` on `bytes`, in reads of at most `most` bytes, ends with `status`, and writes exactly `text`.
fn checks(
    alloc: Global,
    bytes: Vec<u8>,
    most: usize,
    status: Status,
    text: &[u8],
) -> Result<bool, AllocError>
    requires { 0 < most }
{
    let words = command_line(alloc, "check")?;
    let mut source = FailSource::new(bytes, Vec::new(alloc), most);
    Ok(output_from(alloc, Program::Receiver, &words, &mut source)?.is(status, text))
}

// Returns whether `check` refuses `bytes` at byte offset `place`, and writes nothing.
fn refuses_at(alloc: Global, bytes: Vec<u8>, most: usize, place: u64) -> Result<bool, AllocError>
    requires { 0 < most }
{
    checks(alloc, bytes, most, Status::BadCertificate(place), b"")
}

// Returns the all-zero certificate with `piece` written over it at byte offset `at`.
fn changed(alloc: Global, at: usize, piece: &[u8]) -> Result<Vec<u8>, AllocError>
    requires { at + length piece.now ≤ 10501 }
{
    let mut bytes = certificate_of_zeros(alloc)?;
    put(&mut bytes, at, piece);
    Ok(bytes)
}

// Returns the first `len` bytes of the all-zero certificate.
fn cut(alloc: Global, len: usize) -> Result<Vec<u8>, AllocError> {
    let mut bytes = certificate_of_zeros(alloc)?;
    bytes.truncate(len);
    Ok(bytes)
}

#[test]
fn certificates_of_zeros_are_accepted(rt: HostRuntime) -> Result<(), Fail> {
    let text = b"certificates 1\n0 yes\n";
    for most in [BYTES, 1_000] {
        let bytes = certificate_of_zeros(rt.alloc())?;
        assert!(rt;
            checks(rt.alloc(), bytes, most, Status::Done, text)?,
            "{most} bytes"
        );
    }
    Ok(())
}

#[test]
fn another_cost_and_a_bound_that_no_branch_allows_are_not_accepted(
    rt: HostRuntime,
) -> Result<(), Fail> {
    let text = b"certificates 1\n0 no\n";
    // The cost is at byte 249. The general bound at step 40 and state 0 is at byte 253 + 4 * 64 * 39.
    for (at, byte) in [(249, [1, 0, 0, 0]), (10_237, [255, 255, 255, 255])] {
        let bytes = changed(rt.alloc(), at, &byte)?;
        assert!(rt;
            checks(rt.alloc(), bytes, BYTES, Status::Done, text)?,
            "byte {at}"
        );
    }
    Ok(())
}

#[test]
fn each_certificate_of_many_is_answered(rt: HostRuntime) -> Result<(), Fail> {
    let mut bytes = certificate_of_zeros(rt.alloc())?;
    bytes.extend_from_slice(&changed(rt.alloc(), 249, &[1])?)?;
    bytes.extend_from_slice(&certificate_of_zeros(rt.alloc())?)?;
    let text = b"certificates 3\n0 yes\n1 no\n2 yes\n";
    assert!(rt; checks(rt.alloc(), bytes, 10_007, Status::Done, text)?);
    Ok(())
}

#[test]
fn no_bytes_are_no_certificate(rt: HostRuntime) -> Result<(), Fail> {
    let bytes = Vec::new(rt.alloc());
    assert!(rt; checks(rt.alloc(), bytes, BYTES, Status::Done, b"certificates 0\n")?);
    Ok(())
}

#[test]
fn the_first_byte_that_breaks_the_form_is_reported(rt: HostRuntime) -> Result<(), Fail> {
    let alloc = rt.alloc();
    assert!(rt; refuses_at(alloc, changed(alloc, 4, &[0xf1, 0x07])?, BYTES, 4)?);
    // A soft value of -2,033 whose two bytes arrive in two reads.
    assert!(rt; refuses_at(alloc, changed(alloc, 242, &[0x0f, 0xf8])?, 243, 242)?);
    assert!(rt; refuses_at(alloc, changed(alloc, 3, &[0])?, BYTES, 3)?);
    assert!(rt; refuses_at(alloc, silence(alloc, 1)?, BYTES, 0)?);
    Ok(())
}

#[test]
fn an_early_end_is_reported_as_the_length(rt: HostRuntime) -> Result<(), Fail> {
    for len in [3, 4, 100, 243, 252, 10_500] {
        let bytes = cut(rt.alloc(), len)?;
        assert!(rt;
            refuses_at(rt.alloc(), bytes, 1_000, len as u64)?,
            "{len} bytes"
        );
    }
    Ok(())
}

#[test]
fn the_table_of_a_start_state_is_read_where_the_set_says(rt: HostRuntime) -> Result<(), Fail> {
    let mut bytes = changed(rt.alloc(), 10_493, &[1])?;
    assert!(rt; refuses_at(rt.alloc(), bytes.clone()?, BYTES, 10_501)?);
    bytes.extend_from_slice(&[0; 10_240])?;
    bytes.extend_from_slice(&certificate_of_zeros(rt.alloc())?)?;
    let text = b"certificates 2\n0 yes\n1 yes\n";
    assert!(rt; checks(rt.alloc(), bytes, 7_001, Status::Done, text)?);
    Ok(())
}

#[test]
fn the_former_mark_is_refused_at_its_last_byte(rt: HostRuntime) -> Result<(), Fail> {
    assert!(rt; refuses_at(rt.alloc(), changed(rt.alloc(), 3, &[0x31])?, BYTES, 3)?);
    Ok(())
}

#[test]
fn a_byte_after_a_certificate_begins_another(rt: HostRuntime) -> Result<(), Fail> {
    for (byte, place) in [(0, 10_501), (0x4c, 10_502)] {
        let mut bytes = certificate_of_zeros(rt.alloc())?;
        bytes.push(byte)?;
        assert!(rt;
            refuses_at(rt.alloc(), bytes, BYTES, place)?,
            "byte {place}"
        );
    }
    Ok(())
}

#[test]
fn a_byte_that_breaks_the_form_comes_before_a_fault(rt: HostRuntime) -> Result<(), Fail> {
    let words = command_line(rt.alloc(), "check")?;
    for (first, wanted) in [(0, Status::BadCertificate(0)), (0x4c, Status::ReadFault)] {
        let bytes = vec![in rt.alloc(); first; 10]?;
        let mut source = FailSource::new(bytes, vec![in rt.alloc(); 1]?, 1);
        let output = output_from(rt.alloc(), Program::Receiver, &words, &mut source)?;
        assert!(rt; output.is(wanted, b""), "byte {first}");
    }
    Ok(())
}

#[test]
fn silence_has_no_certificate(rt: HostRuntime) -> Result<(), Fail> {
    assert!(rt; zeros_give(rt.alloc(), "certify", "")?);
    Ok(())
}

// Returns the recording of a cell 50 resource blocks wide.
fn wide_bytes(alloc: Global) -> Result<Vec<u8>, AllocError> {
    bytes_of(alloc, &wide_cell(alloc)?)
}

// The report about the wide cell.
const WIDE_LINES: &str =
    "cells 1\ncell 0 at 0 sfn 0 ports 1 n50 phich normal one br 0 spare 0\nsib1 none bandwidth n50\n";

// Returns whether a run ended with `Done`, and wrote 10,501 bytes, the length of one certificate without start-state
// tables.
fn is_one_certificate(output: &Output) -> bool {
    output.status == Status::Done && output.written.len() == 10_501
}

#[test]
fn a_wider_cell_is_certified(rt: HostRuntime) -> Result<(), Fail> {
    let bytes = wide_bytes(rt.alloc())?;
    assert!(rt; gives(rt.alloc(), "search", bytes.clone()?, WIDE_LINES)?);
    assert!(rt; is_certified(rt.alloc(), "certify", bytes)?);
    Ok(())
}

// Returns whether a `certify` command certifies the cell in a recording, and `check` accepts the certificate.
fn is_certified(alloc: Global, line: &str, bytes: Vec<u8>) -> Result<bool, AllocError> {
    let certified = output_of(alloc, line, bytes)?;
    if !is_one_certificate(&certified) {
        return Ok(false);
    }
    gives(alloc, "check", certified.written, "certificates 1\n0 yes\n")
}

#[test]
fn cells_of_number_90_of_other_carriers_are_certified(rt: HostRuntime) -> Result<(), Fail> {
    let alloc = rt.alloc();
    assert!(rt; is_certified(alloc, "certify --ports 2", with_two_ports(alloc)?)?);
    assert!(rt; is_certified(alloc, "certify --ports 4", with_four_ports(alloc)?)?);
    assert!(rt; is_certified(alloc, "certify --prefix long", with_long_prefix(alloc)?)?);
    Ok(())
}

// Returns the plain cell's certificate, whose codeword is not 0.
fn plain_certificate(alloc: Global) -> Result<Vec<u8>, AllocError> {
    let sent = sent_by(alloc, "")?;
    Ok(output_of(alloc, "certify", sent.written)?.written)
}

// Returns whether a certificate has the length without start-state tables, and a soft value that is not 0.
fn is_of_values(bytes: &[u8]) -> bool {
    bytes.len() == BYTES && bytes.iter().skip(4).take(240).any(|byte| *byte != 0)
}

// Writes `piece` into `bytes` at offset `at`, if `piece` fits.
fn put_within(bytes: &mut [u8], at: usize, piece: &[u8])
    requires { at + length piece.now < 2 ^ 63 }
{
    if at + piece.len() <= bytes.len() {
        put(bytes, at, piece);
    }
}

// Returns whether `check` on the plain cell's certificate, with `piece` written over it, ends with `status`, and writes
// exactly `text`.
fn plain_ends(
    alloc: Global,
    at: usize,
    piece: &[u8],
    status: Status,
    text: &[u8],
) -> Result<bool, AllocError>
    requires { at + length piece.now < 2 ^ 63 }
{
    let mut bytes = plain_certificate(alloc)?;
    put_within(&mut bytes, at, piece);
    checks(alloc, bytes, BYTES, status, text)
}

#[test]
fn the_certificate_of_a_sent_cell_is_accepted_and_its_changes_are_not(
    rt: HostRuntime,
) -> Result<(), Fail> {
    let alloc = rt.alloc();
    assert!(rt; is_of_values(&plain_certificate(alloc)?));
    let (yes, no) = (b"certificates 1\n0 yes\n", b"certificates 1\n0 no\n");
    assert!(rt; plain_ends(alloc, 0, b"", Status::Done, yes)?);
    // The general bound at step 40 and state 0.
    assert!(rt; plain_ends(alloc, 10_237, &[255; 4], Status::Done, no)?);
    assert!(rt; plain_ends(alloc, 0, &[0], Status::BadCertificate(0), b"")?);
    let mut bytes = plain_certificate(alloc)?;
    bytes.truncate(100);
    assert!(rt; checks(alloc, bytes, BYTES, Status::BadCertificate(100), b"")?);
    Ok(())
}

// Appends `count` all-zero certificates, each with `tables` start-state tables.
fn push_certificates(
    bytes: &mut Vec<u8>,
    alloc: Global,
    count: usize,
    tables: usize,
) -> Result<(), AllocError>
    requires { tables ≤ 64 }
{
    let mut one = certificate_of_zeros(alloc)?;
    for state in 0..tables {
        match one.get_mut(10_493 + state / 8) {
            Some(byte) => *byte = *byte | 1 << (state % 8),
            None => {}
        }
    }
    one.extend_from_slice(&vec![in alloc; 0; 10_240 * tables]?)?;
    for _ in 0..count {
        bytes.extend_from_slice(&one)?;
    }
    Ok(())
}

// Returns 6,144 certificates with 253 tables in total: 67,108,864 bytes, the maximum input.
fn most_certificates(alloc: Global) -> Result<Vec<u8>, AllocError> {
    let mut bytes = Vec::new(alloc);
    push_certificates(&mut bytes, alloc, 3, 64)?;
    push_certificates(&mut bytes, alloc, 1, 61)?;
    push_certificates(&mut bytes, alloc, 6_140, 0)?;
    Ok(bytes)
}

// Runs `check`.
fn check_of(alloc: Global, bytes: Vec<u8>) -> Result<Output, AllocError> {
    output_of(alloc, "check", bytes)
}

// Returns whether a run ended with `Done`, and accepted the first and the last of 6,144 certificates.
fn answers_the_last(output: &Output) -> bool {
    output.status == Status::Done
        && output.written.starts_with(b"certificates 6144\n0 yes\n")
        && output.written.ends_with(b"\n6143 yes\n")
}

#[test]
fn as_many_certificates_as_are_read_are_answered(rt: HostRuntime) -> Result<(), Fail> {
    let bytes = most_certificates(rt.alloc())?;
    assert!(rt; bytes.len() == 67_108_864);
    assert!(rt; answers_the_last(&check_of(rt.alloc(), bytes)?));
    Ok(())
}

#[test]
fn one_byte_more_is_too_long_and_one_less_is_an_early_end(rt: HostRuntime) -> Result<(), Fail> {
    let mut bytes = most_certificates(rt.alloc())?;
    bytes.push(0x4c)?;
    assert!(rt; check_of(rt.alloc(), bytes)?.is(Status::TooLong, b""));
    let mut bytes = most_certificates(rt.alloc())?;
    bytes.truncate(67_108_863);
    assert!(rt; check_of(rt.alloc(), bytes)?.is(Status::BadCertificate(67_108_863), b""));
    Ok(())
}

// Returns whether a run ended with `WriteFault` after the first 2,000 bytes of the complete output.
fn is_front(output: &Output, whole: &Output) -> bool {
    output.status == Status::WriteFault
        && output.written.len() == 2_000
        && whole.written.starts_with(&output.written)
}

#[test]
fn certificates_into_a_sink_that_fails_leave_a_front(rt: HostRuntime) -> Result<(), Fail> {
    let alloc = rt.alloc();
    let words = command_line(alloc, "certify")?;
    let bytes = wide_bytes(alloc)?;
    let whole = output_of(alloc, "certify", bytes.clone()?)?;
    let mut sink = FailSink::new(alloc, vec![in alloc; 2; 1]?, 1_000, ROOM)?;
    let mut source = MemSource::new(bytes);
    let output = output_into(alloc, Program::Receiver, &words, &mut source, &mut sink)?;
    assert!(rt; is_front(&output, &whole));
    Ok(())
}

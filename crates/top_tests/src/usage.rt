//! Arguments that select a form of the programs, and arguments that select none.

use crate::{command_line, is_no_form, output_unread};
use lte_top::{Program, Status, Words};
use std::alloc::{AllocError, Global};
use std::test::Fail;

// Returns whether a command line selects no form of a program.
fn is_of_no_form(alloc: Global, program: Program, line: &str) -> Result<bool, AllocError> {
    is_no_form(alloc, program, &command_line(alloc, line)?)
}

// Returns whether a command line selects a form of the receiver, which then reads its input.
fn is_form_read(alloc: Global, line: &str) -> Result<bool, AllocError> {
    let (output, _) = output_unread(alloc, Program::Receiver, &command_line(alloc, line)?)?;
    Ok(output.status == Status::ReadFault)
}

#[test]
fn words_of_lists_of_the_receiver_read(rt: HostRuntime) -> Result<(), Fail> {
    for line in [
        "hits --json",
        "hits --json --format cu8",
        "ids --json",
        "ids --json --format cu8",
        "ids --deep",
        "ids --deep --json --format cu8",
        "ids --deep all",
        "ids --deep all --json",
        "ids --deep all --format cu8",
        "search --ports 2 --json",
        "search --ports 2 --format cu8",
        "search --ports 2 --json --format cu8",
        "search --ports 4",
        "search --ports 4 --json",
        "search --ports 4 --format cu8",
        "search --ports 4 --json --format cu8",
        "search --prefix long --json",
        "search --prefix long --format cu8",
        "search --prefix long --json --format cu8",
        "search --cancel --json",
        "search --cancel --format cu8",
        "search --cancel --json --format cu8",
        "search --all",
        "search --all --json",
        "search --all --format cu8",
        "search --all --json --format cu8",
    ] {
        assert!(rt; is_form_read(rt.alloc(), line)?, "{line}");
    }
    Ok(())
}

#[test]
fn words_of_other_forms_of_the_receiver_read(rt: HostRuntime) -> Result<(), Fail> {
    for line in [
        "evidence --json",
        "evidence --json --format cu8",
        "evidence --ports 2",
        "evidence --ports 2 --json",
        "evidence --ports 2 --format cu8",
        "evidence --ports 2 --json --format cu8",
        "evidence --ports 4",
        "evidence --ports 4 --json",
        "evidence --ports 4 --format cu8",
        "evidence --ports 4 --json --format cu8",
        "evidence --prefix long",
        "evidence --prefix long --json",
        "evidence --prefix long --format cu8",
        "evidence --prefix long --json --format cu8",
        "evidence --all",
        "evidence --all --json",
        "evidence --all --format cu8",
        "evidence --all --json --format cu8",
        "why 0",
        "why 503 --json",
        "why 9 --ports 2 --json --format cu8",
        "why 99 --ports 4 --format cu8",
        "why 499 --prefix long",
        "certify --ports 2",
        "certify --ports 2 --format cu8",
        "certify --ports 4",
        "certify --ports 4 --format cu8",
        "certify --prefix long",
        "certify --prefix long --format cu8",
        "transmit --ports 2",
        "transmit --ports 4",
        "transmit --prefix long",
        "transmit --load 0",
        "transmit --load 4294967295",
        "transmit --ports 2 --load 7",
        "transmit --ports 4 --load 7",
        "transmit --prefix long --load 7",
    ] {
        assert!(rt; is_form_read(rt.alloc(), line)?, "{line}");
    }
    Ok(())
}

#[test]
fn words_of_no_report_of_the_receiver(rt: HostRuntime) -> Result<(), Fail> {
    for line in [
        "search --ports",
        "search --ports 1",
        "search --ports 02",
        "search --ports 3",
        "search --ports 04",
        "search --ports 42",
        "search --ports 2 4",
        "search --ports 2 --ports 4",
        "search --ports 2 --prefix long",
        "search --prefix 4",
        "search --json --ports 2",
        "search --prefix",
        "search --prefix short",
        "search --prefix long 1",
        "search --cancel --ports 2",
        "search --cancel 4",
        "search --cancel --all",
        "search --all --ports 2",
        "search --all --all",
        "search --json --all",
        "search --all --format cu8 --json",
        "search --json --cancel",
        "hits --ports 2",
        "hits --deep",
        "search --deep",
        "ids all",
        "ids --all",
        "ids --json --deep",
        "ids --deep --json all",
        "ids --deep all all",
        "ids --deep --deep",
        "ids --deep 33",
        "evidence --ports",
        "evidence --prefix 2",
        "evidence --json --ports 2",
        "evidence --json --ports 4",
        "evidence --ports 2 --prefix long",
        "evidence --cancel",
        "evidence --all --ports 2",
        "evidence --all --all",
        "evidence --json --all",
        "why",
        "why 504",
        "why 0503",
        "why -1",
        "why +1",
        "why 65536",
        "why 4294967296",
        "why one",
        "why --ports 2",
        "why --ports 2 7",
        "why 7 --all",
        "why 7 8",
        "why 7 --json --ports 2",
        "certify --json",
        "certify --ports 2 --json",
        "certify --format cu8 --ports 2",
        "certify --ports 4 --json",
        "certify --prefix",
        "certify --all",
        "search --load 7",
    ] {
        assert!(rt;
            is_of_no_form(rt.alloc(), Program::Receiver, line)?,
            "{line}"
        );
    }
    Ok(())
}

#[test]
fn words_of_no_other_form_of_the_receiver(rt: HostRuntime) -> Result<(), Fail> {
    for line in [
        "make 7 --ports",
        "make 7 --ports 1",
        "make --ports 2 7",
        "make 7 --ports 3",
        "make 07 --ports 2",
        "make 07 --ports 4",
        "make 4294967296 --ports 2",
        "make 4294967296 --prefix long",
        "make 7 --prefix long 7",
        "make 7 --cancel",
        "transmit --cancel",
        "transmit --ports 1",
        "transmit --ports 3",
        "transmit --ports 4 --load",
        "transmit --prefix",
        "transmit --load",
        "transmit --load 07",
        "transmit --load -1",
        "transmit --load +7",
        "transmit --load 4294967296",
        "transmit --load 18446744073709551616",
        "transmit --load 7 7",
        "transmit --load 7 --ports 2",
        "transmit --ports 2 --prefix long",
        "transmit 7",
        "make 7 --load 7",
        "tell",
        "apply",
        "apply 5",
        "help help",
        "help --json",
        "-help",
        "--h",
        "-v",
        "-V -V",
        "-V version",
        "--V",
        "version --json",
        "--version --version",
    ] {
        assert!(rt;
            is_of_no_form(rt.alloc(), Program::Receiver, line)?,
            "{line}"
        );
    }
    Ok(())
}

#[test]
fn words_of_no_form_of_the_tuner(rt: HostRuntime) -> Result<(), Fail> {
    for line in [
        "search",
        "hits",
        "make 0",
        "tell 5",
        "tell --format cu8 --json",
        "tell --json --json",
        "apply --json",
        "apply --format cu8 5",
        "apply 5 --format",
        "help tell",
        "version 1",
        "apply -0",
        "apply 05",
        "apply -05",
        "apply +5",
        "apply 2048",
        "apply -2049",
        "apply 65531",
        "apply 5.0",
        "apply --5",
        "apply 5 5",
        "apply -",
    ] {
        assert!(rt; is_of_no_form(rt.alloc(), Program::Tuner, line)?, "{line}");
    }
    Ok(())
}

// Builds an argument list.
fn words_of(alloc: Global, list: &[&str]) -> Result<Words, AllocError> {
    let mut words = Words::new(alloc);
    for word in list {
        words.push(word)?;
    }
    Ok(words)
}

// Argument lists that select no form.
const NO_FORMS: [&'static [&'static str]; 17] = [
    &["hit"],
    &["hits "],
    &["transmitter"],
    &["hits", "ids"],
    &["search", "-x"],
    &[],
    &["make"],
    &["make 7"],
    &["make", ""],
    &["make", "07"],
    &["make", "00"],
    &["make", "+7"],
    &["make", "-1"],
    &["make", "7 "],
    &["make", "4294967296"],
    &["make", "18446744073709551616"],
    &["search", "7"],
];

#[test]
fn words_of_no_form_read_nothing(rt: HostRuntime) -> Result<(), Fail> {
    for list in NO_FORMS {
        let words = words_of(rt.alloc(), list)?;
        assert!(rt;
            is_no_form(rt.alloc(), Program::Receiver, &words)?,
            "{list:?}"
        );
    }
    Ok(())
}

#[test]
fn forms_of_samples_and_json_stand_in_one_order(rt: HostRuntime) -> Result<(), Fail> {
    for line in [
        "hits --json --json",
        "hits --format cu8 --json",
        "ids --format cu8 --json",
        "evidence --format cu8 --json",
        "evidence --json --format cu8 --format cu8",
        "search evidence",
        "--json search",
        "search --format",
        "search --format ci16",
        "search --format cu8 --json",
        "search --json --json",
        "check --format cu8",
        "transmit --format cu8",
        "make 7 --format cu8",
    ] {
        assert!(rt;
            is_of_no_form(rt.alloc(), Program::Receiver, line)?,
            "{line}"
        );
    }
    Ok(())
}

//! The texts of statuses and errors.

use cell_json::JsonError;
use cell_tx::CellError;
use certificates::StreamError;
use cs_outside::{Failed, ReadError};
use lte_top::Status;
use sample_file::FileError;
use std::alloc::{AllocError, Global};
use std::fmt::Display;
use std::process::Abort;
use std::test::Fail;
use tail_cert::BadCertificate;

// Returns whether `value` is formatted as `text`.
fn prints<T: Display>(alloc: Global, value: &T, text: &str) -> Result<bool, AllocError> {
    Ok(format!(in alloc; "{value}")?.as_str() == text)
}

#[test]
fn texts_of_the_conditions_of_a_description(rt: HostRuntime) -> Result<(), Fail> {
    let alloc = rt.alloc();
    for (error, text) in [
        (CellError::Form, "form"),
        (CellError::Sfn, "sfn"),
        (CellError::Offset, "offset"),
        (CellError::Samples, "samples"),
        (CellError::Gain, "gain"),
        (CellError::Sib1Range, "sib1range"),
        (CellError::Identity, "identity"),
        (CellError::Spare, "spare"),
        (CellError::Cfi, "cfi"),
        (CellError::Assignment, "assignment"),
        (CellError::Mcs, "mcs"),
        (CellError::Punctured, "punctured"),
        (CellError::Duplex, "duplex"),
        (CellError::Extension, "extension"),
        (CellError::Sib1Long, "sib1long"),
    ] {
        assert!(rt; prints(alloc, &error, text)?, "{text}");
    }
    Ok(())
}

// Checks that the value in each row is formatted as the row's text.
fn print_each<T: Display>(rt: &impl Abort, alloc: Global, rows: &[(T, &str)]) -> Result<(), Fail> {
    for (value, text) in rows {
        assert!(rt; prints(alloc, value, text)?, "{text}");
    }
    Ok(())
}

#[test]
fn texts_of_other_errors(rt: HostRuntime) -> Result<(), Fail> {
    let alloc = rt.alloc();
    let of_recordings = [
        (FileError::Ragged, "ragged"),
        (FileError::TooShort, "too short"),
        (FileError::TooLong, "too long"),
        (FileError::ReadFault, "read fault"),
        (FileError::OutOfMemory, "out of memory"),
    ];
    print_each(&rt, alloc, &of_recordings)?;
    let of_sources = [
        (ReadError::TooLong, "too long"),
        (ReadError::ReadFault, "read fault"),
        (ReadError::OutOfMemory, "out of memory"),
    ];
    print_each(&rt, alloc, &of_sources)?;
    let of_descriptions = [
        (JsonError::Cell(CellError::Gain), "bad cell: gain"),
        (JsonError::OutOfMemory, "out of memory"),
    ];
    print_each(&rt, alloc, &of_descriptions)?;
    let of_streams = [
        (StreamError::Broken(10_501), "bad certificate at byte 10501"),
        (StreamError::TooLong, "too long"),
        (StreamError::ReadFault, "read fault"),
        (StreamError::OutOfMemory, "out of memory"),
    ];
    print_each(&rt, alloc, &of_streams)?;
    assert!(rt; prints(alloc, &Failed, "the call failed")?);
    let broken = BadCertificate { place: 244 };
    assert!(rt; prints(alloc, &broken, "bad certificate at byte 244")?);
    Ok(())
}

#[test]
fn texts_of_answers(rt: HostRuntime) -> Result<(), Fail> {
    let alloc = rt.alloc();
    for (status, code, text) in [
        (
            Status::Usage,
            2,
            "usage: no command has these arguments; a file is read from standard input (< FILE), \
             and options have one order (see the command help); --rate takes 1.92, 3.84, 7.68, 15.36 or 30.72",
        ),
        (
            Status::Ragged,
            3,
            "ragged: the input ends within a sample; check the format, or cut the last bytes",
        ),
        (
            Status::TooShort,
            4,
            "too short: the recording has less than 30 ms (57,600 samples without --rate); record more",
        ),
        (
            Status::TooLong,
            5,
            "too long: the input exceeds its limit; cut it, a recording to 1 s (1,920,000 samples without --rate)",
        ),
        (
            Status::ReadFault,
            6,
            "read fault: standard input could not be read; check the file or the pipe",
        ),
        (
            Status::WriteFault,
            7,
            "write fault: standard output could not be written, and what it has is incomplete",
        ),
        (
            Status::OutOfMemory,
            8,
            "out of memory: an allocation failed; free memory and try again",
        ),
        (
            Status::BadCell(CellError::Sib1Long),
            9,
            "bad cell: sib1long; see the descriptions in FORMATS",
        ),
        (
            Status::BadCertificate(10_501),
            10,
            "bad certificate at byte 10501; the input is damaged, or no file of certificates",
        ),
    ] {
        assert!(rt;
            status.code() == code && prints(alloc, &status, text)?,
            "{text}"
        );
    }
    Ok(())
}

//! The process entry point: arguments, exit code, and the line on standard error.

use lte_top::{Program, run_process};
use std::alloc::{Alloc, Global};
use std::cell::RefCell;
use std::env::{Env, FillError};
use std::fmt::Display;
use std::io;
use std::io::{Eprint, Read};
use std::process::{Abort, ExitCode};
use std::test::Fail;

// The lines on standard error for arguments that match no command.
const RECEIVER_USAGE: &str =
    "lte_cli: usage: no command has these arguments; a file is read from standard input (< FILE), \
    and options have one order (see the command help); --rate takes 1.92, 3.84, 7.68, 15.36 or 30.72\n";

const TUNER_USAGE: &str =
    "lte_tune: usage: no command has these arguments; a file is read from standard input (< FILE), \
    and options have one order (see the command help); --rate takes 1.92, 3.84, 7.68, 15.36 or 30.72\n";

// A runtime with its own arguments, which records the text on standard error. The arguments are the parts of `line`
// between single spaces. A question mark stands for a byte that is not UTF-8.
#[derive(Drop)]
struct Process<'a> {
    alloc: Global,
    line: &'a str,
    printed: RefCell<String>,
}

impl<'a> Alloc for Process<'a> {
    type A = Global;

    fn alloc(&self) -> Global {
        self.alloc
    }
}

impl<'a> Env for Process<'a> {
    fn arg(&self, i: usize, buf: &mut [u8]) -> Result<usize, FillError> {
        let Some(argument) = self.line.split(' ').skip(i).next() else {
            return Err(FillError::NotPresent);
        };
        let bytes = argument.as_bytes();
        if bytes.len() > buf.len() {
            return Err(FillError::TooLong);
        }
        buf[..bytes.len()].copy_from_slice(bytes);
        if argument == "?" && !buf.is_empty() {
            buf[0] = 255;
        }
        Ok(bytes.len())
    }

    fn var(&self, _name: &str, _buf: &mut [u8]) -> Result<usize, FillError> {
        Err(FillError::NotPresent)
    }

    fn var_at(&self, _i: usize, _buf: &mut [u8]) -> Result<usize, FillError> {
        Err(FillError::NotPresent)
    }
}

impl<'a> Eprint for Process<'a> {
    fn eprint<D: Display + Drop>(&self, value: D) -> io::Result<()> {
        let text = format!(in self.alloc; "{value}")?;
        self.keep(&text)
    }

    fn eprintln<D: Display + Drop>(&self, value: D) -> io::Result<()> {
        let line = format!(in self.alloc; "{value}\n")?;
        self.keep(&line)
    }
}

impl<'a> Process<'a> {
    // Appends `text` to the recorded text.
    fn keep(&self, text: &str) -> io::Result<()> {
        match self.printed.try_borrow_mut() {
            Ok(mut printed) => Ok(printed.push_str(text)?),
            Err(_) => Err(io::Error::from(io::ErrorKind::ResourceBusy)),
        }
    }

    // Returns whether exactly `text` was printed.
    fn has_printed(&self, text: &str) -> bool {
        match self.printed.try_borrow() {
            Ok(printed) => printed.as_str() == text,
            Err(_) => false,
        }
    }
}

// Checks that a program with the given arguments and input exits with `code`, and prints `text` on standard error.
fn ends_with(
    rt: &impl Abort,
    alloc: Global,
    program: Program,
    line: &str,
    bytes: &[u8],
    code: u8,
    text: &str,
) -> Result<(), Fail> {
    let process = Process {
        alloc,
        line,
        printed: RefCell::new(String::new(alloc)),
    };
    let exit = run_process(&process, program, bytes, io::sink());
    assert!(rt; exit == ExitCode::from(code), "{line}");
    assert!(rt; process.has_printed(text), "{line}");
    Ok(())
}

// The last two arguments select 8-bit samples. They change the answer, as an 8-bit sample is half as long as a 16-bit
// sample.
#[test]
fn six_arguments_are_words(rt: HostRuntime) -> Result<(), Fail> {
    let alloc = rt.alloc();
    let receiver = Program::Receiver;
    for rule in [
        "search --ports 2",
        "search --prefix long",
        "evidence --ports 4",
    ] {
        let line = format!(in alloc; "lte_cli {rule} --json --format cu8")?;
        ends_with(
            &rt,
            alloc,
            receiver,
            &line,
            b"\0\0",
            4,
            "lte_cli: too short: the recording has less than 30 ms (57,600 samples without --rate); record more\n",
        )?;
        let line = format!(in alloc; "lte_cli {rule} --json --format")?;
        ends_with(&rt, alloc, receiver, &line, b"\0\0", 2, RECEIVER_USAGE)?;
        let line = format!(in alloc; "lte_cli {rule} --json")?;
        ends_with(
            &rt,
            alloc,
            receiver,
            &line,
            b"\0\0",
            3,
            "lte_cli: ragged: the input ends within a sample; check the format, or cut the last bytes\n",
        )?;
    }
    Ok(())
}

#[test]
fn a_refusal_ends_with_its_code_and_the_name_of_its_program(rt: HostRuntime) -> Result<(), Fail> {
    let alloc = rt.alloc();
    let line =
        "lte_tune: ragged: the input ends within a sample; check the format, or cut the last bytes\n";
    ends_with(
        &rt,
        alloc,
        Program::Tuner,
        "lte_tune apply -5",
        b"\0",
        3,
        line,
    )?;
    let line =
        "lte_cli: bad certificate at byte 0; the input is damaged, or no file of certificates\n";
    ends_with(
        &rt,
        alloc,
        Program::Receiver,
        "lte_cli check",
        b"\0",
        10,
        line,
    )?;
    ends_with(&rt, alloc, Program::Tuner, "lte_tune", b"", 2, TUNER_USAGE)
}

#[test]
fn no_line_follows_an_output(rt: HostRuntime) -> Result<(), Fail> {
    let alloc = rt.alloc();
    ends_with(&rt, alloc, Program::Receiver, "lte_cli help", b"", 0, "")?;
    ends_with(&rt, alloc, Program::Tuner, "lte_tune help", b"", 0, "")
}

// A reader whose reads fail.
#[derive(Drop)]
struct Broken;

impl Read for Broken {
    fn read(&mut self, _into: &mut [u8]) -> io::Result<usize> {
        Err(io::Error::from(io::ErrorKind::BrokenPipe))
    }
}

// The reader fails, so the answer `Usage` shows that nothing is read.
#[test]
fn an_argument_that_is_not_text_is_usage(rt: HostRuntime) -> Result<(), Fail> {
    let alloc = rt.alloc();
    let process = Process {
        alloc,
        line: "lte_cli search ?",
        printed: RefCell::new(String::new(alloc)),
    };
    let exit = run_process(&process, Program::Receiver, Broken, io::sink());
    assert!(rt; exit == ExitCode::from(2) && process.has_printed(RECEIVER_USAGE));
    Ok(())
}

//! No read follows a read that returned the end or failed, and each read asks for many bytes.

use crate::forms::{APPLYING, Form, OTHERS, REASONS, REPORTS, SENDING};
use crate::inputs::{Input, bytes_of};
use cs_outside::{MemSink, StdSource};
use lte_top::{Program, Status, run_program};
use run_support::{ROOM, command_line};
use std::alloc::{AllocError, Global};
use std::io;
use std::io::{ErrorKind, Read};
use std::process::Abort;
use std::test::Fail;

// A number of calls that no run reaches.
const CALLS: usize = 1_000_000;

// Returns the minimum byte count that a read asks for. For certificates, a read asks for the rest of the current
// certificate.
fn least_asked(input: Input) -> usize {
    match input {
        Input::ZeroCertificate | Input::Certificates => 1,
        _ => 4_096,
    }
}

// A reader that returns at most `most` bytes a call, and fails at call `fails`. The reader counts all calls (`calls`)
// and the calls after the end or a failure (`late`), and keeps the minimum byte count asked for (`fewest`).
#[derive(Drop)]
struct Watched<'a> {
    bytes: &'a [u8],
    most: usize,
    fails: usize,
    calls: usize,
    is_over: bool,
    late: usize,
    fewest: usize,
}

impl<'a> Read for Watched<'a> {
    fn read(&mut self, into: &mut [u8]) -> io::Result<usize> {
        let call = self.calls;
        self.calls = call.saturating_add(1);
        self.fewest = self.fewest.min(into.len());
        if self.is_over {
            self.late = self.late.saturating_add(1);
        }
        if call == self.fails {
            self.is_over = true;
            return Err(io::Error::from(ErrorKind::BrokenPipe));
        }
        let n = into.len().min(self.most).min(self.bytes.len());
        into[..n].copy_from_slice(&self.bytes[..n]);
        self.bytes = &self.bytes[n..];
        self.is_over = n == 0;
        Ok(n)
    }
}

// Runs a command on a reader.
fn status_over(
    alloc: Global,
    program: Program,
    line: &str,
    reader: &mut Watched<'_>,
) -> Result<Status, AllocError> {
    let words = command_line(alloc, line)?;
    let mut sink = MemSink::new(alloc, ROOM)?;
    let mut source = StdSource::new(reader);
    Ok(run_program(alloc, program, &words, &mut source, &mut sink))
}

// How a run on a reader ended, and the reader's counts.
#[derive(Clone, Copy)]
struct Reads {
    status: Status,
    calls: usize,
    is_over: bool,
    late: usize,
    fewest: usize,
}

impl Reads {
    // Runs a command on `bytes`, with at most `most` bytes a call and a failure at call `fails`.
    fn new(
        alloc: Global,
        program: Program,
        line: &str,
        bytes: &[u8],
        most: usize,
        fails: usize,
    ) -> Result<Reads, AllocError> {
        let mut reader = Watched {
            bytes,
            most,
            fails,
            calls: 0,
            is_over: false,
            late: 0,
            fewest: usize::MAX,
        };
        let status = status_over(alloc, program, line, &mut reader)?;
        Ok(Reads {
            status,
            calls: reader.calls,
            is_over: reader.is_over,
            late: reader.late,
            fewest: reader.fewest,
        })
    }

    // Returns whether the run ended with `status`, and its last read returned the end or failed.
    fn end_so(&self, status: Status) -> bool {
        self.status == status && self.is_over && self.late == 0
    }
}

// Checks that the last read of each form in `forms` returns the end or fails.
fn end_each(rt: &impl Abort, alloc: Global, program: Program, forms: &[Form]) -> Result<(), Fail> {
    for &(line, input) in forms {
        if input != Input::Nothing {
            let bytes = bytes_of(alloc, input)?;
            let whole = Reads::new(alloc, program, line, &bytes, 20_000, CALLS)?;
            let fewest = whole.fewest;
            assert!(rt; whole.end_so(Status::Done), "{line} {input:?}");
            assert!(rt; fewest >= least_asked(input), "{line} {input:?} {fewest}");
            for call in 0..whole.calls {
                let reads = Reads::new(alloc, program, line, &bytes, 20_000, call)?;
                assert!(rt;
                    reads.end_so(Status::ReadFault),
                    "{line} {input:?} call {call}"
                );
            }
        }
    }
    Ok(())
}

#[test]
fn no_call_follows_the_end_or_a_fault_of_a_recording(rt: HostRuntime) -> Result<(), Fail> {
    end_each(&rt, rt.alloc(), Program::Receiver, &REPORTS)?;
    end_each(&rt, rt.alloc(), Program::Receiver, &REASONS)?;
    end_each(&rt, rt.alloc(), Program::Tuner, &APPLYING)
}

#[test]
fn no_call_follows_the_end_or_a_fault_of_descriptions_and_certificates(
    rt: HostRuntime,
) -> Result<(), Fail> {
    end_each(&rt, rt.alloc(), Program::Receiver, &SENDING)?;
    end_each(&rt, rt.alloc(), Program::Receiver, &OTHERS)
}

//! Process entry point: turns a process's arguments and standard streams into a call of `run_program`, and its status
//! into an exit code and a line on standard error.
//!
//! If an argument is not UTF-8 text, the answer is `Usage`; if memory for the arguments is refused, it is
//! `OutOfMemory`. In both cases nothing is read or written.
//!
//! Tests: `fault_tests/src/edge.rt`.

ghost use Rattle.std.specs.Prelude.{◌≡◌, ◌⊎◌, Ok, Err, Some, IfOk, IfErr, OnErr, drop, map, string_bytes};
ghost use Rattle.std.specs.Vec.Iter.{into_iter_items};
ghost use Rattle.std.specs.IoError.{error_kind};
ghost use Rattle.std.specs.Process.{exit_status};
ghost use Rattle.lte_top.specs.Answers.{code_of};
ghost use Rattle.lte_top.specs.declared.status.Status.TheVariants.{OutOfMemory};
ghost use Rattle.lte_top.specs.Exit.{IsAnswerTo, IsExit, IsRun, line_of, line_text, refusal_of};

use crate::status::Status;
use crate::top::run_program;
use cs_outside::{StdSink, StdSource};
use lte_args::{Program, Words};
use std::alloc::{Alloc, AllocError, Global};
use std::env::{self, Args, Env};
use std::fmt;
use std::io::{self, Eprint, Read, Write};
use std::process::ExitCode;

/// Runs `program` on the process's arguments, and returns its exit code. Every answer except `Done` also prints the
/// program's name and the answer's text on standard error.
pub fn run_process<R, I, O>(rt: &R, program: Program, input: I, output: O) -> ExitCode
where
    R: Env + Alloc<A = Global> + Eprint,
    I: Read + Drop,
    O: Write + Drop,
    ensures { IsExit program result }
{
    let status = match env::args(rt) {
        Ok(arguments) => answer(rt.alloc(), program, arguments, input, output),
        Err(error) => refusal(error.kind()),
    };
    if let Some(line) = answer_line(program, status) {
        let _ = eprintln!(rt; "{line}");
    }
    ExitCode::from(status.code())
}

// Runs `program` with the process's `arguments`, and returns its answer.
fn answer<I, O>(alloc: Global, program: Program, arguments: Args, input: I, output: O) -> Status
where
    I: Read + Drop,
    O: Write + Drop,
    ensures { IsRun program (map string_bytes (into_iter_items arguments)) result }
{
    match words_of(alloc, arguments) {
        Ok(words) => run_program(
            alloc,
            program,
            &words,
            &mut StdSource::new(input),
            &mut StdSink::new(output),
        ),
        Err(AllocError) => Status::OutOfMemory,
    }
}

// Copies the arguments after the first, which is the program's name.
fn words_of(alloc: Global, arguments: Args) -> Result<Words, AllocError>
    ensures { IfOk result (λ words. words ≡ drop 1 (map string_bytes (into_iter_items arguments))) }
{
    let mut rest = arguments;
    let _name = rest.next();
    let mut words = Words::new(alloc);
    for argument in rest {
        words.push(argument.as_str())?;
    }
    Ok(words)
}

// Returns the answer if the arguments could not be read.
fn refusal(kind: io::ErrorKind) -> Status
    ensures { result ≡ refusal_of kind }
{
    match kind {
        io::ErrorKind::OutOfMemory => Status::OutOfMemory,
        _ => Status::Usage,
    }
}

// The line on standard error: the program's name and the answer's text.
#[derive(Clone, Copy)]
struct Line {
    program: Program,
    status: Status,
}

impl fmt::Display for Line {
    ghost output = { λ line. Some (line_text line) };

    fn fmt<W: fmt::Write>(&self, f: &mut fmt::Formatter<W>) -> fmt::Result {
        f.write_str(self.program.name())?;
        write!(f, ": {}", self.status)
    }
}

// Returns the line on standard error for an answer, or `None` for `Done`.
fn answer_line(program: Program, status: Status) -> Option<Line>
    ensures { result ≡ line_of program status }
{
    match status {
        Status::Done => None,
        _ => Some(Line { program, status }),
    }
}

//! Commands on bytes in memory.

use cs_outside::{FailSink, FailSource, MemSink, MemSource, Source};
use lte_top::{Program, Status, Words, run_in_memory, run_program};
use std::alloc::{AllocError, Global};
use test_support::description;

/// The default room of a sink in bytes.
pub const ROOM: usize = 16_777_216;

/// The status and the output of a run.
#[derive(Drop)]
pub struct Output {
    /// The status with which the run ended.
    pub status: Status,
    /// The bytes written.
    pub written: Vec<u8>,
}

impl Output {
    /// Returns whether the run ended with `status`, and wrote exactly `bytes`.
    pub fn is(&self, status: Status, bytes: &[u8]) -> bool {
        self.status == status && self.written.as_slice() == bytes
    }

    /// Returns whether the run ended with status `refusal` and exit code `code`, and wrote nothing.
    pub fn is_refused(&self, refusal: Status, code: u8) -> bool {
        self.is(refusal, b"") && self.status.code() == code
    }
}

/// Splits a command line at single spaces.
pub fn command_line(alloc: Global, line: &str) -> Result<Words, AllocError> {
    let mut words = Words::new(alloc);
    for word in line.split(' ') {
        words.push(word)?;
    }
    Ok(words)
}

/// Runs a program on a source, into a sink in memory.
pub fn output_from<S: Source>(
    alloc: Global,
    program: Program,
    words: &Words,
    source: &mut S,
) -> Result<Output, AllocError> {
    let mut sink = FailSink::new(alloc, Vec::new(alloc), ROOM, ROOM)?;
    output_into(alloc, program, words, source, &mut sink)
}

/// Runs a program on a source, into a sink that may have failing calls.
pub fn output_into<S: Source>(
    alloc: Global,
    program: Program,
    words: &Words,
    source: &mut S,
    sink: &mut FailSink,
) -> Result<Output, AllocError> {
    let status = run_program(alloc, program, words, source, sink);
    Ok(Output {
        status,
        written: sink.taken().to_vec(alloc)?,
    })
}

/// Runs a program on a source whose first call fails, and also returns whether that call was not made.
pub fn output_unread(
    alloc: Global,
    program: Program,
    words: &Words,
) -> Result<(Output, bool), AllocError> {
    let mut source = FailSource::new(vec![in alloc; 0; 16]?, vec![in alloc; 0; 1]?, 16);
    let output = output_from(alloc, program, words, &mut source)?;
    Ok((output, source.read(&mut [0; 1]).is_err()))
}

/// Returns whether `words` select no form of a program, and nothing is read or written.
pub fn is_no_form(alloc: Global, program: Program, words: &Words) -> Result<bool, AllocError> {
    let (output, unread) = output_unread(alloc, program, words)?;
    Ok(unread && output.is_refused(Status::Usage, 2))
}

/// Runs a command of `lte_cli` on `bytes`.
pub fn output_of(alloc: Global, line: &str, bytes: Vec<u8>) -> Result<Output, AllocError> {
    output_within(alloc, line, bytes, ROOM)
}

/// Runs a command of `lte_cli` on `bytes`, into a sink with room for `room` bytes.
pub fn output_within(
    alloc: Global,
    line: &str,
    bytes: Vec<u8>,
    room: usize,
) -> Result<Output, AllocError> {
    let words = command_line(alloc, line)?;
    let mut source = MemSource::new(bytes);
    let mut sink = MemSink::new(alloc, room)?;
    let status = run_in_memory(alloc, &words, &mut source, &mut sink);
    Ok(Output {
        status,
        written: sink.taken().to_vec(alloc)?,
    })
}

/// Runs a command of a program on `bytes`.
pub fn output_by(
    alloc: Global,
    program: Program,
    line: &str,
    bytes: Vec<u8>,
) -> Result<Output, AllocError> {
    let words = command_line(alloc, line)?;
    output_from(alloc, program, &words, &mut MemSource::new(bytes))
}

/// Returns whether a command of `lte_cli` on `bytes` ends with `Done`, and writes exactly `text`.
pub fn gives(alloc: Global, line: &str, bytes: Vec<u8>, text: &str) -> Result<bool, AllocError> {
    Ok(output_of(alloc, line, bytes)?.is(Status::Done, text.as_bytes()))
}

/// Returns whether a command of a program on `bytes` ends with `Done`, and writes exactly `text`.
pub fn gives_by(
    alloc: Global,
    program: Program,
    line: &str,
    bytes: Vec<u8>,
    text: &str,
) -> Result<bool, AllocError> {
    Ok(output_by(alloc, program, line, bytes)?.is(Status::Done, text.as_bytes()))
}

/// Runs a command on the plain cell's description with the keys `change` appended.
pub fn sent_with_words(alloc: Global, line: &str, change: &str) -> Result<Output, AllocError> {
    let text = description(alloc, change, "")?;
    output_of(alloc, line, text.as_bytes().to_vec(alloc)?)
}

/// Runs `transmit` on the plain cell's description, with the keys `change` appended, and `block` appended to its SIB1.
pub fn sent_with(alloc: Global, change: &str, block: &str) -> Result<Output, AllocError> {
    let text = description(alloc, change, block)?;
    output_of(alloc, "transmit", text.as_bytes().to_vec(alloc)?)
}

/// Runs `transmit` on the plain cell's description with the keys `change` appended.
pub fn sent_by(alloc: Global, change: &str) -> Result<Output, AllocError> {
    sent_with(alloc, change, "")
}

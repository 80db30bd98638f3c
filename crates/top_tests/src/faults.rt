//! Runs on zeros with a failing source or sink.

use crate::{Output, ROOM, command_line, output_from, output_into, output_within};
use cs_outside::{FailSink, FailSource, MemSource};
use lte_top::{Program, Status};
use std::alloc::{AllocError, Global};
use test_support::silence;

/// Runs a command on zeros, with a source that fails at call 2.
pub(crate) fn output_with_read_fault(alloc: Global, word: &str) -> Result<Output, AllocError> {
    let fails = vec![in alloc; 2; 1]?;
    let mut source = FailSource::new(silence(alloc, 230_400)?, fails, 1_000);
    output_from(
        alloc,
        Program::Receiver,
        &command_line(alloc, word)?,
        &mut source,
    )
}

/// Runs a command on zeros, with a sink that accepts three bytes a call and fails at call 1.
pub(crate) fn output_with_write_fault(alloc: Global, word: &str) -> Result<Output, AllocError> {
    let words = command_line(alloc, word)?;
    let mut sink = FailSink::new(alloc, vec![in alloc; 1; 1]?, 3, ROOM)?;
    let mut source = MemSource::new(silence(alloc, 230_400)?);
    output_into(alloc, Program::Receiver, &words, &mut source, &mut sink)
}

/// Runs a command on zeros, with a sink that has room for three bytes.
pub(crate) fn output_with_little_room(alloc: Global, word: &str) -> Result<Output, AllocError> {
    output_within(alloc, word, silence(alloc, 230_400)?, 3)
}

/// Returns whether a run with a failing source writes nothing, and a run with a failing sink writes exactly `front`.
pub(crate) fn is_broken_off(alloc: Global, word: &str, front: &[u8]) -> Result<bool, AllocError> {
    let unread = output_with_read_fault(alloc, word)?;
    let unwritten = output_with_write_fault(alloc, word)?;
    Ok(unread.is(Status::ReadFault, b"") && unwritten.is(Status::WriteFault, front))
}

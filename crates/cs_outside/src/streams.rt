//! Reading a source to its end, and writing a piece completely.
ghost use Rattle.std.specs.Prelude.{◌≡◌, ◌+◌, ◌<◌, ◌≤◌, length, take, IfOk, IsErrOf, OnOk, OnErr};
ghost use Rattle.cs_outside.specs.Counts.{Rose};
ghost use Rattle.cs_outside.specs.Streams.{HasReadAll, HasReadPart, HasReadOn, HasReadPast, HasReadFault, HasWritten, HasWrittenFront, IsShortOf};

use crate::{Failed, Sink, Source};
use std::alloc::Global;
use thiserror::Error;

/// The reason why an input was not read completely.
#[derive(Clone, Copy, Debug, PartialEq, Eq, Error)]
pub enum ReadError {
    /// The input is longer than the maximum that the caller gives.
    #[error("too long")]
    TooLong,
    /// A call to the source failed.
    #[error("read fault")]
    ReadFault,
    /// An allocation failed.
    #[error("out of memory")]
    OutOfMemory,
}

// The maximum number of bytes requested per call to a source.
const PIECE: usize = 4_096;

/// Reads a source to its end, and returns its bytes, at most `limit`. A longer input is `TooLong`, and exactly `limit +
/// 1` of its bytes are read. After an error the bytes read are lost.
pub fn read_to_end<S: Source>(
    alloc: Global,
    source: &mut S,
    limit: usize,
) -> Result<Vec<u8>, ReadError>
    requires { limit < usize.MAX }
    ensures ok { IfOk result (λ bytes.
        HasReadAll limit bytes.items (S.state source.old) (S.state source.new)) }
    ensures too_long { IsErrOf result ReadError.TooLong →
        HasReadPast limit (S.state source.old) (S.state source.new) }
    ensures fault { IsErrOf result ReadError.ReadFault →
        HasReadFault limit (S.state source.old) (S.state source.new) }
    ensures memory { IsErrOf result ReadError.OutOfMemory →
        HasReadPart limit (S.state source.old) (S.state source.new) }
    ensures never_falls { (S.state source.old).faults ≤ (S.state source.new).faults }
{
    let mut bytes = Vec::new(alloc);
    let mut buffer = [0u8; PIECE];
    loop {
        let most = (limit + 1 - bytes.len()).min(PIECE);
        match source.read(&mut buffer[..most]) {
            Err(Failed) => return Err(ReadError::ReadFault),
            Ok(0) => return Ok(bytes),
            Ok(n) => {
                if bytes.extend_from_slice(&buffer[..n]).is_err() {
                    return Err(ReadError::OutOfMemory);
                }
                if bytes.len() > limit {
                    return Err(ReadError::TooLong);
                }
            }
        }
    }
}

/// Reads the next bytes into `buffer[at..end]` and returns their number, 0 at the end of the input. `buffer[..at]` is
/// kept; the rest is unspecified after a failed call.
pub fn read_at<S: Source>(
    source: &mut S,
    buffer: &mut [u8],
    at: usize,
    end: usize,
) -> Result<usize, Failed>
    requires some { at < end }
    requires room { end ≤ length buffer.old }
    ensures fits { IfOk result (λ n. at + n ≤ end) }
    ensures read { IfOk result (λ n.
        HasReadOn n (take at buffer.old) (take (at + n) buffer.new) (S.state source.old) (S.state source.new)) }
    ensures front { take at buffer.new ≡ take at buffer.old }
    ensures same_length { length buffer.new ≡ length buffer.old }
    ensures unchanged { OnErr result ((S.state source.new).left ≡ (S.state source.old).left) }
    ensures cause { OnErr result (Rose (S.state source.old).faults (S.state source.new).faults) }
    ensures never_falls { (S.state source.old).faults ≤ (S.state source.new).faults }
{
    source.read(&mut buffer[at..end])
}

/// Writes all of `piece`, and offers everything that is still unwritten in each call to the sink.
pub fn write_whole<K: Sink>(sink: &mut K, piece: &[u8]) -> Result<(), Failed>
    ensures ok { OnOk result (HasWritten piece.now (K.state sink.old) (K.state sink.new)) }
    ensures front { OnErr result (HasWrittenFront piece.now (K.state sink.old) (K.state sink.new)) }
    ensures full { OnErr result (IsShortOf (length piece.now) (K.state sink.old)) }
    ensures fault { OnErr result (Rose (K.state sink.old).faults (K.state sink.new).faults) }
    ensures never_falls { (K.state sink.old).faults ≤ (K.state sink.new).faults }
{
    let mut rest = piece;
    while !rest.is_empty() {
        match sink.write(rest) {
            Ok(n) => rest = &rest[n..],
            Err(Failed) => return Err(Failed),
        }
    }
    Ok(())
}

//! Samples written in pieces.

ghost use Rattle.std.specs.Prelude.{◌≡◌, ◌*◌, ◌%◌, ◌<◌, ◌≤◌, ◌++◌, ℕ, List, [], length, take, OnOk, OnErr};
ghost use Rattle.cs_outside.specs.Counts.{Rose};
ghost use Rattle.cs_outside.specs.Streams.{HasWritten, HasWrittenFront, IsShortOf};
ghost use Rattle.sample_file.specs.Recording.{bytes_of};
ghost use Rattle.sample_file.specs.Writing.{HasWrittenPieces, piece_bytes};

use crate::writing::put_samples;
use cs_num::Sample;
use cs_outside::{Failed, Sink, write_whole};
use std::marker::Model;

// The number of bytes in a complete piece.
const PIECE: usize = 16_384;

/// A writer of samples, four bytes each, in pieces of 16,384 bytes, however many samples are pushed at a time. Only the
/// last piece may be shorter. Does not allocate. Contracts see the bytes that are not written yet. (own)
#[derive(Drop)]
pub struct PieceWriter {
    buffer: [u8; PIECE],
    end: usize,
}

impl Model for PieceWriter {
    ghost Value = { List ℕ };

    ghost view = { λ w. take w.end w.buffer };

    ghost invariant = { λ w. (w.end ≤ piece_bytes) × (w.end % 4 ≡ 0) };
}

impl PieceWriter {
    /// Returns a writer with an empty buffer.
    pub fn new() -> PieceWriter
        ensures { result ≡ [] }
    {
        PieceWriter {
            buffer: [0; PIECE],
            end: 0,
        }
    }

    /// Buffers the samples' bytes and writes each complete piece. Fails if the sink fails; a prefix of the buffered and
    /// new bytes is then written, and the buffer's content has no meaning.
    pub fn push<K: Sink>(&mut self, sink: &mut K, samples: &[Sample]) -> Result<(), Failed>
        ensures ok { OnOk result (HasWrittenPieces (self.old ++ bytes_of samples.now) self.new
            (K.state sink.old) (K.state sink.new)) }
        ensures front { OnErr result (HasWrittenFront (self.old ++ bytes_of samples.now)
            (K.state sink.old) (K.state sink.new)) }
        ensures full { OnErr result (IsShortOf (length (self.old ++ bytes_of samples.now)) (K.state sink.old)) }
        ensures fault { OnErr result (Rose (K.state sink.old).faults (K.state sink.new).faults) }
        ensures never_falls { (K.state sink.old).faults ≤ (K.state sink.new).faults }
    {
        let mut rest = samples;
        while !rest.is_empty() {
            match self.make_room(sink) {
                Ok(()) => {}
                Err(Failed) => return Err(Failed),
            }
            let count = self.take_samples(rest);
            rest = &rest[count..];
        }
        Ok(())
    }

    /// Writes the buffered bytes as the last piece. Fails if the sink fails.
    pub fn finish<K: Sink>(self, sink: &mut K) -> Result<(), Failed>
        ensures ok { OnOk result (HasWritten self (K.state sink.old) (K.state sink.new)) }
        ensures front { OnErr result (HasWrittenFront self (K.state sink.old) (K.state sink.new)) }
        ensures full { OnErr result (IsShortOf (length self) (K.state sink.old)) }
        ensures fault { OnErr result (Rose (K.state sink.old).faults (K.state sink.new).faults) }
        ensures never_falls { (K.state sink.old).faults ≤ (K.state sink.new).faults }
    {
        write_whole(sink, &self.buffer[..self.end])
    }

    // Writes the buffered bytes if they are a complete piece. Fails if the sink fails.
    fn make_room<K: Sink>(&mut self, sink: &mut K) -> Result<(), Failed>
        ensures ok { OnOk result (HasWrittenPieces self.old self.new (K.state sink.old) (K.state sink.new)) }
        ensures room { OnOk result (length self.new < piece_bytes) }
        ensures front { OnErr result (HasWrittenFront self.old (K.state sink.old) (K.state sink.new)) }
        ensures full { OnErr result (IsShortOf (length self.old) (K.state sink.old)) }
        ensures fault { OnErr result (Rose (K.state sink.old).faults (K.state sink.new).faults) }
        ensures never_falls { (K.state sink.old).faults ≤ (K.state sink.new).faults }
    {
        if self.end < PIECE {
            return Ok(());
        }
        match write_whole(sink, &self.buffer) {
            Ok(()) => self.end = 0,
            Err(Failed) => return Err(Failed),
        }
        Ok(())
    }

    // Copies the first of `samples` to the buffer, as many as it has room for, and returns their number.
    fn take_samples(&mut self, samples: &[Sample]) -> usize
        requires room { length self.old < piece_bytes }
        requires some { 0 < length samples.now }
        ensures some { 0 < result }
        ensures fits { result ≤ length samples.now }
        ensures few { 4 * result ≤ piece_bytes }
        ensures taken { self.new ≡ self.old ++ bytes_of (take result samples.now) }
    {
        let count = samples.len().min((PIECE - self.end) / 4);
        let end = self.end + 4 * count;
        put_samples(&mut self.buffer[self.end..end], &samples[..count]);
        self.end = end;
        count
    }
}

// An in-memory source and sink.
ghost use Rattle.std.specs.Prelude.{◌≡◌, ◌↔◌, ◌<◌, ◌≤◌, ◌-◌, ◌+◌, ◌++◌, ℕ, Some, List, [], length, take, drop, min, Ok, IfOk, IsErr, OnErr};
ghost use Rattle.std.specs.Vec.{vec_len, vec_capacity};
ghost use Rattle.cs_outside.specs.Counts.{next_count, last_count};
ghost use Rattle.cs_outside.specs.States.{MemSinkState};

use crate::counts::raised;
use crate::{Failed, Sink, Source};
use std::alloc::{AllocError, Global};
use std::marker::Model;

/// An in-memory source, which never fails. In contracts the value is the list of the remaining bytes.
#[derive(Drop)]
pub struct MemSource {
    bytes: Vec<u8>,
    at: usize,
}

impl Model for MemSource {
    ghost Value = { List ℕ };

    ghost view = { λ s. drop s.at s.bytes.items };

    ghost invariant = { λ s. s.at ≤ length s.bytes.items };
}

impl MemSource {
    /// Creates a source of `bytes`.
    pub fn new(bytes: Vec<u8>) -> Self
        ensures { result ≡ bytes.items }
    {
        MemSource { bytes, at: 0 }
    }
}

impl Source for MemSource {
    ghost state = { λ s. record { left = Some s; faults = 0 } };

    /// Reads as many bytes as `into` and the rest of the input allow.
    fn read(&mut self, into: &mut [u8]) -> Result<usize, Failed>
        requires { 0 < length into.old }
        ensures same_length { length into.new ≡ length into.old }
        ensures amount { result ≡ Ok (min (length into.new) (length self.old)) }
        ensures bytes { IfOk result (λ n. take n into.new ≡ take n self.old) }
        ensures left { IfOk result (λ n. self.new ≡ drop n self.old) }
    {
        let n = into.len().min(self.bytes.len() - self.at);
        into[..n].copy_from_slice(&self.bytes[self.at..self.at + n]);
        self.at += n;
        Ok(n)
    }
}

/// An in-memory sink with a fixed capacity. Writing does not allocate. In contracts the value is the bytes written, the
/// free space and the number of failed calls.
#[derive(Drop)]
pub struct MemSink {
    bytes: Vec<u8>,
    room: usize,
    faults: u64,
}

impl Model for MemSink {
    ghost Value = { MemSinkState };

    ghost view = { λ s. record { taken = s.bytes.items; room = s.room; faults = s.faults } };

    ghost invariant = { λ s. (vec_len s.bytes + s.room ≤ vec_capacity s.bytes)
        × (s.faults ≤ last_count) };
}

impl MemSink {
    /// Creates a sink with space for `room` bytes. Fails only if the allocation fails.
    pub fn new(alloc: Global, room: usize) -> Result<Self, AllocError>
        ensures { IfOk result (λ sink. sink ≡ record { taken = []; room = room; faults = 0 }) }
    {
        Ok(MemSink {
            bytes: Vec::with_capacity(alloc, room)?,
            room,
            faults: 0,
        })
    }

    /// Returns the bytes written so far.
    pub fn taken(&self) -> &[u8]
        ensures { result.now ≡ self.now.taken }
    {
        &self.bytes
    }

    // Counts a failed call.
    pub(crate) fn fail(&mut self)
        ensures next { self.new ≡ record self.old { faults = next_count self.old.faults } }
        ensures counted { self.old.faults ≤ last_count }
    {
        self.faults = raised(self.faults);
    }
}

impl Sink for MemSink {
    ghost state = { λ s. record { taken = Some s.taken; room = Some s.room; faults = s.faults } };

    /// Writes as many bytes as `piece` and the free space allow. Fails if and only if no space is left.
    fn write(&mut self, piece: &[u8]) -> Result<usize, Failed>
        requires { 0 < length piece.now }
        ensures full { IsErr result ↔ (self.old.room ≡ 0) }
        ensures amount { IfOk result (λ n. n ≡ min (length piece.now) self.old.room) }
        ensures ok { IfOk result (λ n. self.new ≡ record self.old {
          taken = self.old.taken ++ take n piece.now;
          room = self.old.room - n;
        }) }
        ensures err { OnErr result (self.new ≡ record self.old { faults = next_count self.old.faults }) }
        ensures counted { self.old.faults ≤ last_count }
    {
        if self.room == 0 {
            self.fail();
            return Err(Failed);
        }
        let n = piece.len().min(self.room);
        match self.bytes.extend_from_slice(&piece[..n]) {
            Ok(()) => {}
            Err(_) => unreachable!(),
        }
        self.room -= n;
        Ok(n)
    }
}

// An in-memory source and sink with scripted faults.
ghost use Rattle.std.specs.Prelude.{◌≡◌, ◌↔◌, ◌⊎◌, ◌<◌, ◌≤◌, ◌-◌, ◌++◌, Some, None, [], length, take, drop, min, Contains, IfOk, IsErr, IsTrue, OnErr};
ghost use Rattle.cs_outside.specs.Counts.{next_count, last_count};
ghost use Rattle.cs_outside.specs.States.{FailSourceState, FailSinkState};

use crate::counts::raised;
use crate::{Failed, MemSink, MemSource, Sink, Source};
use std::alloc::{AllocError, Global};
use std::marker::Model;

// The numbers of the calls that fail, and the number of the next call. Calls are numbered from 0; the number saturates
// at `u64::MAX`.
#[derive(Drop)]
struct Script {
    fails: Vec<u64>,
    call: u64,
}

impl Script {
    // Returns whether the current call fails, and advances to the next call.
    fn fails_now(&mut self) -> bool
        ensures listed { IsTrue result ↔ Contains self.old.fails.items self.old.call }
        ensures next { self.new ≡ record self.old { call = next_count self.old.call } }
    {
        let fails = self.fails.contains(&self.call);
        self.call = raised(self.call);
        fails
    }
}

/// An in-memory source that fails in the scripted calls and returns at most `most` bytes per call. Calls are numbered
/// from 0; the number saturates at `u64::MAX`.
#[derive(Drop)]
pub struct FailSource {
    source: MemSource,
    script: Script,
    most: usize,
    faults: u64,
}

impl Model for FailSource {
    ghost Value = { FailSourceState };

    ghost view = { λ s. record {
      left = s.source;
      fails = s.script.fails.items;
      most = s.most;
      call = s.script.call;
      faults = s.faults;
    } };

    ghost invariant = { λ s. (0 < s.most) × (s.faults ≤ last_count) };
}

impl FailSource {
    /// Creates a source of `bytes` that fails in the calls numbered in `fails` and returns at most `most` bytes per
    /// call.
    pub fn new(bytes: Vec<u8>, fails: Vec<u64>, most: usize) -> Self
        requires { 0 < most }
        ensures { result ≡ record {
          left = bytes.items;
          fails = fails.items;
          most = most;
          call = 0;
          faults = 0;
        } }
    {
        FailSource {
            source: MemSource::new(bytes),
            script: Script { fails, call: 0 },
            most,
            faults: 0,
        }
    }
}

impl Source for FailSource {
    ghost state = { λ s. record { left = Some s.left; faults = s.faults } };

    /// Fails in the scripted calls only. Any other call returns as many bytes as `most`, `into` and the rest of the
    /// input allow.
    fn read(&mut self, into: &mut [u8]) -> Result<usize, Failed>
        requires { 0 < length into.old }
        ensures same_length { length into.new ≡ length into.old }
        ensures listed { IsErr result ↔ Contains self.old.fails self.old.call }
        ensures amount { IfOk result (λ n.
            n ≡ min self.old.most (min (length into.new) (length self.old.left))) }
        ensures bytes { IfOk result (λ n. take n into.new ≡ take n self.old.left) }
        ensures ok { IfOk result (λ n. self.new ≡ record self.old {
          left = drop n self.old.left;
          call = next_count self.old.call;
        }) }
        ensures err { OnErr result (self.new ≡ record self.old {
          call = next_count self.old.call;
          faults = next_count self.old.faults;
        }) }
        ensures most { 0 < self.old.most }
        ensures counted { self.old.faults ≤ last_count }
    {
        if self.script.fails_now() {
            self.faults = raised(self.faults);
            return Err(Failed);
        }
        let most = into.len().min(self.most);
        self.source.read(&mut into[..most])
    }
}

/// An in-memory sink that fails in the scripted calls and takes at most `most` bytes per call. Writing does not
/// allocate. Calls are numbered from 0; the number saturates at `u64::MAX`. A generic caller does not learn the free
/// space.
#[derive(Drop)]
pub struct FailSink {
    sink: MemSink,
    script: Script,
    most: usize,
}

impl Model for FailSink {
    ghost Value = { FailSinkState };

    ghost view = { λ s. record {
      taken = s.sink.taken;
      room = s.sink.room;
      fails = s.script.fails.items;
      most = s.most;
      call = s.script.call;
      faults = s.sink.faults;
    } };

    ghost invariant = { λ s. 0 < s.most };
}

impl FailSink {
    /// Creates a sink with space for `room` bytes that fails in the calls numbered in `fails` and takes at most `most`
    /// bytes per call. If the allocation fails, `fails` is dropped.
    pub fn new(alloc: Global, fails: Vec<u64>, most: usize, room: usize) -> Result<Self, AllocError>
        requires { 0 < most }
        ensures { IfOk result (λ sink. sink ≡ record {
          taken = [];
          room = room;
          fails = fails.items;
          most = most;
          call = 0;
          faults = 0;
        }) }
    {
        Ok(FailSink {
            sink: MemSink::new(alloc, room)?,
            script: Script { fails, call: 0 },
            most,
        })
    }

    /// Returns the bytes written so far.
    pub fn taken(&self) -> &[u8]
        ensures { result.now ≡ self.now.taken }
    {
        self.sink.taken()
    }
}

impl Sink for FailSink {
    ghost state = { λ s. record { taken = Some s.taken; room = None; faults = s.faults } };

    /// Fails in the scripted calls and when no space is left. Any other call takes as many bytes as `piece`, `most` and
    /// the free space allow.
    fn write(&mut self, piece: &[u8]) -> Result<usize, Failed>
        requires { 0 < length piece.now }
        ensures listed_or_full { IsErr result ↔ (Contains self.old.fails self.old.call ⊎ (self.old.room ≡ 0)) }
        ensures amount { IfOk result (λ n.
            n ≡ min (length piece.now) (min self.old.most self.old.room)) }
        ensures ok { IfOk result (λ n. self.new ≡ record self.old {
          taken = self.old.taken ++ take n piece.now;
          room = self.old.room - n;
          call = next_count self.old.call;
        }) }
        ensures err { OnErr result (self.new ≡ record self.old {
          call = next_count self.old.call;
          faults = next_count self.old.faults;
        }) }
        ensures most { 0 < self.old.most }
        ensures counted { self.old.faults ≤ last_count }
    {
        if self.script.fails_now() {
            self.sink.fail();
            return Err(Failed);
        }
        let most = piece.len().min(self.most);
        self.sink.write(&piece[..most])
    }
}

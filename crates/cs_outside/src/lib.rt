//! Byte input and output: sources and sinks that count their faults. There are in-memory sources and sinks for tests,
//! some with scripted faults, and adapters for std readers and writers.
//! Tests: the crates `low_tests` and `fault_tests`.
#![tactic(auto)]

ghost use Rattle.std.specs.Prelude.{◌≡◌, ◌↔◌, ◌<◌, ◌≤◌, [], length, take, IfOk, IfSome, OnErr};
ghost use Rattle.cs_outside.specs.Counts.{last_count, Rose};
ghost use Rattle.cs_outside.specs.Outside.{SourceState, SinkState};
ghost use Rattle.cs_outside.specs.Streams.{HasRead, HasWritten};

mod adapters;
mod counts;
mod failing;
mod memory;
mod streams;

pub use adapters::{StdSink, StdSource};
pub use failing::{FailSink, FailSource};
pub use memory::{MemSink, MemSource};
pub use streams::{ReadError, read_at, read_to_end, write_whole};
use thiserror::Error;

/// A call to a source or a sink failed.
#[derive(Clone, Copy, Debug, PartialEq, Eq, Error)]
#[error("the call failed")]
pub struct Failed;

/// A source of bytes.
pub trait Source {
    /// The known state: the remaining bytes, or `None`, and a fault count that saturates at `u64::MAX`.
    ghost state: { Self → SourceState };

    /// Reads the next bytes into the start of `into`, which is not empty, and returns their number: 0 at the end of
    /// the input. The rest of `into` is unspecified. Each `Failed` is counted as a fault.
    fn read(&mut self, into: &mut [u8]) -> Result<usize, Failed>
        requires { 0 < length into.old }
        ensures same_length { length into.new ≡ length into.old }
        ensures fits { IfOk result (λ n. n ≤ length into.new) }
        ensures next { IfOk result (λ n. HasRead (take n into.new) (state self.old) (state self.new)) }
        ensures end { IfOk result (λ n. IfSome (state self.old).left (λ input. (n ≡ 0) ↔ (input ≡ []))) }
        ensures unchanged { OnErr result ((state self.new).left ≡ (state self.old).left) }
        ensures cause { OnErr result (Rose (state self.old).faults (state self.new).faults) }
        ensures never_falls { (state self.old).faults ≤ (state self.new).faults }
        ensures counted { (state self.new).faults ≤ last_count };
}

/// A sink of bytes.
pub trait Sink {
    /// The known state: the bytes written and the free space, or `None`, and a fault count that saturates at
    /// `u64::MAX`.
    ghost state: { Self → SinkState };

    /// Writes at least one byte from the start of `piece`, which is not empty, and returns their number. After
    /// `Failed`, which is counted as a fault, the free space is 0 if it is known.
    fn write(&mut self, piece: &[u8]) -> Result<usize, Failed>
        requires { 0 < length piece.now }
        ensures some { IfOk result (λ n. 0 < n) }
        ensures fits { IfOk result (λ n. n ≤ length piece.now) }
        ensures written { IfOk result (λ n. HasWritten (take n piece.now) (state self.old) (state self.new)) }
        ensures unchanged { OnErr result ((state self.new).taken ≡ (state self.old).taken) }
        ensures full { OnErr result (IfSome (state self.old).room (λ left. left ≡ 0)) }
        ensures still_full { OnErr result ((state self.new).room ≡ (state self.old).room) }
        ensures cause { OnErr result (Rose (state self.old).faults (state self.new).faults) }
        ensures never_falls { (state self.old).faults ≤ (state self.new).faults }
        ensures counted { (state self.new).faults ≤ last_count };
}

// Adapters that make a source from a std reader and a sink from a std writer.
ghost use Rattle.std.specs.Prelude.{◌≡◌, ◌<◌, ◌≤◌, None, length, IfOk, OnOk, OnErr};
ghost use Rattle.std.specs.Io.KnownBytes.{ReadConsumes, WriteAppends};
ghost use Rattle.cs_outside.specs.Counts.{next_count, last_count};
ghost use Rattle.cs_outside.specs.States.{StdState};

use crate::counts::raised;
use crate::{Failed, Sink, Source};
use std::io::{Read, Write};
use std::marker::Model;

/// A std reader as a source. A generic caller learns nothing about the remaining bytes. In contracts the value is the
/// reader and the number of failed calls.
#[derive(Drop)]
pub struct StdSource<R: Read> {
    inner: R,
    faults: u64,
}

impl<R: Read> Model for StdSource<R> {
    ghost Value = { StdState R };

    ghost view = { λ s. record { inner = s.inner; faults = s.faults } };

    ghost invariant = { λ s. s.faults ≤ last_count };
}

impl<R: Read> StdSource<R> {
    /// Wraps a reader, with a fault count of 0.
    pub fn new(inner: R) -> Self
        ensures { result ≡ record { inner = inner; faults = 0 } }
    {
        StdSource { inner, faults: 0 }
    }
}

impl<R: Read> Source for StdSource<R> {
    ghost state = { λ s. record { left = None; faults = s.faults } };

    /// Reads from the inner reader, and counts each `Err` as a fault.
    fn read(&mut self, into: &mut [u8]) -> Result<usize, Failed>
        requires { 0 < length into.old }
        ensures same_length { length into.new ≡ length into.old }
        ensures fits { IfOk result (λ n. n ≤ length into.new) }
        // The reader's own contract about its bytes also holds for this call.
        ensures inner { ReadConsumes (R.remaining self.old.inner) (R.remaining self.new.inner)
            result into.new }
        ensures ok { OnOk result (self.new.faults ≡ self.old.faults) }
        ensures err { OnErr result (self.new.faults ≡ next_count self.old.faults) }
        ensures counted { self.old.faults ≤ last_count }
    {
        match self.inner.read(into) {
            Ok(n) => Ok(n),
            Err(_) => {
                self.faults = raised(self.faults);
                Err(Failed)
            }
        }
    }
}

/// A std writer as a sink. A generic caller learns nothing about the written bytes. In contracts the value is the
/// writer and the number of failed calls.
#[derive(Drop)]
pub struct StdSink<W: Write> {
    inner: W,
    faults: u64,
}

impl<W: Write> Model for StdSink<W> {
    ghost Value = { StdState W };

    ghost view = { λ s. record { inner = s.inner; faults = s.faults } };

    ghost invariant = { λ s. s.faults ≤ last_count };
}

impl<W: Write> StdSink<W> {
    /// Wraps a writer, with a fault count of 0.
    pub fn new(inner: W) -> Self
        ensures { result ≡ record { inner = inner; faults = 0 } }
    {
        StdSink { inner, faults: 0 }
    }
}

impl<W: Write> Sink for StdSink<W> {
    ghost state = { λ s. record { taken = None; room = None; faults = s.faults } };

    /// Writes to the inner writer, and counts each `Err` and each `Ok(0)` as a fault.
    fn write(&mut self, piece: &[u8]) -> Result<usize, Failed>
        requires { 0 < length piece.now }
        ensures some { IfOk result (λ n. 0 < n) }
        ensures fits { IfOk result (λ n. n ≤ length piece.now) }
        // The writer's own contract about its bytes also holds for this call.
        ensures inner { WriteAppends (W.contents self.old.inner) (W.contents self.new.inner)
            result piece.now }
        ensures ok { OnOk result (self.new.faults ≡ self.old.faults) }
        ensures err { OnErr result (self.new.faults ≡ next_count self.old.faults) }
        ensures counted { self.old.faults ≤ last_count }
    {
        match self.inner.write(piece) {
            Ok(n) if n > 0 => Ok(n),
            _ => {
                self.faults = raised(self.faults);
                Err(Failed)
            }
        }
    }
}

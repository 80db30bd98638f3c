//! The buffer for a certificate's bytes while they are read.

ghost use Rattle.std.specs.Prelude.{◌≡◌, ℕ, ◌+◌, ◌<◌, ◌≤◌, List, IfOk, OnErr, length, take};
ghost use Rattle.cs_outside.specs.Counts.{Rose};
ghost use Rattle.cs_outside.specs.Streams.{HasReadOn};
ghost use Rattle.tail_cert.specs.Form.{head_count};

use cs_outside::{Failed, Source, read_at};
use std::alloc::{AllocError, Global};
use std::marker::Model;
use tail_cert::HEAD_BYTES;

// A buffer for a certificate's bytes while they are read, at least as long as the certificate is known to be. Contracts
// see it as the list of all its bytes.
#[derive(Drop)]
pub(crate) struct PartRead {
    bytes: Vec<u8>,
}

impl Model for PartRead {
    ghost Value = { List ℕ };

    ghost view = { λ p. p.bytes.items };
}

impl PartRead {
    // Returns a buffer for a certificate's bytes up to and including its set of start states, from which its full
    // length follows.
    pub(crate) fn new(alloc: Global) -> Result<PartRead, AllocError>
        ensures { IfOk result (λ part. length part ≡ head_count) }
    {
        let bytes = vec![in alloc; 0u8; HEAD_BYTES]?;
        Ok(PartRead { bytes })
    }

    // Grows the buffer to at least `count` bytes, and keeps its content. Fails only if an allocation fails.
    pub(crate) fn make_room(&mut self, count: usize) -> Result<(), AllocError>
        ensures room { IfOk result (λ _. count ≤ length self.new) }
        ensures stays { (k : ℕ) → k ≤ length self.old → take k self.new ≡ take k self.old }
        ensures most { (n : ℕ) → length self.old ≤ n → count ≤ n → length self.new ≤ n }
    {
        if self.bytes.len() < count {
            self.bytes.resize(count, 0)
        } else {
            Ok(())
        }
    }

    // Returns the first `count` bytes of the buffer.
    pub(crate) fn front(&self, count: usize) -> &[u8]
        requires { count ≤ length self.now }
        ensures { result.now ≡ take count self.now }
    {
        &self.bytes.as_slice()[..count]
    }

    // Reads bytes from `source` into the buffer, from index `at` to before `end`, and returns their number; 0 at the
    // end of the input. Fails if the source fails.
    pub(crate) fn read<S: Source>(
        &mut self,
        source: &mut S,
        at: usize,
        end: usize,
    ) -> Result<usize, Failed>
        requires some { at < end }
        requires room { end ≤ length self.old }
        ensures fits { IfOk result (λ n. at + n ≤ end) }
        ensures read { IfOk result (λ n.
            HasReadOn n (take at self.old) (take (at + n) self.new) (S.state source.old) (S.state source.new)) }
        ensures same_length { length self.new ≡ length self.old }
        ensures unchanged { OnErr result ((S.state source.new).left ≡ (S.state source.old).left) }
        ensures cause { OnErr result (Rose (S.state source.old).faults (S.state source.new).faults) }
        ensures never_falls { (S.state source.old).faults ≤ (S.state source.new).faults }
    {
        read_at(source, self.bytes.as_mut_slice(), at, end)
    }
}

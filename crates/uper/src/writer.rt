//! Writing numbers as bits.

ghost use Rattle.std.specs.Prelude.{◌≡◌, ◌+◌, ◌<◌, ◌≤◌, ◌^◌, ◌++◌, ◌↔◌, [], length, IsTrue, if◌then◌else◌};
ghost use Rattle.cs_bits.specs.Numbers.{bits_of};

use arrayvec::ArrayVec;
use cs_bits::put_number;
use std::marker::Model;

// The maximum number of bits.
const ROOM: usize = 1000;

/// A buffer of at most 1,000 bits. In contracts the value is the list of the bits.
#[derive(Drop)]
pub struct Writer {
    bits: ArrayVec<bool, ROOM>,
}

impl Model for Writer {
    ghost use Rattle.std.specs.Prelude.{Bool, List};

    ghost Value = { List Bool };

    ghost view = { λ writer. writer.bits.items };
}

impl Writer {
    /// Returns an empty writer.
    pub fn new() -> Writer
        ensures { result ≡ [] }
    {
        Writer {
            bits: ArrayVec::new(),
        }
    }

    /// Appends the `n` bits, at most 32, of `value`, which is below 2^`n`, highest bit first. Returns false, and leaves
    /// the writer unchanged, if there would be more than 1,000 bits.
    pub fn put(&mut self, value: u32, n: u32) -> bool
        requires few { n ≤ 32 }
        requires fits { value < 2 ^ n }
        ensures room { IsTrue result ↔ (length self.old + n ≤ 1000) }
        ensures bits { self.new ≡ (if result then self.old ++ bits_of n value else self.old) }
    {
        let mut word = [false; 32];
        let bits = &mut word[..n as usize];
        put_number(value as u64, bits);
        self.bits.try_extend_from_slice(bits).is_ok()
    }

    /// Returns the bits, at most 1,000.
    pub fn bits(&self) -> &[bool]
        ensures bits { result.now ≡ self.now }
        ensures count { length self.now ≤ 1000 }
    {
        self.bits.as_slice()
    }
}

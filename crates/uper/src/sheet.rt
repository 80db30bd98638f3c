//! Encodings appended one after the other.

ghost use Rattle.std.specs.Prelude.{◌≡◌, ◌≤◌, ◌<◌, ◌^◌, ℕ, [], Some};
ghost use Rattle.uper.specs.Grammar.{from_to, flag};
ghost use Rattle.cs_bits.specs.Numbers.{bits_of};
ghost use Rattle.uper.specs.Sheet.{append, Puts};

use crate::Writer;
use std::marker::Model;

/// A collection of encodings, up to 1,000 bits in all. Once an encoding does not fit, nothing is kept, and only
/// `finish` reports it. In contracts the value is the bits, or `None` if they did not all fit.
#[derive(Drop)]
pub struct Sheet {
    bits: Writer,
    is_full: bool,
}

impl Model for Sheet {
    ghost use Rattle.std.specs.Prelude.{Bool, List, Option, Some, None, if◌then◌else◌};

    ghost Value = { Option (List Bool) };

    ghost view = { λ sheet. if sheet.is_full then None else Some sheet.bits };
}

impl Sheet {
    /// Returns an empty sheet.
    pub fn new() -> Sheet
        ensures { result ≡ Some [] }
    {
        Sheet {
            bits: Writer::new(),
            is_full: false,
        }
    }

    /// Appends the `width` bits, 1 to 32, of `number`, which is below 2^`width`, highest bit first. The bits encode
    /// `number` for each range that contains `number`.
    pub fn put(&mut self, number: u32, width: u32)
        requires some { 1 ≤ width }
        requires few { width ≤ 32 }
        requires fits { number < 2 ^ width }
        ensures put { self.new ≡ append self.old (bits_of width number) }
        ensures puts { (least greatest : ℕ) → least ≤ number → number ≤ greatest
            → Puts (from_to width least greatest) number self.old self.new }
    {
        if self.is_full {
            return;
        }
        self.is_full = !self.bits.put(number, width);
    }

    /// Appends the single bit `bit`, as `put` does with a width of 1.
    pub fn flag(&mut self, bit: bool)
        ensures { Puts flag bit self.old self.new }
    {
        self.put(bit as u32, 1);
    }

    /// Returns the collected bits, or `None` if they did not all fit.
    pub fn finish(self) -> Option<Writer>
        ensures { result ≡ self }
    {
        if self.is_full { None } else { Some(self.bits) }
    }
}

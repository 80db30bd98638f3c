//! Reading numbers from bits.

ghost use Rattle.std.specs.Prelude.{◌≡◌, ◌+◌, ◌<◌, ◌≤◌, ◌^◌, ◌↔◌, ◌&&◌, nat_le, length, slice_range, IfSome, IfNone, IsNone, IfOk, OnErr};
ghost use Rattle.cs_bits.specs.Numbers.{number};
ghost use Rattle.uper.specs.Cursor.{Cursor};
ghost use Rattle.uper.specs.Grammar.{from_to, flag};
ghost use Rattle.uper.specs.Reading.{Reads};

use cs_bits::number_of;
use std::marker::Model;

/// A reader of bits, from the first to the last. In contracts the value is the bits and the reader's position.
#[derive(Drop)]
pub struct Reader<'a> {
    bits: &'a [bool],
    place: usize,
}

impl<'a> Model for Reader<'a> {
    ghost use Rattle.std.specs.Prelude.{◌≤◌, length};
    ghost use Rattle.uper.specs.Cursor.{Cursor as ReaderValue};

    ghost Value = { ReaderValue };

    ghost view = { λ reader. record { bits = reader.bits.now; place = reader.place } };

    ghost invariant = { λ reader. reader.place ≤ length reader.bits.now };
}

impl<'a> Reader<'a> {
    /// Creates a reader at the first of `bits`.
    pub fn new(bits: &'a [bool]) -> Reader<'a>
        ensures bits { result.bits ≡ bits.now }
        ensures place { result.place ≡ 0 }
    {
        Reader { bits, place: 0 }
    }

    /// Takes the next `n` bits, at most 32, as a number, highest bit first. Returns `None`, and leaves the reader
    /// unchanged, if fewer bits are left.
    pub fn take(&mut self, n: u32) -> Option<u32>
        requires { n ≤ 32 }
        ensures left { IsNone result ↔ (length self.old.bits < self.old.place + n) }
        ensures unchanged { IfNone result (self.new ≡ self.old) }
        ensures bits { self.new.bits ≡ self.old.bits }
        ensures value { IfSome result (λ value.
            value ≡ number (slice_range self.old.bits self.old.place (self.old.place + n))) }
        ensures bound { IfSome result (λ value. value < 2 ^ n) }
        ensures place { IfSome result (λ value. self.new.place ≡ self.old.place + n) }
    {
        let n = n as usize;
        if self.bits.len() - self.place < n {
            return None;
        }
        let first = self.place;
        self.place += n;
        Some(number_of(&self.bits[first..self.place]) as u32)
    }

    /// Returns the reader's position: the number of bits that were taken.
    pub fn place(&self) -> usize
        ensures place { result ≡ self.now.place }
        ensures inside { result ≤ length self.now.bits }
    {
        self.place
    }

    /// Reads a number of `width` bits, at most 32. If bits are missing or the number is not from `least` to `greatest`,
    /// returns the position of its first bit and leaves the reader unchanged.
    pub fn number(&mut self, width: u32, least: u32, greatest: u32) -> Result<u32, usize>
        requires { width ≤ 32 }
        ensures reads { Reads (from_to width least greatest) self.old result self.new }
        ensures range { IfOk result (λ n. (least ≤ n) × (n ≤ greatest)) }
        ensures unchanged { OnErr result (self.new ≡ self.old) }
    {
        let place = self.place();
        match self.take(width) {
            Some(number) => {
                if is_within(number, least, greatest) {
                    Ok(number)
                } else {
                    self.place = place;
                    Err(place)
                }
            }
            None => Err(place),
        }
    }

    /// Reads one bit, or returns the position of the missing bit. After this error the reader's position is
    /// unspecified.
    pub fn flag(&mut self) -> Result<bool, usize>
        ensures { Reads flag self.old result self.new }
    {
        let bit = self.number(1, 0, 1)?;
        Ok(bit == 1)
    }
}

fn is_within(number: u32, least: u32, greatest: u32) -> bool
    ensures { result ≡ (nat_le least number && nat_le number greatest) }
{
    least <= number && number <= greatest
}

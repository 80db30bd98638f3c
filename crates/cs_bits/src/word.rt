//! A fixed-length bit word.

ghost use Rattle.std.specs.Prelude.{◌≡◌, ◌+◌, ◌^◌, ◌<◌, ◌≤◌, length, false, slice_index_or};
ghost use Rattle.cs_bits.specs.Numbers.{bits_of, field};

use crate::{number_of, put_number};
use std::marker::Model;

/// A word of `N` bits, at most 64. In contracts the value is the list of its bits.
#[derive(Clone, Copy, Debug, Drop, PartialEq, Eq)]
pub struct Bits<const N: usize> {
    bits: [bool; N],
}

impl<const N: usize> Model for Bits<N> {
    ghost use Rattle.std.specs.Prelude.{Bool, List};

    ghost Value = { List Bool };

    ghost view = { λ a. a.bits };

    ghost inverse = { λ word. record { bits = word } };
}

impl<const N: usize> Bits<N> {
    /// Creates a word from its bits.
    pub fn new(bits: [bool; N]) -> Bits<N>
        requires { N ≤ 64 }
        ensures { result ≡ bits.entry }
    {
        Bits { bits }
    }

    /// Creates a word from the `N` low bits of `number`, the most significant first.
    pub fn of_number(number: u64) -> Bits<N>
        requires { N ≤ 64 }
        ensures word { result ≡ bits_of N number }
        ensures count { length result ≡ N }
    {
        let mut bits = [false; N];
        put_number(number, &mut bits);
        Bits { bits }
    }

    /// Returns the bits in order.
    pub fn slice(&self) -> &[bool]
        requires { N ≤ 64 }
        ensures bits { result.now ≡ self.now }
        ensures count { length self.now ≡ N }
    {
        &self.bits
    }

    /// Returns the bit at index `i`.
    pub fn get(&self, i: usize) -> bool
        requires size { N ≤ 64 }
        requires inside { i < N }
        ensures { result ≡ slice_index_or self.now i false }
    {
        self.bits[i]
    }

    /// Returns the number in the `width` bits from index `first`, the most significant first.
    pub fn field(&self, first: usize, width: usize) -> u64
        requires size { N ≤ 64 }
        requires inside { first + width ≤ N }
        ensures value { result ≡ field self.now first width }
        ensures bound { result < 2 ^ width }
    {
        number_of(&self.slice()[first..first + width])
    }
}

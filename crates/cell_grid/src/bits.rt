//! Numbers that are written as fields of a codeword.

ghost use Rattle.std.specs.Prelude.{◌≡◌, ◌+◌, ◌≤◌, ◌++◌, length, take};
ghost use Rattle.cs_bits.specs.Numbers.{bits_of};

use cs_bits::put_number;

/// Writes the low `width` bits of `number` to `bits` from index `first`, most significant bit first.
pub(crate) fn put_bits(bits: &mut [bool], first: usize, width: usize, number: u64)
    requires inside { first + width ≤ length bits.old }
    requires width { width ≤ 64 }
    ensures bits { take (first + width) bits.new ≡ take first bits.old ++ bits_of width number }
    ensures count { length bits.new ≡ length bits.old }
{
    put_number(number, &mut bits[first..first + width]);
}

//! Fields of a payload.

ghost use Rattle.std.specs.Prelude.{◌≡◌, ◌+◌, ◌^◌, ◌<◌, ◌≤◌, length};
ghost use Rattle.cs_bits.specs.Numbers.{field};

use cs_bits::number_of;

// Returns the number in the `width` bits from index `first`, the most significant first.
pub(crate) fn field_of(bits: &[bool], first: usize, width: usize) -> u16
    requires width { width ≤ 13 }
    requires inside { first + width ≤ length bits.now }
    ensures value { result ≡ field bits.now first width }
    ensures bound { result < 2 ^ width }
{
    number_of(&bits[first..first + width]) as u16
}

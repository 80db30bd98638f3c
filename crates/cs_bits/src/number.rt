//! Conversion between bits and numbers.

ghost use Rattle.std.specs.Prelude.{◌≡◌, ◌^◌, ◌<◌, ◌≤◌, length};
ghost use Rattle.cs_bits.specs.Numbers.{number, bits_of};

/// Returns the number that `bits` represent, the most significant bit first. There are at most 64 bits.
pub fn number_of(bits: &[bool]) -> u64
    requires { length bits.now ≤ 64 }
    ensures value { result ≡ number bits.now }
    ensures bound { result < 2 ^ length bits.now }
{
    let mut number: u64 = 0;
    for bit in bits {
        number = 2 * number + *bit as u64;
    }
    number
}

/// Writes the low bits of `number` to all of `out`, the most significant first. `out` has at most 64 elements.
pub fn put_number(number: u64, out: &mut [bool])
    requires { length out.old ≤ 64 }
    ensures { out.new ≡ bits_of (length out.old) number }
{
    let width = out.len();
    for i in 0..width {
        out[i] = (number >> (width - 1 - i)) % 2 == 1;
    }
}

//! The bits of a number.

ghost use Rattle.std.specs.Prelude.{◌≤◌};

/// Returns the low `N` bits of `number`, most significant first.
pub fn bits_of<const N: usize>(number: u64) -> [bool; N]
    requires { N ≤ 64 }
{
    let mut bits = [false; N];
    for k in 0..N {
        bits[k] = number >> (N - 1 - k) & 1 == 1;
    }
    bits
}

//! Fixtures shared by several test files of this crate.

ghost use Rattle.std.specs.Prelude.{◌^◌, ◌≤◌, nat_abs};
ghost use Rattle.finite.specs.Sizes.{AllWithin};

use std::alloc::{AllocError, Global};

// Returns the three soft values of one bit, bounded as decoders require.
pub(crate) fn triple(first: i32, second: i32, third: i32) -> [i32; 3]
    requires first { nat_abs first ≤ 2032 }
    requires second { nat_abs second ≤ 2032 }
    requires third { nat_abs third ≤ 2032 }
    ensures soft { AllWithin 2032 result }
    ensures small { AllWithin (2 ^ 20) result }
{
    [first, second, third]
}

// Returns the bits as a number, most significant first.
pub(crate) fn number_of(bits: &[bool]) -> u64 {
    let mut number = 0;
    for bit in bits {
        number = number << 1 | *bit as u64;
    }
    number
}

// Returns the values i^2 mod 255 - 127 for `i` below `count`.
pub(crate) fn squares(alloc: Global, count: u16) -> Result<Vec<i16>, AllocError> {
    let mut values = Vec::new(alloc);
    for i in 0..count as u32 {
        values.push((i * i % 255) as i16 - 127)?;
    }
    Ok(values)
}

// Returns a digest of the sums: their base-31 hash, row by row, modulo 1,000,003.
pub(crate) fn digest<const N: usize, const M: usize>(rows: &[[i32; N]; M]) -> i64 {
    let mut number: i64 = 0;
    for row in rows {
        for sum in row {
            number = number
                .wrapping_mul(31)
                .wrapping_add(*sum as i64)
                .rem_euclid(1_000_003);
        }
    }
    number
}

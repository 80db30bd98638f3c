//! Descrambling of soft values.

ghost use Rattle.std.specs.Prelude.{◌≡◌, ◌+◌, ◌^◌, ◌<◌, ◌≤◌, IfOk, length};
ghost use Rattle.finite.specs.Sizes.{AllWithin};
ghost use Rattle.soft_bits.specs.Places.{descrambled as descrambled_of};

use soft_bits::descramble;
use std::alloc::{AllocError, Global};

/// Returns descrambled values: those whose scrambling bit is 1 are negated (TS 36.211 section 7.2). Bit `first` of the
/// sequence for `c_init`, below 2^31, belongs to the first value; `first` plus the count is at most 5,760.
pub fn descrambled(
    alloc: Global,
    c_init: u32,
    first: usize,
    values: &[i16],
) -> Result<Vec<i16>, AllocError>
    requires c_init { c_init < 2 ^ 31 }
    requires few { first + length values.now ≤ 5760 }
    requires magnitudes { AllWithin 127 values.now }
    ensures values { IfOk result (λ plain. plain.items ≡ descrambled_of c_init first values.now) }
    ensures magnitudes { IfOk result (λ plain. AllWithin 127 plain.items) }
{
    let mut plain = values.to_vec(alloc)?;
    descramble(c_init, first, &mut plain);
    Ok(plain)
}

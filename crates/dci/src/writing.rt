//! Encoding a grant.

ghost use Rattle.std.specs.Prelude.{◌≡◌, ℕ, ◌/◌, ◌%◌, ◌^◌, ◌<◌, nat_eq};
ghost use Rattle.dci.specs.Format1A.{IsSentFor, IsGrant, sent_word};

use crate::{Grant, riv};
use cs_bits::Bits;

// The bit that pads the length to 21.
const PADDING: bool = false;

/// Encodes a valid grant, which `read` returns again. HARQ process, new data indicator, the power control command's
/// high bit and the padding are 0.
pub fn write(grant: &Grant) -> Bits<21>
    requires { IsGrant grant.now }
    ensures word { result ≡ sent_word grant.now }
    ensures carries { IsSentFor result grant.now }
{
    let assignment = riv(grant.start, grant.blocks);
    let mcs = grant.mcs;
    let rv = grant.rv;
    Bits::new([
        true,
        false,
        bit_of(assignment, 4),
        bit_of(assignment, 3),
        bit_of(assignment, 2),
        bit_of(assignment, 1),
        bit_of(assignment, 0),
        bit_of(mcs, 4),
        bit_of(mcs, 3),
        bit_of(mcs, 2),
        bit_of(mcs, 1),
        bit_of(mcs, 0),
        false,
        false,
        false,
        false,
        bit_of(rv, 1),
        bit_of(rv, 0),
        false,
        grant.column == 3,
        PADDING,
    ])
}

// Returns the bit of `number` with weight 2^`power`.
fn bit_of(number: u8, power: u32) -> bool
    requires { power < 8 }
    ensures { result ≡ nat_eq (number / 2 ^ power % 2) 1 }
{
    (number >> power) % 2 == 1
}

//! Agreement between a soft value and a bit.

ghost use Rattle.std.specs.Prelude.{◌≡◌};
ghost use Rattle.cs_bits.specs.Signs.{disagreement};

/// Returns the magnitude of the soft value `value` if its sign contradicts `bit`, otherwise 0. A positive value means
/// the bit 0, a negative one the bit 1 (own).
pub fn disagreement_of(value: i32, bit: bool) -> u32
    ensures { result ≡ disagreement value bit }
{
    if bit == (value > 0) {
        value.unsigned_abs()
    } else {
        0
    }
}

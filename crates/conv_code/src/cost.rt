//! Branch metrics.

ghost use Rattle.std.specs.Prelude.{◌≡◌, ℕ, ◌*◌, ◌^◌, ◌≤◌, false, slice_index_or};
ghost use Rattle.finite.specs.Sizes.{AllWithin};
ghost use Rattle.conv_code.specs.Cost.{triple_cost};

use cs_bits::disagreement_of;

/// Returns the branch metric: the summed magnitudes of the soft values whose signs contradict their coded bits (own).
/// Magnitudes in `values` are at most 2^20.
pub fn against(values: &[i32; 3], bits: &[bool; 3]) -> u32
    requires { AllWithin (2 ^ 20) values.now }
    ensures cost { result ≡ triple_cost values.now (slice_index_or bits.now 0 false)
        (slice_index_or bits.now 1 false) (slice_index_or bits.now 2 false) }
    ensures bound { (n : ℕ) → AllWithin n values.now → result ≤ 3 * n }
{
    disagreement_of(values[0], bits[0])
        + disagreement_of(values[1], bits[1])
        + disagreement_of(values[2], bits[2])
}

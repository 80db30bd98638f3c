//! The choice of the control format indicator from soft values.

ghost use Rattle.std.specs.Prelude.{◌≡◌, ℕ, ◌*◌, ◌<◌, ◌≤◌, ℤ, List, nat_le, ◌&&◌, length, if◌then◌else◌};
ghost use Rattle.finite.specs.Sizes.{AllWithin};
ghost use Rattle.pcfich.specs.Values.{indicator_values_by};
ghost use Rattle.pcfich.specs.Indicator.{cost, IsIndicator, Speak};

use crate::values::received;
use cs_bits::disagreement_of;
use grid_map::indicator_bit;
use lte_types::Cfi;
use soft_bits::ReadSlot;

/// Returns the control format indicator with the minimum cost in slot 10, the first of subframe 5; ties go to the
/// lowest. The cost is the summed magnitude of the soft values that disagree with the indicator's 32 bits.
pub fn cfi<S: ReadSlot>(slot: &S) -> Cfi
    requires { (S.seen_as slot.now).number ≡ 10 }
    ensures { IsIndicator (indicator_values_by S.values_by (S.seen_as slot.now)) result }
{
    indicator(&received(slot))
}

/// Returns the control format indicator with the minimum cost for the 32 PCFICH soft values, each from -127 to 127.
/// Ties go to the lowest indicator.
pub fn indicator(values: &[i16; 32]) -> Cfi
    requires { AllWithin 127 values.now }
    ensures { IsIndicator values.now result }
{
    let best = least_of(cost_of(values, 1), cost_of(values, 2), cost_of(values, 3));
    Cfi::new(best).unwrap()
}

// Returns which of three costs is the minimum: 1, 2 or 3. Ties go to the lowest number.
fn least_of(first: u32, second: u32, third: u32) -> u8
    ensures value { result ≡ (if nat_le first second && nat_le first third then 1
        else (if nat_le second third then 2 else 3)) }
    ensures range { (1 ≤ result) × (result ≤ 3) }
{
    if first <= second && first <= third {
        1
    } else if second <= third {
        2
    } else {
        3
    }
}

// Returns the cost of `indicator`: the sum of the magnitudes of soft values that disagree with its 32 bits.
fn cost_of(values: &[i16; 32], indicator: u8) -> u32
    requires some { 1 ≤ indicator }
    requires magnitudes { AllWithin 127 values.now }
    ensures { result ≡ cost values.now indicator }
{
    let mut cost = 0;
    for i in 0..32 {
        cost += disagreement_of(values[i] as i32, indicator_bit(indicator, i));
    }
    cost
}

/// A law: for any soft values, exactly one control format indicator is decoded. If all soft values are nonzero and
/// agree with one indicator's bits, it is that indicator.
pub fn only_one_indicator()
    ensures one { (values : List ℤ) (a b : ℕ) → IsIndicator values a → IsIndicator values b → a ≡ b }
    ensures some { (values : List ℤ) → (indicator : ℕ) × IsIndicator values indicator }
    ensures clear { (values : List ℤ) (sent decoded : ℕ) → 1 ≤ sent → sent ≤ 3 → Speak values sent →
        IsIndicator values decoded → decoded ≡ sent }
{}

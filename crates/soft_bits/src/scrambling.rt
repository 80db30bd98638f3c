//! Descrambling of soft values.

ghost use Rattle.std.specs.Prelude.{◌≡◌, ℕ, ◌+◌, ◌^◌, ◌<◌, ◌≤◌, false, length, nat_abs, slice_index_or};
ghost use Rattle.finite.specs.Sizes.{AllWithin};
ghost use Rattle.gold.specs.Gold.{gold_bit};
ghost use Rattle.soft_bits.specs.Places.{descrambled_value, descrambled, turned_by};

use std::marker::Model;

// The number of bits in a `Scrambling`: those of the PBCH in four frames.
const KEPT: usize = 1920;

// The maximum number of scrambling bits that a channel needs at any bandwidth.
const MOST: usize = 5760;

/// The first 1,920 bits of a scrambling sequence, computed once (TS 36.211 section 7.2). Contracts see the sequence's
/// c_init.
#[derive(Drop)]
pub struct Scrambling {
    c_init: u32,
    bits: [bool; 1920],
}

impl Model for Scrambling {
    ghost Value = { ℕ };

    ghost view = { λ s. s.c_init };

    ghost invariant = { λ s. (k : ℕ) → k < 1920 → slice_index_or s.bits k false ≡ gold_bit s.c_init k };
}

impl Scrambling {
    /// Returns the scrambling sequence for `c_init`, which is below 2^31.
    pub fn new(c_init: u32) -> Scrambling
        requires { c_init < 2 ^ 31 }
        ensures { result ≡ c_init }
    {
        let mut bits = [false; KEPT];
        write_first_bits(c_init, KEPT, &mut bits);
        Scrambling { c_init, bits }
    }

    /// Descrambles `values` in place, as the free function `descramble` does. `first` plus the count is at most 1,920.
    pub fn descramble(&self, first: usize, values: &mut [i16])
        requires few { first + length values.old ≤ 1920 }
        requires magnitudes { AllWithin 127 values.old }
        ensures values { values.new ≡ descrambled self.now first values.old }
        ensures magnitudes { AllWithin 127 values.new }
    {
        turn_by(&self.bits, first, values);
    }
}

/// Descrambles `values`: negates those whose scrambling bit is 1 (TS 36.211 section 7.2). Bit `first` of the sequence
/// for `c_init`, below 2^31, belongs to the first value. `first` plus the count is at most 5,760.
pub fn descramble(c_init: u32, first: usize, values: &mut [i16])
    requires c_init { c_init < 2 ^ 31 }
    requires few { first + length values.old ≤ 5760 }
    requires magnitudes { AllWithin 127 values.old }
    ensures values { values.new ≡ descrambled c_init first values.old }
    ensures magnitudes { AllWithin 127 values.new }
{
    let mut bits = [false; MOST];
    write_first_bits(c_init, first + values.len(), &mut bits);
    turn_by(&bits, first, values);
}

// Writes the first `count` bits of the scrambling sequence for `c_init` to `bits`, and leaves later entries unchanged.
fn write_first_bits(c_init: u32, count: usize, bits: &mut [bool])
    requires c_init { c_init < 2 ^ 31 }
    requires room { count ≤ length bits.old }
    ensures { (k : ℕ) → k < count → slice_index_or bits.new k false ≡ gold_bit c_init k }
{
    gold::fill(c_init, &mut bits[..count]);
}

// Negates each value whose bit is 1, where bit `first` of `bits` belongs to the first value.
fn turn_by(bits: &[bool], first: usize, values: &mut [i16])
    requires few { first + length values.old ≤ length bits.now }
    requires magnitudes { AllWithin 127 values.old }
    ensures values { values.new ≡ turned_by (λ k. slice_index_or bits.now k false) first values.old }
    ensures magnitudes { AllWithin 127 values.new }
{
    for i in 0..values.len() {
        values[i] = turned(values[i], bits[first + i]);
    }
}

// Returns `value`, negated if the scrambling bit is 1.
fn turned(value: i16, scrambling: bool) -> i16
    requires { nat_abs value ≤ 127 }
    ensures value { result ≡ descrambled_value scrambling value }
    ensures magnitude { nat_abs result ≤ 127 }
{
    if scrambling { -value } else { value }
}

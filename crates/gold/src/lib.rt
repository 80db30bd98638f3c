//! LTE's pseudo-random sequence c, a length-31 Gold sequence (TS 36.211 section 7.2): the XOR of the 31-bit LFSR
//! sequences x1 and x2, from index 1600. The sequence scrambles channels and generates reference signals.
//! Tests: the crate `low_tests`.
#![tactic(auto)]

ghost use Rattle.std.specs.Prelude.{◌≡◌, ◌+◌, ◌*◌, ◌/◌, ◌^◌, ◌<◌, ◌↔◌, ℕ, true, false, IsTrue, IsBitSet, length};
ghost use Rattle.gold.specs.Gold.{gold_bit, gold_bits};
ghost use Rattle.finite.specs.Bits.{xor};
ghost use Rattle.gold.specs.Register.{low_bits, window};
ghost use Rattle.gold.specs.Sequence.{x1, x2, x1_taps, x2_taps};

// The number of bits computed at once. A 31-bit register determines its next 28 bits, and 64 blocks of 25 bits skip the
// 1,600 bits before c.
const BLOCK: usize = 25;

// A mask for the low 25 bits.
const LOW: u32 = 0x1ff_ffff;

// Returns the register 25 steps later, where `bits` are the 25 new bits.
fn shift_in(register: u32, bits: u32) -> u32
    requires register { register < 2 ^ 31 }
    requires bits { bits < 2 ^ 25 }
    ensures { result ≡ register / 2 ^ 25 + bits * 2 ^ 6 }
{
    (register >> 25) | (bits << 6)
}

// Returns the register of x1 25 steps later.
fn later_x1(register: u32) -> u32
    requires { register < 2 ^ 31 }
    ensures fits { result < 2 ^ 31 }
    ensures later { low_bits 31 result ≡ window x1_taps (low_bits 31 register) 25 }
{
    shift_in(register, ((register >> 3) ^ register) & LOW)
}

// Returns the register of x2 25 steps later.
fn later_x2(register: u32) -> u32
    requires { register < 2 ^ 31 }
    ensures fits { result < 2 ^ 31 }
    ensures later { low_bits 31 result ≡ window x2_taps (low_bits 31 register) 25 }
{
    shift_in(
        register,
        ((register >> 3) ^ (register >> 2) ^ (register >> 1) ^ register) & LOW,
    )
}

// Writes the low bits of `number` to all of `out`, the least significant first.
fn put_low_bits(number: u32, out: &mut [bool])
    ensures { out.new ≡ low_bits (length out.old) number }
{
    let mut left = number;
    for bit in out.iter_mut() {
        *bit = left & 1 == 1;
        left >>= 1;
    }
}

/// Fills `out` with the first bits of the sequence c for `c_init`, which is below 2^31. Bit i of `c_init` is x2(i).
pub fn fill(c_init: u32, out: &mut [bool])
    requires { c_init < 2 ^ 31 }
    ensures { out.new ≡ gold_bits c_init (length out.old) }
{
    let mut first = 1;
    let mut second = c_init;
    for _block in 0..64_usize {
        first = later_x1(first);
        second = later_x2(second);
    }
    let mut at = 0;
    while at < out.len() {
        let end = out.len().min(at + BLOCK);
        put_low_bits(first ^ second, &mut out[at..end]);
        first = later_x1(first);
        second = later_x2(second);
        at += BLOCK;
    }
}

/// A law: the definitions agree with the standard. x1 and x2 have the given first 31 bits and satisfy their
/// recurrences, and c is their XOR from bit 1600.
pub fn recurrences()
    ensures x1_first { x1 0 ≡ true }
    ensures x1_start { (n : ℕ) → 0 < n → n < 31 → x1 n ≡ false }
    ensures x1_next { (n : ℕ) → x1 (n + 31) ≡ xor (x1 (n + 3)) (x1 n) }

    ensures x2_start { (c_init n : ℕ) → n < 31 → IsTrue (x2 c_init n) ↔ IsBitSet c_init n }
    ensures x2_next { (c_init n : ℕ) →
        x2 c_init (n + 31)
        ≡ xor (x2 c_init (n + 3)) (xor (x2 c_init (n + 2))
        (xor (x2 c_init (n + 1)) (x2 c_init n))) }

    ensures sum { (c_init n : ℕ) →
        gold_bit c_init n ≡ xor (x1 (n + 1600)) (x2 c_init (n + 1600)) }
{}

//! The SSS.

ghost use Rattle.std.specs.Prelude.{◌≡◌, ◌<◌, ◌≤◌, nat_abs};
ghost use Rattle.sync_seq.specs.Secondary.{S, C, Z, period_bits, sign_at, shift_sum, even_shift, odd_shift, shifted_value, sss_list, amplitude as amplitude_of};

use cs_num::Cpx;
use lte_types::Half;

// The signs 1 - 2 s(n) of the m-sequence s, over two periods of 31.
const S_SIGNS: [i8; 62] = [
    1, 1, 1, 1, -1, 1, 1, -1, 1, -1, -1, 1, 1, -1, -1, -1, -1, -1, 1, 1, 1, -1, -1, 1, -1, -1, -1,
    1, -1, 1, -1, 1, 1, 1, 1, -1, 1, 1, -1, 1, -1, -1, 1, 1, -1, -1, -1, -1, -1, 1, 1, 1, -1, -1,
    1, -1, -1, -1, 1, -1, 1, -1,
];

// The signs 1 - 2 c(n) of the m-sequence c, over two periods of 31.
const C_SIGNS: [i8; 62] = [
    1, 1, 1, 1, -1, 1, -1, 1, -1, -1, -1, 1, -1, -1, 1, 1, 1, -1, -1, -1, -1, -1, 1, 1, -1, -1, 1,
    -1, 1, 1, -1, 1, 1, 1, 1, -1, 1, -1, 1, -1, -1, -1, 1, -1, -1, 1, 1, 1, -1, -1, -1, -1, -1, 1,
    1, -1, -1, 1, -1, 1, 1, -1,
];

// The signs 1 - 2 z(n) of the m-sequence z, over two periods of 31.
const Z_SIGNS: [i8; 62] = [
    1, 1, 1, 1, -1, -1, -1, 1, 1, -1, -1, 1, -1, -1, -1, -1, -1, 1, -1, 1, 1, 1, -1, 1, 1, -1, 1,
    -1, 1, -1, -1, 1, 1, 1, 1, -1, -1, -1, 1, 1, -1, -1, 1, -1, -1, -1, -1, -1, 1, -1, 1, 1, 1, -1,
    1, 1, -1, 1, -1, 1, -1, -1,
];

/// Returns the 62 signs of the SSS for group `n1`, 0 to 167, and identity within the group `n2`, 0 to 2, in a half
/// frame (TS 36.211 section 6.11.2).
pub fn sss(n1: u16, n2: u8, half: Half) -> [i8; 62]
    requires group { n1 ≤ 167 }
    requires member { n2 ≤ 2 }
    ensures { result ≡ sss_list n1 n2 half }
{
    let (even, odd) = sss_shifts(n1, half);
    let mut values = [0; 62];
    for k in 0..62 {
        values[k] = sss_sign(n2, even, odd, k);
    }
    values
}

/// Returns the subcarrier value for an SSS sign: 127 times `sign`. (own)
pub fn amplitude(sign: i8) -> Cpx
    requires { nat_abs sign ≤ 1 }
    ensures { result ≡ amplitude_of sign }
{
    Cpx {
        re: 127 * sign as i64,
        im: 0,
    }
}

/// Returns the cyclic shifts, below 31, of the even and odd positions for group `n1`, 0 to 167: m0 and m1 of TS
/// 36.211 section 6.11.2.1, exchanged in subframe 5.
pub fn sss_shifts(n1: u16, half: Half) -> (usize, usize)
    requires { n1 ≤ 167 }
    ensures even { result.0 ≡ even_shift half n1 }
    ensures odd { result.1 ≡ odd_shift half n1 }
    ensures even_small { result.0 < 31 }
    ensures odd_small { result.1 < 31 }
{
    let sum = shift_sum_of(n1 as usize);
    let m0 = sum % 31;
    let m1 = (m0 + sum / 31 + 1) % 31;
    match half {
        Half::Zero => (m0, m1),
        Half::Five => (m1, m0),
    }
}

// Returns the standard's m' for group `n1`, from which m0 and m1 are computed.
fn shift_sum_of(n1: usize) -> usize
    requires { n1 ≤ 167 }
    ensures value { result ≡ shift_sum n1 }
    ensures small { result < 1000 }
{
    let first = n1 / 30;
    let q = (n1 + first * (first + 1) / 2) / 30;
    n1 + q * (q + 1) / 2
}

/// Returns sign `k`, 0 to 61, of the SSS with the cyclic shifts `even` and `odd`, below 31 (TS 36.211 section
/// 6.11.2.1). Even positions ignore `odd`; odd ones use `even` modulo 8. `n2` is 0 to 2.
pub fn sss_sign(n2: u8, even: usize, odd: usize, k: usize) -> i8
    requires member { n2 ≤ 2 }
    requires even { even < 31 }
    requires odd { odd < 31 }
    requires k { k < 62 }
    ensures value { result ≡ shifted_value (period_bits S) (period_bits C) (period_bits Z) n2 even odd k }
    ensures small { nat_abs result ≡ 1 }
{
    let n = k / 2;
    let member = n2 as usize;
    if k % 2 == 0 {
        s_sign(n + even) * c_sign(n + member)
    } else {
        s_sign(n + odd) * c_sign(n + member + 3) * z_sign(n + even % 8)
    }
}

// Returns sign `n`, 0 to 61, of the m-sequence s.
fn s_sign(n: usize) -> i8
    requires { n < 62 }
    ensures value { result ≡ sign_at (period_bits S) n }
    ensures small { nat_abs result ≡ 1 }
{
    S_SIGNS[n]
}

// Returns sign `n`, 0 to 61, of the m-sequence c.
fn c_sign(n: usize) -> i8
    requires { n < 62 }
    ensures value { result ≡ sign_at (period_bits C) n }
    ensures small { nat_abs result ≡ 1 }
{
    C_SIGNS[n]
}

// Returns sign `n`, 0 to 61, of the m-sequence z.
fn z_sign(n: usize) -> i8
    requires { n < 62 }
    ensures value { result ≡ sign_at (period_bits Z) n }
    ensures small { nat_abs result ≡ 1 }
{
    Z_SIGNS[n]
}

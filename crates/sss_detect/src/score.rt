//! The scores of secondary sequences, from sums that several sequences share.

ghost use Rattle.std.specs.Prelude.{◌≡◌, ◌+◌, ◌^◌, ◌<◌, ◌≤◌, All, length, pos, ◌*ℤ◌, nat_abs, slice_index_or};
ghost use Rattle.finite.specs.Sizes.{AllWithin};
ghost use Rattle.cs_num.specs.Complex.{IsWithin, times, conjugate, value_at};
ghost use Rattle.sss_detect.specs.Scores.{agreement};
ghost use Rattle.finite.specs.Lists.{values_below};
ghost use Rattle.sss_detect.specs.Steps.{agreements_of, places_sum as places_sum_of, even_sum, odd_sum, score_by};

use cs_num::Cpx;
use lte_types::{Half, SUBCARRIERS};
use sync_seq::{MIDDLE, pss, sss_shifts, sss_sign};

// Returns the agreements at the secondary sequence's 62 values, for demodulated symbols with components of magnitude at
// most 2^25.
pub(crate) fn agreements(
    primary: &[Cpx; SUBCARRIERS],
    secondary: &[Cpx; SUBCARRIERS],
    n2: u8,
) -> [i64; 62]
    requires member { n2 ≤ 2 }
    requires primary { All (IsWithin (2 ^ 25)) primary.now }
    requires secondary { All (IsWithin (2 ^ 25)) secondary.now }
    ensures value { result ≡ agreements_of (value_at primary.now) (value_at secondary.now) n2 }
    ensures small { AllWithin (2 ^ 59) result }
{
    let values = pss(n2);
    let mut out = [0; 62];
    for n in 0..62 {
        out[n] = agree(primary[n + MIDDLE], secondary[n + MIDDLE], values[n]);
    }
    out
}

// Returns the agreement at one subcarrier, where `value` is the primary sequence's value.
fn agree(primary: Cpx, secondary: Cpx, value: Cpx) -> i64
    requires primary { IsWithin (2 ^ 25) primary }
    requires secondary { IsWithin (2 ^ 25) secondary }
    requires value { IsWithin 127 value }
    ensures value { result ≡ (times secondary (conjugate (times primary (conjugate value)))).re }
    ensures small { nat_abs result ≤ 2 ^ 59 }
{
    let channel = primary.mul(value.conj());
    secondary.mul(channel.conj()).re
}

/// Sums of agreements with the signs of the secondary sequences: over even indices for each even shift, and over odd
/// indices for each odd shift and each remainder of an even shift modulo 8.
#[derive(Drop)]
pub(crate) struct ShiftSums<'a> {
    pub agreements: &'a [i64; 62],
    pub n2: u8,
    even: [i128; 31],
    odd: [i128; 248],
    ghost long: { length agreements.now ≡ 62 },
    ghost even_is: { even ≡ values_below 31 (even_sum agreements.now n2) },
    ghost odd_is: { odd ≡ values_below 248 (odd_sum agreements.now n2) },
}

impl<'a> ShiftSums<'a> {
    /// Returns the sums for the identity `n2` within the group, 0 to 2, from agreements of magnitude at most 2^59.
    pub(crate) fn new(agreements: &'a [i64; 62], n2: u8) -> ShiftSums<'a>
        requires small { AllWithin (2 ^ 59) agreements.now }
        requires member { n2 ≤ 2 }
        ensures agreements { result.agreements.now ≡ agreements.now }
        ensures member { result.n2 ≡ n2 }
    {
        let even = even_sums(agreements, n2);
        let odd = odd_sums(agreements, n2);
        ShiftSums {
            agreements,
            n2,
            even,
            odd,
        }
    }

    /// Returns the score of identity group `n1`, 0 to 167, in `half`.
    pub(crate) fn score_of(&self, n1: u16, half: Half) -> i128
        requires small { AllWithin (2 ^ 59) self.now.agreements.now }
        requires group { n1 ≤ 167 }
        ensures { result ≡ score_by self.now.agreements.now self.now.n2 n1 half }
    {
        let (even, odd) = sss_shifts(n1, half);
        self.even[even] + self.odd[8 * odd + even % 8]
    }
}

// Returns the sums over even indices, by even shift.
fn even_sums(agreements: &[i64; 62], n2: u8) -> [i128; 31]
    requires small { AllWithin (2 ^ 59) agreements.now }
    requires member { n2 ≤ 2 }
    ensures { result ≡ values_below 31 (even_sum agreements.now n2) }
{
    let mut sums = [0; 31];
    for shift in 0..31 {
        sums[shift] = places_sum(agreements, n2, shift, 0, 0);
    }
    sums
}

// Returns the sums over odd indices: at index `8 * odd + remainder`, that for an odd shift and an even shift modulo 8.
fn odd_sums(agreements: &[i64; 62], n2: u8) -> [i128; 248]
    requires small { AllWithin (2 ^ 59) agreements.now }
    requires member { n2 ≤ 2 }
    ensures { result ≡ values_below 248 (odd_sum agreements.now n2) }
{
    let mut sums = [0; 248];
    for i in 0..248 {
        sums[i] = places_sum(agreements, n2, i % 8, i / 8, 1);
    }
    sums
}

// Returns the sum over every other index from `first`, with the signs of the secondary sequence with shifts `even` and
// `odd`.
fn places_sum(agreements: &[i64; 62], n2: u8, even: usize, odd: usize, first: usize) -> i128
    requires small { AllWithin (2 ^ 59) agreements.now }
    requires member { n2 ≤ 2 }
    requires even { even < 31 }
    requires odd { odd < 31 }
    requires first { first < 2 }
    ensures { result ≡ places_sum_of agreements.now n2 even odd first 31 }
{
    let mut sum = 0;
    for n in 0..31 {
        let place = 2 * n + first;
        sum += signed(agreements[place], sss_sign(n2, even, odd, place)) as i128;
    }
    sum
}

// Returns `number` with the sign `sign`, 1 or -1, by multiplication: a branch would be mispredicted every other time.
fn signed(number: i64, sign: i8) -> i64
    requires small { nat_abs number ≤ 2 ^ 59 }
    requires sign { nat_abs sign ≡ 1 }
    ensures value { result ≡ sign *ℤ number }
    ensures small { nat_abs result ≤ 2 ^ 59 }
{
    sign as i64 * number
}

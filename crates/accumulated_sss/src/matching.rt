//! The signs of sums, and how many match those of a secondary sequence.

ghost use Rattle.std.specs.Prelude.{◌≡◌, ◌*◌, ◌^◌, ◌≤◌, nat_abs};
ghost use Rattle.finite.specs.Sizes.{AllWithin};
ghost use Rattle.accumulated_sss.specs.Steps.{number_at, row_matches, signed_sum as signed_sum_of, signs_of};

// Returns the signs of 62 sums: 1, 0 or -1.
pub(crate) fn signs(sums: &[i128; 62]) -> [i8; 62]
    requires { AllWithin (2 ^ 64) sums.now }
    ensures value { result ≡ signs_of sums.now }
    ensures small { AllWithin 1 result }
{
    let mut out = [0; 62];
    for n in 0..62 {
        out[n] = sums[n].signum() as i8;
    }
    out
}

// Returns how many of 62 signs are equal to those of a sequence.
pub(crate) fn count(signs: &[i8; 62], sequence: &[i8; 62]) -> u8
    requires signs { AllWithin 1 signs.now }
    requires sequence { AllWithin 1 sequence.now }
    ensures value { result ≡ row_matches signs.now (number_at sequence.now) }
    ensures small { result ≤ 62 }
{
    let mut count = 0;
    for n in 0..62 {
        count += (signs[n] == sequence[n]) as u8;
    }
    count
}

// Returns the sum of 62 numbers, each times the sign of a sequence.
pub(crate) fn signed_sum(sums: &[i128; 62], sequence: &[i8; 62]) -> i128
    requires sums { AllWithin (2 ^ 64) sums.now }
    requires sequence { AllWithin 1 sequence.now }
    ensures value { result ≡ signed_sum_of sums.now (number_at sequence.now) }
    ensures small { nat_abs result ≤ 62 * 2 ^ 64 }
{
    let mut sum = 0;
    for n in 0..62 {
        sum += sequence[n] as i128 * sums[n];
    }
    sum
}

//! How many sums have the sign of their coded bit.

ghost use Rattle.std.specs.Prelude.{◌≡◌, ◌<◌, ◌≤◌, ◌^◌, cond, pos, negsuc};
ghost use Rattle.std.specs.Int.{int_signum};
ghost use Rattle.std.specs.Ordering.{int_eq};
ghost use Rattle.finite.specs.Sizes.{RowsWithin};
ghost use Rattle.added_master.specs.Master.{matches_of, sign_of_sum, sign_of_bit};

use conv_code::encode;
use cs_bits::Bits;

/// Returns how many of the 120 sums have the sign of their coded bit in the codeword of `word`. A sum above 0 means the
/// bit 0, a sum below 0 the bit 1.
pub fn count_matches(sums: &[[i32; 3]; 40], word: &Bits<40>) -> u8
    requires { RowsWithin (2 ^ 20) sums.now }
    ensures value { result ≡ matches_of sums.now word.now }
    ensures small { result ≤ 120 }
{
    let coded = encode(word);
    let mut count = 0;
    for i in 0..120 {
        count += is_match(sums, &coded, i) as u8;
    }
    count
}

// Returns whether sum `i` has the sign of coded bit `i`.
fn is_match(sums: &[[i32; 3]; 40], coded: &[[bool; 3]; 40], i: usize) -> bool
    requires magnitudes { RowsWithin (2 ^ 20) sums.now }
    requires inside { i < 120 }
    ensures { result ≡ int_eq (sign_of_sum sums.now i) (sign_of_bit coded.now i) }
{
    has_sign(sums[i / 3][i % 3], coded[i / 3][i % 3])
}

// Returns whether `sum` has the sign of `bit`.
fn has_sign(sum: i32, bit: bool) -> bool
    ensures { result ≡ int_eq (int_signum sum) (cond bit (negsuc 0) (pos 1)) }
{
    if bit { sum < 0 } else { 0 < sum }
}

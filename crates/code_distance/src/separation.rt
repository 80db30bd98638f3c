//! The room of a word: how much more every other word costs, at least.

ghost use Rattle.std.specs.Prelude.{◌≡◌, ℕ, ◌+◌, ◌*◌, ◌^◌, ◌<◌, ◌≤◌, ◌++◌, length, nat_abs, false, slice_index_or, pos};
ghost use Rattle.arrayvec.specs.ArrayVec.{array_vec_len};
ghost use Rattle.finite.specs.Sizes.{AllWithin, RowsWithin};
ghost use Rattle.finite.specs.Sums.{sum_below};
ghost use Rattle.code_distance.specs.Room.{agreement as agreement_of, agreements as agreements_of, word_agreements};
ghost use Rattle.code_distance.specs.Room.{IsSumOfLeast, IsRoom, IsOneRoom, RoomSeparatesWords, PositiveRoomOutweighs};

use arrayvec::ArrayVec;
use conv_code::encode;
use cs_bits::Bits;

/// Returns the room of a word: the sum of the 15 smallest of the 120 combined soft values, taken in the direction of the
/// word's coded bits. The values' magnitude is at most 2^20. (own)
pub fn room(values: &[[i32; 3]; 40], word: &Bits<40>) -> i64
    requires { RowsWithin (2 ^ 20) values.now }
    ensures { IsRoom values.now word.now result }
{
    let mut all = agreements(values, word);
    sum_of_least(all.as_mut_slice())
}

/// A law: the minimum-cost word of at least 22 bits has one room, and every other word costs at least this word's cost
/// and room. A positive room means that the soft values outweigh every other word.
pub fn room_separates_words()
    ensures one { IsOneRoom }
    ensures separates { RoomSeparatesWords }
    ensures outweighs { PositiveRoomOutweighs }
{}

// Returns a soft value in the direction of a bit.
fn agreement(value: &i32, bit: bool) -> i32
    requires { nat_abs value.now ≤ 2 ^ 20 }
    ensures value { result ≡ agreement_of value.now bit }
    ensures magnitude { nat_abs result ≤ 2 ^ 20 }
{
    if bit { -*value } else { *value }
}

// Appends three soft values in the direction of three coded bits.
fn add_agreements(values: &[i32; 3], bits: &[bool; 3], all: &mut ArrayVec<i32, 120>)
    requires room { array_vec_len all.old + 3 ≤ 120 }
    requires magnitudes { AllWithin (2 ^ 20) values.now }
    ensures items { all.new.items ≡ all.old.items ++ agreements_of values.now bits.now }
    ensures count { array_vec_len all.new ≡ array_vec_len all.old + 3 }
{
    all.push(agreement(&values[0], bits[0]));
    all.push(agreement(&values[1], bits[1]));
    all.push(agreement(&values[2], bits[2]));
}

// Returns the soft values in the direction of the word's coded bits.
fn agreements(values: &[[i32; 3]; 40], word: &Bits<40>) -> ArrayVec<i32, 120>
    requires { RowsWithin (2 ^ 20) values.now }
    ensures items { result.items ≡ word_agreements values.now word.now }
    ensures count { array_vec_len result ≡ 120 }
{
    let coded = encode(word);
    let mut all = ArrayVec::new();
    for k in 0..40 {
        add_agreements(&values[k], &coded[k], &mut all);
    }
    all
}

// Sorts the values, and returns the sum of the 15 smallest.
fn sum_of_least(values: &mut [i32]) -> i64
    requires { 15 ≤ length values.old }
    ensures { IsSumOfLeast 15 values.old result }
{
    values.sort_unstable();
    sum_of_first(values)
}

// Returns the sum of the first 15 values.
fn sum_of_first(values: &[i32]) -> i64
    requires { 15 ≤ length values.now }
    ensures { result ≡ sum_below 15 (λ i. slice_index_or values.now i (pos 0)) }
{
    let mut sum = 0;
    for i in 0..15 {
        sum += value_at(values, i);
    }
    sum
}

// Returns value `i` in 64 bits.
fn value_at(values: &[i32], i: usize) -> i64
    requires { i < length values.now }
    ensures value { result ≡ slice_index_or values.now i (pos 0) }
    ensures magnitude { nat_abs result ≤ 2 ^ 31 }
{
    values[i] as i64
}

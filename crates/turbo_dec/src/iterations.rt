//! The iterations between the two constituent decoders (own).
//!
//! An iteration runs the first decoder, then the second, which reads the interleaved bits. Each decoder's prior is
//! derived from the other's last extrinsic values: each value less a quarter of it, rounded toward 0. The first prior
//! is 0. A bit is decided as 1 if the sum of its soft value and both extrinsic values, without that reduction, is
//! negative.

ghost use Rattle.std.specs.Prelude.{◌≡◌, ℕ, ◌+◌, ◌-◌, ◌<◌, ◌≤◌, ◌+ℤ◌, All, nat_abs, int_lt, length, map, take, pos};
ghost use Rattle.arrayvec.specs.ArrayVec.{array_vec_len};
ghost use Rattle.std.specs.Option.{option_map};
ghost use Rattle.finite.specs.Lists.{values_below};
ghost use Rattle.turbo_code.specs.Table.{IsAnyRow};
ghost use Rattle.turbo_dec.specs.Decoder.{IsSmall, at, values_of, extrinsics};
ghost use Rattle.cs_bits.specs.Checks.{message_of, has_check_24};
ghost use Rattle.turbo_code.specs.Streams.{tail_items, in_order, in_word_order};
ghost use Rattle.turbo_dec.specs.Block.{handed_on, first_extrinsics, second_extrinsics, second_after, decoded_by, word_by, block};

use crate::constituent::half;
use crate::work::Work;
use arrayvec::ArrayVec;
use cs_bits::has_check_24;
use turbo_code::{Combined, Row, interleaver};

/// The bits of a decoded block, at most 1,000, without the CRC.
pub type Block = ArrayVec<bool, 1000>;

/// The maximum number of iterations.
const ITERATIONS: usize = 8;

/// The number of CRC24A bits.
const CHECK: usize = 24;

/// One value per bit of a word. Entries past the word's length are unused.
type BitValues = [i32; 1024];

/// Returns a constituent decoder's six tail values, which start at `index` in the streams.
fn tail_of(sums: &[[i32; 1028]; 3], index: usize) -> [i32; 6]
    requires { index ≤ 1026 }
    ensures { result ≡ tail_items (pos 0) sums.now index }
{
    [
        sums[0][index],
        sums[1][index],
        sums[2][index],
        sums[0][index + 1],
        sums[1][index + 1],
        sums[2][index + 1],
    ]
}

/// Returns a stream's soft values without those of the tail.
fn stream_of<'a>(stream: &'a [i32; 1028], row: &Row) -> &'a [i32]
    requires row { IsAnyRow row.now }
    ensures values { result.now ≡ values_below row.now.k (at stream.now) }
    ensures count { length result.now ≡ row.now.k }
    ensures small { All IsSmall stream.now → All IsSmall result.now }
{
    &stream[..row.k as usize]
}

/// Returns the used entries of `values`, one per bit of the block size in `row`.
fn front_of<'a>(values: &'a BitValues, row: &Row) -> &'a [i32]
    requires row { IsAnyRow row.now }
    ensures values { result.now ≡ take row.now.k values.now }
    ensures count { length result.now ≡ row.now.k }
    ensures small { All IsSmall values.now → All IsSmall result.now }
{
    &values[..row.k as usize]
}

/// Returns the used bits of `word`, as many as the block size in `row`.
fn bits_of<'a>(word: &'a [bool; 1024], row: &Row) -> &'a [bool]
    requires row { IsAnyRow row.now }
    ensures bits { result.now ≡ take row.now.k word.now }
    ensures count { length result.now ≡ row.now.k }
    ensures low { 56 ≤ length result.now }
    ensures high { length result.now ≤ 1024 }
{
    &word[..row.k as usize]
}

/// Returns `values` interleaved, in the order of the second decoder.
fn in_order_of(row: &Row, values: &[i32]) -> BitValues
    requires row { IsAnyRow row.now }
    requires count { length values.now ≡ row.now.k }
    requires small { All IsSmall values.now }
    ensures values { take row.now.k result ≡ in_order (pos 0) row.now values.now }
    ensures size { length result ≡ 1024 }
    ensures small { All IsSmall result }
{
    let mut ordered = [0; 1024];
    for i in 0..row.k as usize {
        ordered[i] = values[interleaver(row, i)];
    }
    ordered
}

/// Returns `values`, which are in the order of the second decoder, deinterleaved.
fn in_word_order_of(row: &Row, values: &[i32]) -> BitValues
    requires row { IsAnyRow row.now }
    requires count { length values.now ≡ row.now.k }
    requires small { All IsSmall values.now }
    ensures values { take row.now.k result ≡ in_word_order (pos 0) row.now values.now }
    ensures size { length result ≡ 1024 }
    ensures small { All IsSmall result }
{
    let mut ordered = [0; 1024];
    for i in 0..row.k as usize {
        ordered[interleaver(row, i)] = values[i];
    }
    ordered
}

/// Returns one constituent decoder's extrinsic values, followed by unused entries.
fn extrinsics_of(
    systematic: &[i32],
    parity: &[i32],
    tail: &[i32; 6],
    prior: &[i32],
    work: &mut Work,
) -> BitValues
    requires short { length systematic.now ≤ 1024 }
    requires parities { length parity.now ≡ length systematic.now }
    requires priors { length prior.now ≡ length systematic.now }
    requires small_systematic { All IsSmall systematic.now }
    requires small_parity { All IsSmall parity.now }
    requires small_tail { All IsSmall tail.now }
    requires small_prior { All IsSmall prior.now }
    ensures values { take (length systematic.now) result
        ≡ extrinsics (values_of systematic.now parity.now tail.now prior.now) }
    ensures size { length result ≡ 1024 }
    ensures small { All IsSmall result }
{
    let mut found = [0; 1024];
    half(
        systematic,
        parity,
        tail,
        prior,
        &mut found[..systematic.len()],
        work,
    );
    found
}

/// Returns the first decoder's extrinsic values, from the combined soft values and its prior.
fn first_extrinsics_of(
    sums: &[[i32; 1028]; 3],
    row: &Row,
    prior: &BitValues,
    work: &mut Work,
) -> BitValues
    requires row { IsAnyRow row.now }
    requires small { All (All IsSmall) sums.now }
    requires small_prior { All IsSmall prior.now }
    ensures values { take row.now.k result ≡ first_extrinsics row.now sums.now (take row.now.k prior.now) }
    ensures size { length result ≡ 1024 }
    ensures small { All IsSmall result }
{
    extrinsics_of(
        stream_of(&sums[0], row),
        stream_of(&sums[1], row),
        &tail_of(sums, row.k as usize),
        front_of(prior, row),
        work,
    )
}

/// Returns the second decoder's extrinsic values, deinterleaved, from the combined soft values and its prior `handed`,
/// which is not yet interleaved.
fn second_extrinsics_of(
    sums: &[[i32; 1028]; 3],
    row: &Row,
    handed: &BitValues,
    work: &mut Work,
) -> BitValues
    requires row { IsAnyRow row.now }
    requires small { All (All IsSmall) sums.now }
    requires small_handed { All IsSmall handed.now }
    ensures values { take row.now.k result ≡ second_extrinsics row.now sums.now (take row.now.k handed.now) }
    ensures size { length result ≡ 1024 }
    ensures small { All IsSmall result }
{
    let systematic = in_order_of(row, stream_of(&sums[0], row));
    let prior = in_order_of(row, front_of(handed, row));
    let found = extrinsics_of(
        front_of(&systematic, row),
        stream_of(&sums[2], row),
        &tail_of(sums, row.k as usize + 2),
        front_of(&prior, row),
        work,
    );
    in_word_order_of(row, front_of(&found, row))
}

/// Returns the prior derived from the extrinsic value `e`: `e` less its quarter, which is rounded toward 0.
fn handed_on_of(e: &i32) -> i32
    requires { IsSmall e.now }
    ensures value { result ≡ handed_on e.now }
    ensures small { IsSmall result }
{
    e - e / 4
}

/// Returns the priors derived from the extrinsic values in `found`.
fn hand_on(found: &BitValues) -> BitValues
    requires small { All IsSmall found.now }
    ensures values { result ≡ map handed_on found.now }
    ensures small { All IsSmall result }
{
    let mut handed = [0; 1024];
    for k in 0..1024 {
        handed[k] = handed_on_of(&found[k]);
    }
    handed
}

/// Returns whether a bit is decided as 1: the sum of its soft value and its two extrinsic values is negative.
fn is_one(value: &i32, first: &i32, second: &i32) -> bool
    requires value { IsSmall value.now }
    requires first { IsSmall first.now }
    requires second { IsSmall second.now }
    ensures { result ≡ int_lt (value.now +ℤ first.now +ℤ second.now) (pos 0) }
{
    value + first + second < 0
}

/// Returns the hard decision on each bit, from its soft value and both decoders' extrinsic values.
fn bits_decoded(systematic: &[i32], first: &[i32], second: &[i32]) -> [bool; 1024]
    requires count { length systematic.now ≤ 1024 }
    requires firsts { length first.now ≡ length systematic.now }
    requires seconds { length second.now ≡ length systematic.now }
    requires small { All IsSmall systematic.now }
    requires small_first { All IsSmall first.now }
    requires small_second { All IsSmall second.now }
    ensures word { take (length systematic.now) result
        ≡ values_below (length systematic.now) (decoded_by systematic.now first.now second.now) }
    ensures size { length result ≡ 1024 }
{
    let mut word = [false; 1024];
    for k in 0..systematic.len() {
        word[k] = is_one(&systematic[k], &first[k], &second[k]);
    }
    word
}

/// Runs one iteration and returns its hard decisions. Replaces `prior`, the first decoder's, with the next iteration's.
fn iterate(
    sums: &[[i32; 1028]; 3],
    row: &Row,
    prior: &mut BitValues,
    work: &mut Work,
) -> [bool; 1024]
    requires row { IsAnyRow row.now }
    requires small { All (All IsSmall) sums.now }
    requires small_prior { All IsSmall prior.old }
    ensures word { take row.now.k result ≡ word_by row.now sums.now (take row.now.k prior.old) }
    ensures size { length result ≡ 1024 }
    ensures prior { take row.now.k prior.new
        ≡ map handed_on (second_after row.now sums.now (take row.now.k prior.old)) }
    ensures small { All IsSmall prior.new }
{
    let first = first_extrinsics_of(sums, row, prior, work);
    let second = second_extrinsics_of(sums, row, &hand_on(&first), work);
    *prior = hand_on(&second);
    bits_decoded(
        stream_of(&sums[0], row),
        front_of(&first, row),
        front_of(&second, row),
    )
}

/// Returns the bits of `word` in front of its 24 CRC bits.
fn payload_of(word: &[bool]) -> Block
    requires low { 24 ≤ length word.now }
    requires high { length word.now ≤ 1024 }
    ensures { result.items ≡ message_of 24 word.now }
{
    let mut block = ArrayVec::new();
    match block.try_extend_from_slice(&word[..word.len() - CHECK]) {
        Ok(()) => block,
        Err(_) => unreachable!(),
    }
}

/// Returns the first of eight iterates whose CRC24A passes (TS 36.212 section 5.1.1), without the CRC, or `None`. `row`
/// is from either table of block sizes, and the combined soft values have magnitude at most 4,096.
pub fn decode(values: &Combined, row: Row, work: &mut Work) -> Option<Block>
    requires row { IsAnyRow row }
    requires magnitudes { All (All IsSmall) values.now.d }
    ensures { option_map (λ found. found.items) result ≡ block row values.now.d }
{
    let mut prior = [0; 1024];
    for _ in 0..ITERATIONS {
        let word = iterate(&values.d, &row, &mut prior, work);
        let bits = bits_of(&word, &row);
        if has_check_24(bits) {
            return Some(payload_of(bits));
        }
    }
    None
}

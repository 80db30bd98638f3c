//! Rate matching, and combining soft values.

ghost use Rattle.std.specs.Prelude.{◌≡◌, ℕ, ◌+◌, ◌*◌, ◌^◌, ◌<◌, ◌-◌, ◌≤◌, [], length, nat_abs, pos, slice_index_or};
ghost use Rattle.finite.specs.Sizes.{AllWithin, RowsWithin};
ghost use Rattle.finite.specs.Tables.{sum_at, sums_with};
ghost use Rattle.conv_code.specs.Reading.{bit_of_item, item_of, stream_order, summed, summed_from};
ghost use Rattle.conv_code.specs.Steps.{place_of, HasPlacedSums};

use sub_block::{Code, Item, cell_at};

/// Returns the index of the bit that is read after `p` other bits from a stream of `n` bits, at most 6,176 (TS 36.212
/// section 5.1.4.2.1). `p` and the result are below `n`.
pub fn stream_index(n: usize, p: usize) -> usize
    requires high { n ≤ 6176 }
    requires bits { p < n }
    ensures index { result ≡ slice_index_or (stream_order n) p 0 }
    ensures inside { result < n }
{
    let rows = n.div_ceil(32);
    let nulls = 32 * rows - n;
    let mut left = p;
    for m in 0..32 * rows {
        let cell = cell_at(Code::Convolutional, rows, m);
        if cell >= nulls {
            if left == 0 {
                return cell - nulls;
            }
            left -= 1;
        }
    }
    unreachable!()
}

/// Returns the coded bit that rate matching outputs as bit `i`, for three streams of `n` bits each.
fn item_in(n: usize, i: usize) -> Item
    requires low { 6 ≤ n }
    requires high { n ≤ 64 }
    ensures item { result ≡ item_of n i }
    ensures inside { result.index < n }
    ensures below_three { result.stream < 3 }
{
    let i = i % (3 * n);
    Item {
        stream: i / n,
        index: stream_index(n, i % n),
    }
}

/// Returns bit `i` of the rate-matched sequence, which repeats cyclically (TS 36.212 section 5.1.4.2).
pub fn match_out<const N: usize>(coded: &[[bool; 3]; N], i: usize) -> bool
    requires low { 6 ≤ N }
    requires high { N ≤ 64 }
    ensures { result ≡ bit_of_item coded.now (item_of N i) }
{
    let at = item_in(N, i);
    coded[at.index][at.stream]
}

/// Combines soft values that start at rate-matched bit `first`, below 2^32, and returns one sum per coded bit. There
/// are at most 1,920 values.
pub fn combine_from<const N: usize>(first: usize, values: &[i16]) -> [[i32; 3]; N]
    requires low { 6 ≤ N }
    requires high { N ≤ 64 }
    requires first { first < 2 ^ 32 }
    requires count { length values.now ≤ 1920 }
    ensures sums { result ≡ summed_from first N values.now }
    ensures magnitudes { (bound : ℕ) → AllWithin bound values.now → RowsWithin (length values.now * bound) result }
{
    by_index(&by_place(first, values))
}

/// Combines soft values that start at rate-matched bit 0, and returns one sum per coded bit. There are at most
/// 1,920 values.
pub fn combine<const N: usize>(values: &[i16]) -> [[i32; 3]; N]
    requires low { 6 ≤ N }
    requires high { N ≤ 64 }
    requires count { length values.now ≤ 1920 }
    ensures sums { result ≡ summed N values.now }
    ensures magnitudes { (bound rounds : ℕ) → AllWithin bound values.now →
        length values.now ≤ rounds * (3 * N) →
        RowsWithin (rounds * bound) result }
{
    combine_from(0, values)
}

// Returns the indices of an `N`-bit stream in interleaved order.
fn stream_indices<const N: usize>() -> [usize; N]
    requires high { N ≤ 64 }
    ensures { result ≡ stream_order N }
{
    let rows = N.div_ceil(32);
    let nulls = 32 * rows - N;
    let mut order = [0; N];
    let mut p = 0;
    for m in 0..32 * rows {
        let place = cell_at(Code::Convolutional, rows, m);
        if place >= nulls {
            order[p] = place - nulls;
            p += 1;
        }
    }
    order
}

// Adds `value` to the sum at position `place` of `stream`, in interleaved order.
fn add_at<const N: usize>(sums: &mut [[i32; N]; 3], stream: usize, place: usize, value: &i16)
    requires stream { stream < 3 }
    requires place { place < N }
    requires room { nat_abs (sum_at sums.old stream place) ≤ 2 ^ 30 }
    ensures sum { sums.new ≡ sums_with sums.old stream place value.now }
    ensures magnitude { nat_abs value.now ≤ 2 ^ 15 }
{
    sums[stream][place] += *value as i32;
}

// Adds the soft values `at..end`, whose bits are consecutive in one stream, to their sums.
fn add_run<const N: usize>(
    sums: &mut [[i32; N]; 3],
    first: usize,
    values: &[i16],
    at: usize,
    end: usize,
)
    requires low { 6 ≤ N }
    requires high { N ≤ 64 }
    requires first { first < 2 ^ 32 }
    requires few { length values.now ≤ 1920 }
    requires order { at ≤ end }
    requires inside { end ≤ length values.now }
    requires one { place_of N (first + at) + (end - at) ≤ N }
    requires before { HasPlacedSums N first values.now at sums.old }
    ensures after { HasPlacedSums N first values.now end sums.new }
{
    let bit = (first + at) % (3 * N);
    let stream = bit / N;
    let start = bit % N;
    for i in at..end {
        add_at(sums, stream, start + (i - at), &values[i]);
    }
}

// Combines soft values from rate-matched bit `first`, and returns the sums by stream and position in interleaved order.
fn by_place<const N: usize>(first: usize, values: &[i16]) -> [[i32; N]; 3]
    requires low { 6 ≤ N }
    requires high { N ≤ 64 }
    requires first { first < 2 ^ 32 }
    requires few { length values.now ≤ 1920 }
    ensures { HasPlacedSums N first values.now (length values.now) result }
{
    let mut sums = [[0; N]; 3];
    let mut at = 0;
    while at < values.len() {
        let left = N - (first + at) % (3 * N) % N;
        let end = values.len().min(at + left);
        add_run(&mut sums, first, values, at, end);
        at = end;
    }
    sums
}

// Returns the sums of the three streams at position `p`.
fn sums_at<const N: usize>(placed: &[[i32; N]; 3], p: usize) -> [i32; 3]
    requires p { p < N }
    requires room { (t : ℕ) → t < 3 → nat_abs (sum_at placed.now t p) ≤ 2 ^ 30 }
    ensures sums { (t : ℕ) → t < 3 → slice_index_or result t (pos 0) ≡ sum_at placed.now t p }
    ensures length { length result ≡ 3 }
{
    [placed[0][p], placed[1][p], placed[2][p]]
}

// Rearranges the sums from interleaved order to index order.
fn by_index<const N: usize>(placed: &[[i32; N]; 3]) -> [[i32; 3]; N]
    requires high { N ≤ 64 }
    requires room { (t p : ℕ) → t < 3 → p < N → nat_abs (sum_at placed.now t p) ≤ 2 ^ 30 }
    ensures sums { (t p : ℕ) → t < 3 → p < N →
        sum_at result (slice_index_or (stream_order N) p 0) t ≡ sum_at placed.now t p }
    ensures rows { (q : ℕ) → q < N → length (slice_index_or result q []) ≡ 3 }
    ensures count { length result ≡ N }
{
    let order: [usize; N] = stream_indices();
    let mut sums = [[0; 3]; N];
    for p in 0..N {
        sums[order[p]] = sums_at(placed, p);
    }
    sums
}

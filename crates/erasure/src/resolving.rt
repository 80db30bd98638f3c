//! Decoding iterations for a punctured block.

ghost use Rattle.std.specs.Prelude.{◌≡◌, ℕ, ◌+◌, ◌<◌, ◌≤◌, ◌||◌, ◌&&◌, All, pos, false, length, take, slice_index_or};
ghost use Rattle.finite.specs.Tests.{every_below};
ghost use Rattle.turbo_code.specs.Encoder.{bit_at};
ghost use Rattle.turbo_code.specs.Table.{IsAnyRow, interleaver, step_of};
ghost use Rattle.erasure.specs.Known.{tail_sent, first_found, second_found, resolvable, sent_of};
ghost use Rattle.erasure.specs.Sets.{above_zero};

use crate::finding::{Marks, find};
use cs_bits::has_check_24;
use turbo_code::{Row, combine, interleaver};

/// The maximum number of decoding iterations.
const ITERATIONS: usize = 8;

/// The number of times that each index in the three streams is sent.
type Counts = [[i32; 1028]; 3];

/// Returns whether the coded bit at index `p` in stream `t` is sent.
fn is_sent(counts: &Counts, t: usize, p: usize) -> bool
    requires stream { t < 3 }
    requires index { p < 1028 }
    ensures { result ≡ above_zero counts.now t p }
{
    counts[t][p] > 0
}

/// Marks the sent bits of a decoder's tail, which begins at index `p`.
fn tail_of(counts: &Counts, p: usize) -> [bool; 6]
    requires { p ≤ 1026 }
    ensures { result ≡ tail_sent (above_zero counts.now) p }
{
    [
        is_sent(counts, 0, p),
        is_sent(counts, 1, p),
        is_sent(counts, 2, p),
        is_sent(counts, 0, p + 1),
        is_sent(counts, 1, p + 1),
        is_sent(counts, 2, p + 1),
    ]
}

/// Marks the sent bits in stream `t`.
fn stream_of(counts: &Counts, row: &Row, t: usize) -> Marks
    requires row { IsAnyRow row.now }
    requires stream { t < 3 }
    ensures marks { (k : ℕ) → k < row.now.k → slice_index_or result k false ≡ above_zero counts.now t k }
    ensures size { length result ≡ 1024 }
{
    let mut marks = [false; 1024];
    for k in 0..row.k as usize {
        marks[k] = is_sent(counts, t, k);
    }
    marks
}

/// Marks the information bits that are sent or known.
fn own_of(counts: &Counts, row: &Row, known: &Marks) -> Marks
    requires row { IsAnyRow row.now }
    ensures marks { (k : ℕ) → k < row.now.k → slice_index_or result k false ≡
        (above_zero counts.now 0 k || slice_index_or known.now k false) }
    ensures size { length result ≡ 1024 }
{
    let mut marks = [false; 1024];
    for k in 0..row.k as usize {
        marks[k] = is_sent(counts, 0, k) | known[k];
    }
    marks
}

/// Marks the information bits that are sent or known, in the second decoder's order.
fn own_in_order_of(counts: &Counts, row: &Row, known: &Marks) -> Marks
    requires row { IsAnyRow row.now }
    ensures marks { (i : ℕ) → i < row.now.k → slice_index_or result i false ≡
        (above_zero counts.now 0 (interleaver row.now i) || slice_index_or known.now (interleaver row.now i) false) }
    ensures size { length result ≡ 1024 }
{
    let mut marks = [false; 1024];
    for i in 0..row.k as usize {
        let k = interleaver(row, i);
        marks[i] = is_sent(counts, 0, k) | known[k];
    }
    marks
}

/// Returns the marks for the K bits of a word, without the unused entries.
fn front_of<'a>(marks: &'a Marks, row: &Row) -> &'a [bool]
    requires row { IsAnyRow row.now }
    ensures marks { result.now ≡ take row.now.k marks.now }
    ensures count { length result.now ≡ row.now.k }
    ensures low { 56 ≤ length result.now }
    ensures high { length result.now ≤ 1024 }
{
    &marks[..row.k as usize]
}

/// Returns the marks of the bits that the first decoder finds.
fn first_marks(counts: &Counts, row: &Row, known: &Marks) -> Marks
    requires row { IsAnyRow row.now }
    ensures found { (k : ℕ) → k < row.now.k → slice_index_or result k false ≡
        first_found row.now (above_zero counts.now) (bit_at known.now) k }
    ensures size { length result ≡ 1024 }
{
    find(
        front_of(&own_of(counts, row, known), row),
        front_of(&stream_of(counts, row, 1), row),
        &tail_of(counts, row.k as usize),
    )
}

/// Returns the marks of the bits that the second decoder finds, in its own order.
fn second_in_order_of(counts: &Counts, row: &Row, known: &Marks) -> Marks
    requires row { IsAnyRow row.now }
    ensures found { (k : ℕ) → k < row.now.k → slice_index_or result (step_of row.now k) false ≡
        second_found row.now (above_zero counts.now) (bit_at known.now) k }
    ensures size { length result ≡ 1024 }
{
    find(
        front_of(&own_in_order_of(counts, row, known), row),
        front_of(&stream_of(counts, row, 2), row),
        &tail_of(counts, row.k as usize + 2),
    )
}

/// Returns the marks of the bits that the second decoder finds, in the order of the word.
fn second_marks(counts: &Counts, row: &Row, known: &Marks) -> Marks
    requires row { IsAnyRow row.now }
    ensures found { (k : ℕ) → k < row.now.k → slice_index_or result k false ≡
        second_found row.now (above_zero counts.now) (bit_at known.now) k }
    ensures size { length result ≡ 1024 }
{
    let found = second_in_order_of(counts, row, known);
    let mut marks = [false; 1024];
    for i in 0..row.k as usize {
        marks[interleaver(row, i)] = found[i];
    }
    marks
}

/// Returns the marks of the settled bits, which are sent or found by either decoder.
fn settled_of(counts: &Counts, row: &Row, first: &Marks, second: &Marks) -> Marks
    requires row { IsAnyRow row.now }
    ensures marks { (k : ℕ) → k < row.now.k → slice_index_or result k false ≡
        ((above_zero counts.now 0 k || slice_index_or first.now k false) || slice_index_or second.now k false) }
    ensures size { length result ≡ 1024 }
{
    let mut marks = [false; 1024];
    for k in 0..row.k as usize {
        marks[k] = is_sent(counts, 0, k) | first[k] | second[k];
    }
    marks
}

/// Returns whether all bits are marked.
fn are_all(marks: &[bool]) -> bool
    ensures { result ≡ every_below (length marks.now) (bit_at marks.now) }
{
    let mut all = true;
    for k in 0..marks.len() {
        all &= marks[k];
    }
    all
}

/// Returns the word `bits` with 0 at every bit that is not settled.
fn word_of(bits: &[bool], settled: &Marks) -> Marks
    requires { length bits.now ≤ 1024 }
    ensures word { (k : ℕ) → k < length bits.now → slice_index_or result k false ≡
        (bit_at bits.now k && slice_index_or settled.now k false) }
    ensures size { length result ≡ 1024 }
{
    let mut word = [false; 1024];
    for k in 0..bits.len() {
        word[k] = bits[k] & settled[k];
    }
    word
}

/// Returns whether the block `bits` can be resolved from the coded bits that `counts` shows as sent.
fn resolves(bits: &[bool], row: &Row, counts: &Counts) -> bool
    requires row { IsAnyRow row.now }
    requires count { length bits.now ≡ row.now.k }
    ensures { result ≡ resolvable row.now (above_zero counts.now) bits.now }
{
    let mut known = [false; 1024];
    for _ in 0..ITERATIONS {
        let first = first_marks(counts, row, &known);
        let second = second_marks(counts, row, &first);
        let settled = settled_of(counts, row, &first, &second);
        if are_all(front_of(&settled, row)) {
            return true;
        }
        let word = word_of(bits, &settled);
        if has_check_24(front_of(&word, row)) {
            return false;
        }
        known = second;
    }
    false
}

/// Returns the number of times that each index occurs in the first `sent` bits from redundancy version `rv`.
fn counts_of(row: Row, rv: u8, sent: u16) -> Counts
    requires row { IsAnyRow row }
    requires version { rv < 4 }
    requires sent { sent ≤ 5760 }
    ensures { (t p : ℕ) → t < 3 → p < row.k + 4 → above_zero result t p ≡ sent_of row.k rv sent t p }
{
    let ones = [1; 5760];
    combine(&ones[..sent as usize], row, rv).d
}

/// Returns whether, for each redundancy version, the first `sent` coded bits resolve a block (TS 36.212 section
/// 5.1.4.1) within eight iterations (own), without an earlier false pass of CRC24A. `bits` has K bits, CRC included.
pub fn fills(bits: &[bool], row: Row, sent: u16) -> bool
    requires row { IsAnyRow row }
    requires count { length bits.now ≡ row.k }
    requires sent { sent ≤ 5760 }
    ensures { result ≡ every_below 4 (λ rv. resolvable row (sent_of row.k rv sent) bits.now) }
{
    let mut all = true;
    for rv in 0..4 {
        all &= resolves(bits, &row, &counts_of(row, rv, sent));
    }
    all
}

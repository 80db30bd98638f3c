//! Rate matching: the order in which a codeword is sent, and the sums of received values by coded bit.

ghost use Rattle.std.specs.Prelude.{◌≡◌, ℕ, ◌+◌, ◌*◌, ◌%◌, ◌^◌, ◌<◌, ◌≤◌, length, nat_abs, slice_index_or};
ghost use Rattle.finite.specs.Lists.{values_below};
ghost use Rattle.finite.specs.Sizes.{AllWithin, RowsWithin};
ghost use Rattle.finite.specs.Tables.{sum_at, sums_with};
ghost use Rattle.sub_block.specs.Items.{item};
ghost use Rattle.turbo_code.specs.Table.{IsAnyRow, IsAnySize};
ghost use Rattle.turbo_code.specs.Reading.{bit_of, buffer, item_of, summed};
ghost use Rattle.turbo_code.specs.Walk.{standing};

use crate::{Coded, Row};
use std::marker::Model;
use sub_block::{Code, Item, cell_at};

/// The sums of received values for the block size K in `k`: one sum in `d` for each index in each stream.
#[derive(Clone, Copy, Drop)]
pub struct Combined {
    pub k: u16,
    pub d: [[i32; 1028]; 3],
}

/// Returns cell `j` of the circular buffer, for matrices of `rows` rows.
fn buffer_at(rows: usize, j: usize) -> Item
    requires rows { rows ≤ 33 }
    requires inside { j < 96 * rows }
    ensures cell { result ≡ slice_index_or (buffer rows) j (item 0 0) }
    ensures below_three { result.stream < 3 }
    ensures inside { result.index < 32 * rows }
{
    let size = 32 * rows;
    if j < size {
        return Item {
            stream: 0,
            index: cell_at(Code::Turbo, rows, j),
        };
    }
    let cell = cell_at(Code::Turbo, rows, (j - size) / 2);
    if (j - size) % 2 == 0 {
        Item {
            stream: 1,
            index: cell,
        }
    } else {
        Item {
            stream: 2,
            index: (cell + 1) % size,
        }
    }
}

/// A walk along three streams of K + 4 bits in the order in which they are sent: round and round the circular buffer,
/// from a redundancy version's start. In contracts the value is K, the version, and the index of the round's next bit.
#[derive(Drop)]
struct Walk {
    k: u16,
    rv: u8,
    bit: usize,
    cell: usize,
}

impl Model for Walk {
    ghost use Rattle.turbo_code.specs.Walk.{IsAt, Standing};

    ghost Value = { Standing };

    ghost view = { λ w. record { k = w.k; rv = w.rv; bit = w.bit } };

    ghost invariant = { λ w. IsAt w.k w.rv w.bit w.cell };
}

impl Walk {
    /// Returns the walk before its first bit, for the block size `k` and the redundancy version `rv`.
    fn new(k: u16, rv: u8) -> Walk
        requires size { IsAnySize k }
        requires version { rv < 4 }
        ensures { result ≡ standing k rv 0 }
    {
        Walk {
            k,
            rv,
            bit: 0,
            cell: 0,
        }
    }

    /// Returns the item of the walk's next bit, and advances past it.
    fn step(&mut self) -> Item
        ensures item { result ≡ item_of self.old.k self.old.rv self.old.bit }
        ensures below_three { result.stream < 3 }
        ensures inside { result.index < self.old.k + 4 }
        ensures next { self.new ≡ standing self.old.k self.old.rv ((self.old.bit + 1) % (3 * (self.old.k + 4))) }
    {
        let count = self.k as usize + 4;
        let rows = count.div_ceil(32);
        let nulls = 32 * rows - count;
        let start = rows * (24 * self.rv as usize + 2);
        for m in self.cell..96 * rows {
            let cell = buffer_at(rows, (start + m) % (96 * rows));
            if cell.index >= nulls {
                self.bit = (self.bit + 1) % (3 * count);
                self.cell = if self.bit == 0 { 0 } else { m + 1 };
                return Item {
                    stream: cell.stream,
                    index: cell.index - nulls,
                };
            }
        }
        unreachable!()
    }
}

/// Returns the item for bit `i` in redundancy version `rv`, for three streams of `k` bits and their tails.
fn item_in(k: u16, rv: u8, i: usize) -> Item
    requires size { IsAnySize k }
    requires version { rv < 4 }
    ensures item { result ≡ item_of k rv i }
    ensures below_three { result.stream < 3 }
    ensures inside { result.index < k + 4 }
{
    let mut walk = Walk::new(k, rv);
    for _ in 0..i % (3 * (k as usize + 4)) {
        walk.step();
    }
    walk.step()
}

/// Returns a codeword's bit `i` after rate matching for redundancy version `rv`, 0 to 3 (TS 36.212 section 5.1.4.1).
/// `i` is at most 5,760.
pub fn match_out(coded: &Coded, rv: u8, i: usize) -> bool
    requires size { IsAnySize coded.now.k }
    requires version { rv < 4 }
    requires count { i ≤ 5760 }
    ensures { result ≡ bit_of coded.now.d (item_of coded.now.k rv i) }
{
    bit_at(coded, &item_in(coded.k, rv, i))
}

/// Fills `bits`, at most 5,760, with a codeword's first bits after rate matching. Bit `i` is the result of `match_out`
/// for `i`.
pub fn match_all(coded: &Coded, rv: u8, bits: &mut [bool])
    requires size { IsAnySize coded.now.k }
    requires version { rv < 4 }
    requires count { length bits.old ≤ 5760 }
    ensures { bits.new ≡ values_below (length bits.old) (λ i. bit_of coded.now.d (item_of coded.now.k rv i)) }
{
    let mut walk = Walk::new(coded.k, rv);
    for i in 0..bits.len() {
        bits[i] = bit_at(coded, &walk.step());
    }
}

/// Returns a codeword's bit at the item `at`.
fn bit_at(coded: &Coded, at: &Item) -> bool
    requires size { IsAnySize coded.now.k }
    requires stream { at.now.stream < 3 }
    requires index { at.now.index < coded.now.k + 4 }
    ensures { result ≡ bit_of coded.now.d at.now }
{
    coded.d[at.stream][at.index]
}

/// Adds `value` to the sum at the item `at`.
fn add_at(sums: &mut [[i32; 1028]; 3], at: &Item, value: &i16)
    requires stream { at.now.stream < 3 }
    requires index { at.now.index < 1028 }
    requires room { nat_abs (sum_at sums.old at.now.stream at.now.index) ≤ 2 ^ 30 }
    ensures sum { sums.new ≡ sums_with sums.old at.now.stream at.now.index value.now }
    ensures magnitude { nat_abs value.now ≤ 2 ^ 15 }
{
    sums[at.stream][at.index] += *value as i32;
}

/// Returns, for each coded bit, the sum of the values, at most 5,760, that redundancy version `rv`, 0 to 3, maps to it.
/// `row` is a row of either table. Each sum has at most 32 terms.
pub fn combine(values: &[i16], row: Row, rv: u8) -> Combined
    requires row { IsAnyRow row }
    requires version { rv < 4 }
    requires count { length values.now ≤ 5760 }
    ensures k { result.k ≡ row.k }
    ensures d { result.d ≡ summed row.k rv values.now }
    ensures magnitudes { (bound rounds : ℕ) → AllWithin bound values.now →
        length values.now ≤ rounds * 180 →
        RowsWithin (rounds * bound) result.d }
{
    let mut d = [[0; 1028]; 3];
    let mut walk = Walk::new(row.k, rv);
    for value in values {
        add_at(&mut d, &walk.step(), value);
    }
    Combined { k: row.k, d }
}

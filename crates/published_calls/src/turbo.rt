// Calls into `turbo_code` and `turbo_dec`.
ghost use Rattle.std.specs.Prelude.{◌≡◌, ◌<◌, ◌≤◌, All, length};
ghost use Rattle.turbo_code.specs.Table.{IsRow};
ghost use Rattle.turbo_dec.specs.Decoder.{IsSmall};

use arrayvec::ArrayVec;
use std::alloc::{AllocError, Global};
use turbo_code::{Coded, Combined, Row, combine, encode, match_out, row_of};
use turbo_dec::{Block, Work, decode, half};

// Returns whether `row` is the interleaver table's row for a transport block size.
fn has_row(size: u16, row: Row) -> bool {
    let found: Option<Row> = row_of(size);
    found == Some(row)
}

// Returns the first bit of a coded block, or false if its size is 0.
fn first_bit(coded: &Coded) -> bool {
    let Coded { k, d } = coded;
    let (k, streams): (&u16, &[[bool; 1028]; 3]) = (k, d);
    *k != 0 && streams[0][0]
}

// Returns the first combined sum, or 0 if the size is 0.
fn first_sum(sums: &Combined) -> i32 {
    let Combined { k, d } = sums;
    let (k, streams): (&u16, &[[i32; 1028]; 3]) = (k, d);
    if *k == 0 { 0 } else { streams[0][0] }
}

// Returns rate-matched bit `i`, and the first combined soft value.
fn sent_and_summed(bits: &[bool], values: &[i16], row: Row, rv: u8, i: usize) -> (bool, i32)
    requires row { IsRow row }
    requires bits { length bits.now ≡ row.k }
    requires values { length values.now ≤ 1224 }
    requires version { rv < 4 }
    requires index { i ≤ 4096 }
{
    let coded: Coded = encode(bits, row);
    let bit: bool = match_out(&coded, rv, i);
    let sums: Combined = combine(values, row, rv);
    (bit || first_bit(&coded), first_sum(&sums))
}

// Runs one constituent decoder.
fn halve(
    systematic: &[i32],
    parity: &[i32],
    tail: &[i32; 6],
    prior: &[i32],
    out: &mut [i32],
    work: &mut Work,
)
    requires some { 1 ≤ length systematic.now }
    requires short { length systematic.now ≤ 1024 }
    requires parities { length parity.now ≡ length systematic.now }
    requires priors { length prior.now ≡ length systematic.now }
    requires outs { length out.old ≡ length systematic.now }
    requires small_systematic { All IsSmall systematic.now }
    requires small_parity { All IsSmall parity.now }
    requires small_tail { All IsSmall tail.now }
    requires small_prior { All IsSmall prior.now }
{
    let _made: () = half(systematic, parity, tail, prior, out, work);
}

// Decodes combined soft values.
fn block_of(values: &Combined, row: Row, work: &mut Work) -> Option<ArrayVec<bool, 1000>>
    requires row { IsRow row }
    requires k { values.now.k ≡ row.k }
    requires magnitudes { All (All IsSmall) values.now.d }
{
    let block: Option<Block> = decode(values, row, work);
    block
}

// Returns whether the decoder's memory can be allocated.
fn has_memory(alloc: Global) -> bool {
    let work: Result<Work, AllocError> = Work::new(alloc);
    work.is_ok()
}

#[test]
fn turbo_words_are_called(rt: HostRuntime) {
    let first: Row = Row {
        k: 56u16,
        f1: 19u16,
        f2: 42u16,
    };
    assert!(rt; has_row(32, first));
    let Some(row) = row_of(32) else {
        return assert!(rt; false);
    };
    assert!(rt; sent_and_summed(&[false; 56], &[], row, 0, 0) == (false, 0));
    assert!(rt; has_memory(rt.alloc()));
}

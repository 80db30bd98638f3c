ghost use Rattle.std.specs.Prelude.{◌≤◌, length};

use crate::shared::{digest, squares};
use conv_code::{combine, encode, match_out, stream_index};
use cs_bits::Bits;
use std::test::Fail;
use test_support::bits_of;

// Returns a stream of a coded block as a number, most significant bit first.
fn stream_of<const N: usize>(coded: &[[bool; 3]; N], stream: usize) -> u64 {
    let mut number = 0;
    for bits in coded {
        number = number << 1 | (bits.get(stream) == Some(&true)) as u64;
    }
    number
}

// Returns the 64 rate-matched bits from index `from` as a number.
fn sent_from<const N: usize>(coded: &[[bool; 3]; N], from: u32) -> u64
    requires low { 6 ≤ N }
    requires high { N ≤ 64 }
{
    let mut number = 0;
    for i in 0..64_usize {
        number = number << 1 | match_out(coded, from as usize + i) as u64;
    }
    number
}

// Returns a coded block with only bit `k` of stream 0 set.
fn alone<const N: usize>(k: usize) -> [[bool; 3]; N] {
    let mut coded = [[false; 3]; N];
    for j in 0..N {
        coded[j] = [j == k, false, false];
    }
    coded
}

// Returns whether the three streams of a coded block, as numbers, are `numbers`.
fn has_streams<const N: usize>(coded: &[[bool; 3]; N], numbers: [u64; 3]) -> bool {
    stream_of(coded, 0) == numbers[0]
        && stream_of(coded, 1) == numbers[1]
        && stream_of(coded, 2) == numbers[2]
}

#[test]
fn the_last_bit_alone_has_the_taps_of_stream_0(rt: HostRuntime) {
    let coded = encode::<40>(&Bits::new(bits_of(1)));
    assert!(rt; stream_of(&coded, 0) == 0x6c_0000_0001);
}

// Returns whether the codeword of `word` has the given streams and, in each of `readings`, the given 64 rate-matched
// bits from an index.
fn is_coded<const N: usize>(word: u64, streams: [u64; 3], readings: [(u32, u64); 3]) -> bool
    requires low { 6 ≤ N }
    requires high { N ≤ 64 }
{
    let coded = encode::<N>(&Bits::new(bits_of(word)));
    let mut all = has_streams(&coded, streams);
    for (from, number) in readings {
        all &= sent_from(&coded, from) == number;
    }
    all
}

#[test]
fn coded_words_of_37_and_40_bits(rt: HostRuntime) {
    let streams = [0x0b_6767_559d, 0x1e_baba_9491, 0x0c_5858_7293];
    let readings = [
        (0, 0xeea7_e23a_b02b_e1fb),
        (64, 0x55b8_5d08_d913_dd4f),
        (300, 0x1742_3644_f753_f11d),
    ];
    assert!(rt; is_coded::<37>(0x1a_1a1a_2018, streams, readings));
    let streams = [0xf8_d94d_6d8f, 0xcd_e619_f282, 0xc6_bbf8_5c4c];
    let readings = [
        (0, 0xf365_d9fd_41d4_986d),
        (100, 0xb769_2f36_5d9f_d41d),
        (300, 0xd9b1_97af_90b7_692f),
    ];
    assert!(rt; is_coded::<40>(0x6c_b5f6_5ba0, streams, readings));
}

// Returns whether rate-matched bits `i` and `i + 120` are bit `k` of stream 0, and bit `i + 1` is not.
fn is_read_at(i: usize, k: usize) -> bool
    requires { i ≤ 100 }
{
    let coded = alone::<40>(k);
    match_out(&coded, i) && match_out(&coded, i + 120) && !match_out(&coded, i + 1)
}

#[test]
fn the_first_bits_that_are_read_of_40(rt: HostRuntime) {
    for (i, k) in [9, 25, 17, 1, 33, 13, 29, 21, 5, 37].iter().enumerate() {
        assert!(rt; is_read_at(i, *k), "bit {i}");
    }
}

// Returns whether `values` combine into the sums `first` at index 0, `later` at index 17, and sums with digest
// `number`.
fn has_sums<const N: usize>(values: &[i16], first: [i32; 3], later: [i32; 3], number: i64) -> bool
    requires low { 18 ≤ N }
    requires high { N ≤ 64 }
    requires count { length values.now ≤ 1920 }
{
    let sums = combine::<N>(values);
    sums[0] == first && sums[17] == later && digest(&sums) == number
}

#[test]
fn sums_by_index_of_37_and_40_bits(rt: HostRuntime) -> Result<(), Fail> {
    let values = squares(rt.alloc(), 288)?;
    assert!(rt; values.len() == 288);
    assert!(rt; has_sums::<37>(&values, [33, -174, -204], [-66, -192, 97], 360_275));
    let values = squares(rt.alloc(), 480)?;
    assert!(rt; values.len() == 480);
    assert!(rt; has_sums::<40>(&values, [-312, -97, -87], [-12, 368, -222], 946_771));
    Ok(())
}

#[test]
fn no_values_give_sums_of_0(rt: HostRuntime) {
    assert!(rt; combine::<6>(&[]) == [[0; 3]; 6]);
}

#[test]
fn the_first_indices_of_a_stream_of_40(rt: HostRuntime) {
    let indices = [9, 25, 17, 1, 33, 13, 29, 21, 5, 37];
    for p in 0..10_usize {
        assert!(rt; stream_index(40, p) == indices[p], "index {p}");
    }
}

// Expected: the columns of TS 36.212 table 5.1.4-2, read in order without the nulls.
#[test]
fn indices_of_long_streams(rt: HostRuntime) {
    for (p, index) in [(0, 20), (1, 52), (5, 180), (393, 786), (786, 785)] {
        assert!(rt; stream_index(787, p) == index, "index {p}");
    }
    for (p, index) in [(0, 1), (1, 33), (400, 0), (799, 798)] {
        assert!(rt; stream_index(800, p) == index, "index {p}");
    }
}

ghost use Rattle.std.specs.Prelude.{◌≡◌, ◌+◌, ◌<◌, ◌≤◌};
ghost use Rattle.turbo_code.specs.Table.{IsAnyRow, IsAnySize, IsRow, IsSize};
ghost use Rattle.turbo_code.specs.Reading.{start};

use crate::shared::{digest, number_of, squares};
use std::alloc::{AllocError, Global};
use std::test::Fail;
use test_support::bits_of;
use turbo_code::{Coded, Row, combine, encode, further_row_of, interleaver, match_out, row_of};

// Returns whether the interleaver table's row for a transport block size has the given numbers.
fn has_row(size: u16, k: u16, f1: u16, f2: u16) -> bool {
    row_of(size) == Some(Row { k, f1, f2 })
}

#[test]
fn rows_of_sizes(rt: HostRuntime) {
    assert!(rt; has_row(32, 56, 19, 42));
    assert!(rt; has_row(1000, 1024, 31, 64));
    for size in [40, 0, 65_535] {
        assert!(rt; row_of(size) == None, "size {size}");
    }
}

// K, f1 and f2 for the DCI format 1C sizes that are not in the first table (TS 36.212 table 5.1.3-3).
const FURTHER_ROWS: [(u16, u16, u16); 4] = [
    (64, 7, 16),
    (160, 21, 120),
    (304, 37, 76),
    (360, 133, 90),
];

// Returns whether the row with `k`, `f1` and `f2` is the further row for `size`, is a permutation, and is not in the
// first table.
fn is_further(size: u16, k: u16, f1: u16, f2: u16) -> bool {
    match further_row_of(size) {
        Some(row) => row == Row { k, f1, f2 } && permutes(&row) && row_of(size) == None,
        None => false,
    }
}

#[test]
fn further_rows_of_sizes(rt: HostRuntime) {
    for (k, f1, f2) in FURTHER_ROWS {
        assert!(rt; is_further(k - 24, k, f1, f2), "K {k}");
    }
    for size in [32, 0, 41, 1000, 65_535] {
        assert!(rt; further_row_of(size) == None, "size {size}");
    }
}

// Returns whether a row's interleaver is a permutation.
fn permutes(row: &Row) -> bool
    requires { IsAnyRow row.now }
{
    let mut seen = [false; 1024];
    for i in 0..row.k {
        match seen.get_mut(interleaver(row, i as usize)) {
            Some(place) if !*place => *place = true,
            _ => return false,
        }
    }
    true
}

// Returns whether the row for block size `k` has `f1` and `f2`, and is a permutation.
fn is_sound(k: u16, f1: u16, f2: u16) -> bool {
    match row_of(k.saturating_sub(24)) {
        Some(row) => row == Row { k, f1, f2 } && permutes(&row),
        None => false,
    }
}

// K, f1 and f2 for the sizes in use (TS 36.212 table 5.1.3-3).
const ROWS: [(u16, u16, u16); 31] = [
    (56, 19, 42),
    (80, 11, 20),
    (96, 11, 24),
    (112, 41, 84),
    (128, 15, 32),
    (144, 17, 108),
    (168, 101, 84),
    (200, 13, 50),
    (232, 85, 58),
    (248, 33, 62),
    (280, 103, 210),
    (320, 21, 120),
    (352, 21, 44),
    (400, 151, 40),
    (416, 25, 52),
    (464, 247, 58),
    (480, 89, 180),
    (512, 31, 64),
    (528, 17, 66),
    (576, 65, 96),
    (608, 37, 76),
    (624, 41, 234),
    (656, 185, 82),
    (704, 155, 44),
    (720, 79, 120),
    (768, 217, 48),
    (800, 17, 80),
    (864, 17, 48),
    (928, 15, 58),
    (992, 65, 124),
    (1024, 31, 64),
];

#[test]
fn each_row_permutes(rt: HostRuntime) {
    for (k, f1, f2) in ROWS {
        assert!(rt; is_sound(k, f1, f2));
    }
}

// Returns the 64 rate-matched bits from index `from` as a number.
fn sent_from(coded: &Coded, rv: u8, from: u16) -> u64
    requires size { IsAnySize coded.now.k }
    requires version { rv < 4 }
    requires from { from ≤ 5000 }
{
    let mut number = 0;
    for i in 0..64_usize {
        number = number << 1 | match_out(coded, rv, from as usize + i) as u64;
    }
    number
}

// Returns the first 60 bits of a stream as a number.
fn front_of(stream: &[bool; 1028]) -> u64 {
    number_of(&stream[..60])
}

// Returns whether K is 56, and the streams' first 60 bits, as numbers, are `numbers`.
fn has_streams(coded: &Coded, numbers: [u64; 3]) -> bool {
    coded.k == 56
        && front_of(&coded.d[0]) == numbers[0]
        && front_of(&coded.d[1]) == numbers[1]
        && front_of(&coded.d[2]) == numbers[2]
}

#[test]
fn coded_word_of_56_bits(rt: HostRuntime) {
    let Some(row) = row_of(32) else {
        return assert!(rt; false);
    };
    let word: [bool; 56] = bits_of(0x12_3456_789a_bcde);
    let coded = encode(&word, row);
    let streams = [
        0x123_4567_89ab_cded,
        0x1db_23f9_fced_8271,
        0x25d_8754_5059_1269,
    ];
    assert!(rt; has_streams(&coded, streams));
    for (rv, from, number) in [
        (0, 0, 0x5551_e1cc_ccc0_7fe5),
        (1, 0, 0x0ffc_bf49_3b39_7e0e),
        (2, 180, 0x97e0_ed18_2ad9_4810),
        (3, 180, 0x5204_1b71_1d6a_aa8f),
        (2, 1160, 0x75aa_aa3c_3999_980f),
    ] {
        assert!(rt;
            sent_from(&coded, rv, from) == number,
            "version {rv} from {from}"
        );
    }
}

// The streams and rate-matched bits for the 64-bit block 0123456789abcdef, from the encoder in
// python/lte_reference/turbo.py and the matrix in TS 36.212 section 5.1.4.1.1.
#[test]
fn coded_word_of_64_bits(rt: HostRuntime) {
    let Some(row) = further_row_of(40) else {
        return assert!(rt; false);
    };
    let word: [bool; 64] = bits_of(0x0123_4567_89ab_cdef);
    let coded = encode(&word, row);
    assert!(rt; coded.k == 64);
    assert!(rt; front_of(&coded.d[0]) == 0x12_3456_789a_bcde);
    assert!(rt; front_of(&coded.d[1]) == 0x1d_b23f_9fce_d827);
    assert!(rt; front_of(&coded.d[2]) == 0x469_4858_b2c8_c78b);
    for (rv, from, number) in [
        (0, 0, 0x5558_7f84_ccf3_fe01),
        (1, 0, 0xf00b_a7cd_41b6_1d0e),
        (2, 204, 0xe876_b921_809a_ac4f),
        (3, 5000, 0xe017_4f9a_836c_3a1d),
    ] {
        assert!(rt;
            sent_from(&coded, rv, from) == number,
            "version {rv} from {from}"
        );
    }
}

// Returns the indices of the first four bits that the second constituent encoder reads.
fn first_read(row: &Row) -> Option<[usize; 4]>
    requires { IsRow row.now }
{
    if row.k < 4 {
        return None;
    }
    Some([
        interleaver(row, 0),
        interleaver(row, 1),
        interleaver(row, 2),
        interleaver(row, 3),
    ])
}

#[test]
fn the_first_bits_of_the_second_encoder_of_144(rt: HostRuntime) {
    let Some(row) = row_of(120) else {
        return assert!(rt; false);
    };
    assert!(rt; row.k == 144 && first_read(&row) == Some([0, 125, 34, 15]));
}

// A law: the start index in the circular buffer for K = 144, by redundancy version.
fn starts_of_144()
    ensures { (start 144 0 ≡ 10) × (start 144 1 ≡ 130) × (start 144 2 ≡ 250) × (start 144 3 ≡ 370) }
{}

// Returns a coded block with only one bit set.
fn alone(row: Row, stream: usize, index: usize) -> Coded
    requires { IsRow row }
    ensures k { result.k ≡ row.k }
    ensures size { IsSize result.k }
{
    let mut d = [[false; 1028]; 3];
    for t in 0..3 {
        for k in 0..1028 {
            d[t][k] = t == stream && k == index;
        }
    }
    Coded { k: row.k, d }
}

// Returns whether rate-matched bits `i` and `i + 444` are the stream's bit at `index`, and bit `i + 1` is not. `i` is
// at most 100.
fn is_sent(row: Row, rv: u8, i: usize, stream: usize, index: usize) -> bool
    requires { IsRow row }
{
    if rv > 3 || i > 100 {
        return false;
    }
    let coded = alone(row, stream, index);
    match_out(&coded, rv, i) && match_out(&coded, rv, i + 444) && !match_out(&coded, rv, i + 1)
}

#[test]
fn first_bits_that_are_sent_of_144(rt: HostRuntime) {
    let Some(row) = row_of(120) else {
        return assert!(rt; false);
    };
    starts_of_144();
    for (rv, i, stream, index) in [
        (0, 0, 0, 28),
        (0, 1, 0, 60),
        (0, 2, 0, 92),
        (0, 3, 0, 124),
        (0, 4, 0, 12),
        (1, 0, 0, 31),
        (2, 0, 1, 6),
        (2, 1, 2, 7),
        (3, 0, 1, 9),
        (3, 1, 2, 10),
    ] {
        assert!(rt;
            is_sent(row, rv, i, stream, index),
            "bit {i} of version {rv}"
        );
    }
}

// Returns the digest of the combined sums for 1,224 soft values at K = 56.
fn digest_of(alloc: Global, rv: u8) -> Result<i64, AllocError>
    requires { rv < 4 }
{
    let values = squares(alloc, 1224)?;
    let Some(row) = row_of(32) else {
        return Ok(0);
    };
    if values.len() > 1224 {
        return Ok(0);
    }
    Ok(digest(&combine(&values, row, rv).d))
}

// Returns the digest of the combined sums for 5,760 soft values, 32 rounds of the circular buffer at K = 56.
fn digest_of_many(alloc: Global, row: Row, rv: u8) -> Result<i64, AllocError>
    requires row { IsAnyRow row }
    requires version { rv < 4 }
{
    let values = squares(alloc, 5760)?;
    if values.len() > 5760 {
        return Ok(0);
    }
    Ok(digest(&combine(&values, row, rv).d))
}

// Returns the digest of the combined sums for a block size in either table, and 0 for any other size.
fn digest_of_size(alloc: Global, size: u16, rv: u8) -> Result<i64, AllocError>
    requires version { rv < 4 }
{
    if let Some(row) = row_of(size) {
        return digest_of_many(alloc, row, rv);
    }
    match further_row_of(size) {
        Some(row) => digest_of_many(alloc, row, rv),
        None => Ok(0),
    }
}

#[test]
fn sums_of_5760_values(rt: HostRuntime) -> Result<(), Fail> {
    assert!(rt; digest_of_size(rt.alloc(), 32, 0)? == 593_265);
    assert!(rt; digest_of_size(rt.alloc(), 32, 2)? == 265_892);
    assert!(rt; digest_of_size(rt.alloc(), 336, 0)? == 571_865);
    assert!(rt; digest_of_size(rt.alloc(), 336, 2)? == 539_614);
    Ok(())
}

#[test]
fn sums_by_coded_bit(rt: HostRuntime) -> Result<(), Fail> {
    assert!(rt; digest_of(rt.alloc(), 0)? == 48_559);
    assert!(rt; digest_of(rt.alloc(), 3)? == 674_432);
    Ok(())
}

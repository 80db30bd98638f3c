ghost use Rattle.std.specs.Prelude.{◌≤◌};

use cs_bits::crc24a;
use erasure::fills;
use std::test::Fail;
use turbo_code::row_of;

// Returns bit `i` of a test block; kind 0 is all zeros.
fn block_bit(kind: usize, i: usize) -> bool
    requires kind { kind ≤ 9 }
    requires place { i ≤ 1000 }
{
    kind > 0 && (i * i * 7 + i * kind + i / 8 + kind) % 5 < 2
}

// Returns whether `sent` coded bits determine a test block of `size` bits with its CRC; `None` if the size is not in
// the table.
fn is_filled(size: u16, kind: usize, sent: u16) -> Option<bool>
    requires size { size ≤ 1000 }
    requires kind { kind ≤ 9 }
    requires sent { sent ≤ 1224 }
{
    let row = row_of(size)?;
    let n = size as usize;
    let mut word = [false; 1024];
    for i in 0..n {
        word[i] = block_bit(kind, i);
    }
    let check = crc24a(&word[..n]);
    for j in 0..24 {
        word[n + j] = check >> (23 - j) & 1 == 1;
    }
    Some(fills(&word[..n + 24], row, sent))
}

// Returns whether `sent` is the minimum number of coded bits that determine a test block. Expected values:
// `python/lte_reference/erasure.py`.
fn is_least(size: u16, kind: usize, sent: u16) -> bool
    requires size { size ≤ 1000 }
    requires kind { kind ≤ 9 }
    requires low { 1 ≤ sent }
    requires high { sent ≤ 1224 }
{
    is_filled(size, kind, sent) == Some(true) && is_filled(size, kind, sent - 1) == Some(false)
}

#[test]
fn short_blocks_fill_from_a_count_on(rt: HostRuntime) {
    for kind in 1..4 {
        assert!(rt; is_least(32, kind, 75));
        assert!(rt; is_least(176, kind, 299));
    }
}

#[test]
fn block_of_392_bits_fills_from_a_count_on(rt: HostRuntime) {
    assert!(rt; is_least(392, 1, 630));
}

#[test]
fn block_of_584_bits_fills_from_a_count_on(rt: HostRuntime) {
    assert!(rt; is_least(584, 2, 924));
}

#[test]
fn block_of_776_bits_fills_from_a_count_on(rt: HostRuntime) {
    assert!(rt; is_least(776, 3, 1217));
}

// An all-zero hard decision passes the CRC in every iteration, so the all-zero block must be settled in the first one.
#[test]
fn block_of_zeros_fills_in_the_first_iteration_or_never(rt: HostRuntime) {
    for (size, sent) in [(32, 98), (176, 348), (392, 744), (584, 1088), (632, 1165)] {
        assert!(rt; is_least(size, 0, sent));
    }
    assert!(rt; is_filled(776, 0, 1224) == Some(false));
}

#[test]
fn longer_blocks_do_not_fill(rt: HostRuntime) {
    for (size, kind) in [(840, 1), (904, 0), (968, 0), (1000, 0)] {
        assert!(rt; is_filled(size, kind, 1224) == Some(false), "{size} bits");
    }
}

#[test]
fn nothing_sent_and_everything_sent(rt: HostRuntime) {
    for (size, kind, sent, answer) in [
        (376, 0, 0, Some(false)),
        (376, 0, 1212, Some(true)),
        (376, 1, 1212, Some(true)),
        (377, 1, 1212, None),
    ] {
        assert!(rt;
            is_filled(size, kind, sent) == answer,
            "{sent} of {size} bits"
        );
    }
}

ghost use Rattle.std.specs.Prelude.{◌≤◌};

use lte_types::{Mnc, Plmn, SiMessage, Sib1, Sib1Reason};
use sib1::{read, write};
use std::test::Fail;
use test_support::{message, plain_block};
use uper::Writer;

// The plain cell's SIB1, as sent.
const BYTES: [u8; 15] = [
    0x40, 0x40, 0x04, 0x03, 0x00, 0x01, 0x00, 0x00, 0x00, 0x18, 0x00, 0x00, 0x00, 0x00, 0x00,
];

// Returns bit `place`, most significant first, or false after the last byte.
fn bit_of(bytes: &[u8], place: usize) -> bool {
    match bytes.get(place / 8) {
        Some(byte) => *byte >> (7 - place % 8) & 1 == 1,
        None => false,
    }
}

// Returns the first `N` bits of `bytes`.
fn block_of<const N: usize>(bytes: &[u8]) -> [bool; N] {
    let mut bits = [false; N];
    for i in 0..N {
        bits[i] = bit_of(bytes, i);
    }
    bits
}

// Returns whether the encoded fields are the first `size` bits of `block`.
fn is_written(fields: &Sib1, block: &[bool], size: usize) -> bool {
    let mut out = Writer::new();
    fields.valid()
        && !fields.extended
        && write(fields, &mut out)
        && block.get(..size) == Some(out.bits())
}

// Returns the bit length of the encoded fields.
fn size_of(fields: &Sib1) -> Option<usize> {
    let mut out = Writer::new();
    if fields.valid() && !fields.extended && write(fields, &mut out) {
        Some(out.bits().len())
    } else {
        None
    }
}

#[test]
fn the_plain_block_has_113_bits(rt: HostRuntime) {
    let block: [bool; 120] = block_of(&BYTES);
    assert!(rt; is_written(&plain_block(), &block, 113));
}

#[test]
fn a_block_of_120_bits_is_read(rt: HostRuntime) -> Result<(), Fail> {
    let block: [bool; 120] = block_of(&BYTES);
    let fields = read(&block).ok().ok_or("the block is read")?;
    assert!(rt; fields == plain_block());
    Ok(())
}

// Returns whether the first `count` bits of the plain SIB1, with its first two bytes replaced by `front`, are refused
// for `reason`.
fn is_refused(count: usize, front: [u8; 2], reason: Sib1Reason) -> bool
    requires { count ≤ 120 }
{
    let mut bytes = BYTES;
    bytes[0] = front[0];
    bytes[1] = front[1];
    let block: [bool; 120] = block_of(&bytes);
    match read(&block[..count]) {
        Ok(_) => false,
        Err(found) => found == reason,
    }
}

#[test]
fn refusals(rt: HostRuntime) {
    for (count, front, reason) in [
        (0, [0x40, 0x40], Sib1Reason::NotSib1),
        (1, [0x40, 0x40], Sib1Reason::NotSib1),
        (2, [0x40, 0x40], Sib1Reason::BadFields(2)),
        (32, [0x40, 0x40], Sib1Reason::BadFields(32)),
        // Bit 9 is 0.
        (120, [0x40, 0x00], Sib1Reason::BadFields(9)),
        // Bits 10, 12 and 13 are 1.
        (120, [0x40, 0x6c], Sib1Reason::BadFields(10)),
        // Bit 1 is 0.
        (120, [0x00, 0x6c], Sib1Reason::NotSib1),
    ] {
        assert!(rt; is_refused(count, front, reason), "the first {count} bits");
    }
}

#[test]
fn five_further_networks_take_11_bits_each(rt: HostRuntime) {
    let mut fields = plain_block();
    for _ in 0..5_u32 {
        fields.plmns.push(Plmn {
            mcc: None,
            mnc: Mnc::Two([0, 2]),
            reserved: false,
        });
    }
    assert!(rt; size_of(&fields) == Some(168));
}

// Returns a scheduling entry with SIB code `code`, `count` times.
fn repeated(period: u8, code: u8, count: u32) -> SiMessage {
    let mut entry = message(period, &[]);
    for _ in 0..count {
        entry.sibs.push(code);
    }
    entry
}

#[test]
fn a_usual_block_has_163_bits(rt: HostRuntime) {
    let mut fields = plain_block();
    fields.p_max = Some(23);
    for count in 1..4_u32 {
        fields.scheduling.push(repeated(0, 0, (count + 1) / 2));
    }
    assert!(rt; size_of(&fields) == Some(163));
}

#[test]
fn a_text_of_more_than_1000_bits_is_not_written(rt: HostRuntime) {
    let mut fields = plain_block();
    for _ in 0..3_u32 {
        fields.scheduling.push(repeated(6, 79, 31));
    }
    assert!(rt; size_of(&fields) == Some(881));
    fields.scheduling.push(repeated(6, 79, 14));
    assert!(rt; size_of(&fields) == None);
}

// A SIB1 of 205 bits with every optional part except an extension: two networks, the second without a country code, and
// two scheduling entries with short and long codes. The bits are from the reference implementation.
const FULL: [u8; 26] = [
    0x74, 0xcc, 0x42, 0x82, 0x10, 0x98, 0x34, 0x56, 0x15, 0x79, 0xbd, 0xee, 0xd2, 0xd2, 0xd2, 0xc9,
    0xe0, 0x7e, 0x12, 0x20, 0x5f, 0xe1, 0x3e, 0x03, 0x46, 0xf8,
];

// Returns `FULL` as a block of 208 bits.
fn full_block() -> [bool; 208] {
    block_of(&FULL)
}

// Returns whether the tracking area, cell and subscriber group fields are those of `FULL`.
fn has_identities_of_full(fields: &Sib1) -> bool {
    fields.tac == 0x1a2b
        && fields.cell == 0x0abcdef
        && fields.barred
        && !fields.intra
        && fields.csg
        && fields.csg_identity == Some(0x5a5a5a5)
}

// Returns whether the levels, the band and the remaining numbers are those of `FULL`.
fn has_levels_of_full(fields: &Sib1) -> bool {
    fields.q_rx == -61
        && fields.q_offset == Some(8)
        && fields.p_max == Some(-30)
        && fields.band == 64
        && fields.tdd == Some((6, 8))
        && fields.window == 6
        && fields.tag == 31
        && !fields.extended
}

// Returns whether the networks are those of `FULL`.
fn has_networks_of_full(fields: &Sib1) -> bool {
    match fields.plmns.slice() {
        [first, second] => {
            first.mcc == Some([3, 1, 0])
                && first.mnc == Mnc::Three([4, 1, 0])
                && !first.reserved
                && second.mcc == None
                && second.mnc == Mnc::Two([2, 6])
                && second.reserved
        }
        _ => false,
    }
}

// Returns whether the scheduling entries are those of `FULL`.
fn has_entries_of_full(fields: &Sib1) -> bool {
    match fields.scheduling.slice() {
        [early, late] => {
            early.period == 1
                && early.sibs.slice() == [0_u8, 79].as_slice()
                && late.period == 6
                && late.sibs.slice() == [15_u8, 16].as_slice()
        }
        _ => false,
    }
}

#[test]
fn all_that_may_be_there_is_read_and_written(rt: HostRuntime) -> Result<(), Fail> {
    let block = full_block();
    let fields = read(&block).ok().ok_or("the block is read")?;
    assert!(rt; has_identities_of_full(&fields));
    assert!(rt; has_levels_of_full(&fields));
    assert!(rt; has_networks_of_full(&fields));
    assert!(rt; has_entries_of_full(&fields));
    assert!(rt; is_written(&fields, &block, 205));
    Ok(())
}

#[test]
fn an_extension_is_reported_and_not_read(rt: HostRuntime) -> Result<(), Fail> {
    let mut block = full_block();
    block[4] = true;
    let fields = read(&block).ok().ok_or("the block is read")?;
    assert!(rt; fields.extended);
    assert!(rt; fields.tag == 31);
    Ok(())
}

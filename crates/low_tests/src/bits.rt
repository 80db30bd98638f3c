use cs_bits::{Bits, crc16, crc24a, disagreement_of, number_of, put_number};
use std::alloc::{AllocError, Global};
use std::test::Fail;

// Returns whether a word has the bits 1, 0, 0.
fn is_100(word: &Bits<3>) -> bool {
    word.get(0)
        && !word.get(2)
        && word.slice().len() == 3
        && *word == Bits::new([true, false, false])
        && *word != Bits::new([true, false, true])
}

#[test]
fn a_word_keeps_its_bits(rt: HostRuntime) {
    assert!(rt; is_100(&Bits::new([true, false, false])));
}

// Returns whether a word's six bits are the number 38.
fn is_38(word: &Bits<6>) -> bool {
    *word == Bits::new([true, false, false, true, true, false])
        && word.field(0, 6) == 38
        && word.field(3, 2) == 3
}

#[test]
fn a_word_and_its_number(rt: HostRuntime) {
    assert!(rt; is_38(&Bits::of_number(38)));
}

// Returns whether a 37-bit word ends in 0, 1.
fn ends_in_01(word: &Bits<37>) -> bool {
    word.get(36) && !word.get(35) && word.slice().len() == 37
}

#[test]
fn a_word_of_37_bits(rt: HostRuntime) {
    let mut bits = [false; 37];
    bits[36] = true;
    assert!(rt; ends_in_01(&Bits::new(bits)));
}

#[test]
fn the_first_bit_is_the_highest(rt: HostRuntime) {
    assert!(rt; number_of(&[]) == 0);
    assert!(rt; number_of(&[true, false, false, true, false]) == 18);
    assert!(rt; number_of(&[true; 64]) == u64::MAX);
}

#[test]
fn a_number_is_written_from_its_highest_bit(rt: HostRuntime) {
    let mut bits = [true; 5];
    put_number(18, &mut bits);
    assert!(rt; bits == [true, false, false, true, false]);
    put_number(33, &mut bits[1..3]);
    assert!(rt; bits == [true, false, true, true, false]);
}

#[test]
fn a_value_speaks_against_one_bit(rt: HostRuntime) {
    for (value, bit, disagreement) in [
        (5, true, 5),
        (5, false, 0),
        (-3, true, 0),
        (-3, false, 3),
        (0, true, 0),
        (0, false, 0),
        (i32::MIN, false, 2_147_483_648),
    ] {
        assert!(rt; disagreement_of(value, bit) == disagreement);
    }
}

fn high_bits_first(alloc: Global, bytes: &[u8]) -> Result<Vec<bool>, AllocError> {
    let mut bits = Vec::new(alloc);
    for byte in bytes {
        for k in 0..8_u32 {
            bits.push(*byte >> (7 - k) & 1 == 1)?;
        }
    }
    Ok(bits)
}

// Returns whether `of_16` and `of_24` are the CRC-16 and the CRC-24A of `bits`.
fn has_remainders(bits: &[bool], of_16: u16, of_24: u32) -> bool {
    crc16(bits) == of_16 && crc24a(bits) == of_24
}

#[test]
fn remainders_of_short_messages(rt: HostRuntime) {
    assert!(rt; crc16(&[]) == 0);
    assert!(rt; has_remainders(&[true], 0x1021, 0x86_4cfb));
    assert!(rt; crc16(&[true, true]) == 0x3063);
    assert!(rt; crc24a(&[false, false, true]) == 0x86_4cfb);
    assert!(rt; crc24a(&[true, false, true, true, false, false, true]) == 0xfb_2099);
}

#[test]
fn masks_of_a_master_block(rt: HostRuntime) -> Result<(), Fail> {
    let bits = high_bits_first(rt.alloc(), &[0x08, 0x00, 0x00])?;
    let check = crc16(&bits);
    assert!(rt; check ^ 0xffff == 0x565e);
    assert!(rt; check ^ 0x5555 == 0xfcf4);
    Ok(())
}

#[test]
fn remainders_of_bytes(rt: HostRuntime) -> Result<(), Fail> {
    for (bytes, of_16, of_24) in [
        (b"123456789".as_slice(), 0x31c3, 0xcd_e703),
        (b"\x08\x00\x00".as_slice(), 0xa9a1, 0x8b_a859),
        (
            b"\x00\x01\x02\x03\x04\x05\x06\x07\x08\x09\x0a\x0b\x0c\x0d\x0e\x0f".as_slice(),
            0x513d,
            0x8f_a5a2,
        ),
    ] {
        let bits = high_bits_first(rt.alloc(), bytes)?;
        assert!(rt; has_remainders(&bits, of_16, of_24));
    }
    Ok(())
}

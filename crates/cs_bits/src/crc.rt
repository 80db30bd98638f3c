//! The CRCs of LTE, computed one bit at a time.

ghost use Rattle.std.specs.Prelude.{◌≡◌, ◌<◌, ◌≤◌, ◌^◌, length};
ghost use Rattle.cs_bits.specs.Checks.{crc16_of, crc24a_of, has_check_24};
ghost use Rattle.cs_bits.specs.Register.{next};

use crate::number_of;

/// The CRC16's generator polynomial, D^16 + D^12 + D^5 + 1, without its leading term.
const GENERATOR_16: u16 = 0x1021;

/// The CRC24A's generator polynomial without its leading term: D^24 + D^23 + D^18 + D^17 + D^14 + D^11 + D^10 + D^7 +
/// D^6 + D^5 + D^4 + D^3 + D + 1.
const GENERATOR_24A: u32 = 0x86_4cfb;

/// Returns the CRC16 register after one more bit.
fn take_in_16(register: u16, bit: bool) -> u16
    ensures { result ≡ next 15 4129 register bit }
{
    let shifted = register << 1;
    if bit != (register >> 15 == 1) {
        shifted ^ GENERATOR_16
    } else {
        shifted
    }
}

/// Returns the CRC24A register after one more bit.
fn take_in_24(register: u32, bit: bool) -> u32
    requires { register < 2 ^ 24 }
    ensures value { result ≡ next 23 8801531 register bit }
    ensures fits { result < 2 ^ 24 }
{
    let shifted = (register << 1) & 0xff_ffff;
    if bit != (register >> 23 == 1) {
        shifted ^ GENERATOR_24A
    } else {
        shifted
    }
}

/// Returns the CRC16 of the message `bits`, whose first bit is the highest coefficient (TS 36.212 section 5.1.1).
pub fn crc16(bits: &[bool]) -> u16
    ensures { result ≡ crc16_of bits.now }
{
    let mut register: u16 = 0;
    for bit in bits {
        register = take_in_16(register, *bit);
    }
    register
}

/// Returns the CRC24A of the message `bits`, whose first bit is the highest coefficient (TS 36.212 section 5.1.1).
pub fn crc24a(bits: &[bool]) -> u32
    ensures value { result ≡ crc24a_of bits.now }
    ensures fits { result < 2 ^ 24 }
{
    let mut register: u32 = 0;
    for bit in bits {
        register = take_in_24(register, *bit);
    }
    register
}

/// Returns whether the last 24 bits of `word` are the CRC24A of the bits before them (TS 36.212 section 5.1.1).
pub fn has_check_24(word: &[bool]) -> bool
    requires { 24 ≤ length word.now }
    ensures { result ≡ has_check_24 word.now }
{
    let (message, check) = word.split_at(word.len() - 24);
    number_of(check) == crc24a(message) as u64
}

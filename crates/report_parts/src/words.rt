//! The words that text and JSON share.

ghost use Rattle.std.specs.Prelude.{◌≡◌, ◌+◌, ◌*◌, ◌/◌, ◌<◌, IfOk, false, length, slice_index_or, string_bytes};
ghost use Rattle.report_parts.specs.Words.{digits_word as digits_of, mnc_word as mnc_of, rule_word as rule_of};
ghost use Rattle.report_parts.specs.Words.{nibble as nibble_of, hex_word as hex_of, hex_digit as hex_digit_of};
ghost use Rattle.report_parts.specs.Words.{power_word as power_of};

use cs_bits::number_of;
use lte_types::{Carrier, Mnc};
use std::alloc::{AllocError, Global};
use std::fmt::Write;

/// Returns `digits` in decimal, in order. Fails only if an allocation fails.
pub fn digits_word(alloc: Global, digits: &[u8]) -> Result<String, AllocError>
    ensures { IfOk result (λ text. string_bytes text ≡ digits_of digits.now) }
{
    let mut text = String::new(alloc);
    for digit in digits {
        let word = format!(in alloc; "{}", *digit)?;
        text.push_str(&word)?;
    }
    Ok(text)
}

/// Returns the two or three digits of a mobile network code. Fails only if an allocation fails.
pub fn mnc_word(alloc: Global, mnc: &Mnc) -> Result<String, AllocError>
    ensures { IfOk result (λ text. string_bytes text ≡ mnc_of mnc.now) }
{
    match mnc {
        Mnc::Two(digits) => digits_word(alloc, digits),
        Mnc::Three(digits) => digits_word(alloc, digits),
    }
}

/// Returns `bits` in hexadecimal, one digit for four bits, padded with zeros to a multiple of eight bits. Fails only if
/// an allocation fails.
pub fn hex_word(alloc: Global, bits: &[bool]) -> Result<String, AllocError>
    ensures { IfOk result (λ text. string_bytes text ≡ hex_of bits.now) }
{
    let mut text = String::new(alloc);
    for i in 0..2 * ((bits.len() + 7) / 8) {
        text.push_str(hex_digit(nibble(bits, i)))?;
    }
    Ok(text)
}

// Returns the hexadecimal digit for a number up to 15, in lower case; empty for larger numbers.
fn hex_digit(number: u8) -> &'static str
    ensures { result.now ≡ hex_digit_of number }
{
    match number {
        0 => "0",
        1 => "1",
        2 => "2",
        3 => "3",
        4 => "4",
        5 => "5",
        6 => "6",
        7 => "7",
        8 => "8",
        9 => "9",
        10 => "a",
        11 => "b",
        12 => "c",
        13 => "d",
        14 => "e",
        15 => "f",
        _ => "",
    }
}

// Returns four bits from index `4 * i` as a number; bits past the end are 0.
fn nibble(bits: &[bool], i: usize) -> u8
    requires { i < 2 * ((length bits.now + 7) / 8) }
    ensures { result ≡ nibble_of bits.now i }
{
    let four = [
        bit(bits, 4 * i),
        bit(bits, 4 * i + 1),
        bit(bits, 4 * i + 2),
        bit(bits, 4 * i + 3),
    ];
    number_of(&four) as u8
}

// Returns bit `i`, or false past the end.
fn bit(bits: &[bool], i: usize) -> bool
    ensures { result ≡ slice_index_or bits.now i false }
{
    i < bits.len() && bits[i]
}

/// Returns the published name of the list rule for a transmission scheme. (own)
pub fn rule_word(rule: Carrier) -> &'static str
    ensures { result.now ≡ rule_of rule }
{
    match rule {
        Carrier::OnePort => "one-port",
        Carrier::TwoPorts => "two-ports",
        Carrier::LongPrefix => "long-prefix",
        Carrier::FourPorts => "four-ports",
    }
}

/// Returns a power as reported: at most 2^64 - 1, which no recording's power exceeds. (own)
pub fn power_word(power: u128) -> u64
    ensures { result ≡ power_of power }
{
    if power <= u64::MAX as u128 {
        power as u64
    } else {
        u64::MAX
    }
}

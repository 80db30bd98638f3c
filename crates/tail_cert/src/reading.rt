//! The parsing of a certificate.

ghost use Rattle.std.specs.Prelude.{◌≡◌, ◌+◌, ◌*◌, ◌%◌, ◌^◌, ◌<◌, ◌≤◌, ◌↔◌, ◌⊎◌, ℕ, IfSome, IfOk, IsErr, IsErrOf, IsNone, IsOk, IsTrue, List, cond, drop, length, nat_abs, take};
ghost use Rattle.std.specs.List.{flat_map};
ghost use Rattle.finite.specs.Sums.{total_below};
ghost use Rattle.tail_cert.specs.Certificate.{Counted, Held, IsRow, IsTable, IsTriple, IsWhole};
ghost use Rattle.tail_cert.specs.Form.{Breaks, IsFirstBreak, IsFirstBreakUpTo, IsLargeValue, IsOffMark, IsUnbrokenUpTo, bytes_of, count_of, entry_bytes, head_count, maybe_bytes, most_count, place_bytes, row_bytes, set_bytes, table_bytes, table_count, tells_table, value_at, value_bytes, word_bytes};
ghost use Rattle.tail_cert.specs.Stored.{AreStored, has_table, shown};

use crate::certificate::{Table, has, length_with, make_tables};
use crate::{Certificate, FRONT_BYTES, HEAD_BYTES, SET_PLACE, TABLE_BYTES};
use byteorder::{BigEndian, ByteOrder, LittleEndian};
use cs_bits::Bits;
use std::fmt;
use thiserror::Error;

/// Bytes that are not a certificate. The error reports the offset of the first byte that breaks the format, or the
/// number of bytes if they end early.
#[derive(Clone, Copy, Debug, PartialEq, Eq, Error)]
pub struct BadCertificate {
    /// The byte offset of the format error, counted from 0.
    pub place: u64,
}

impl fmt::Display for BadCertificate {
    ghost use Rattle.std.specs.Prelude.{Some};
    ghost use Rattle.tail_cert.specs.Form.{broken_text};

    ghost output = { λ broken. Some (broken_text broken.place) };

    fn fmt<W: fmt::Write>(&self, f: &mut fmt::Formatter<W>) -> fmt::Result {
        write!(f, "bad certificate at byte {}", self.place)
    }
}

const MARK: [u8; 4] = [0x4c, 0x54, 0x43, 0x32];

/// Returns whether offset `p` is in the mark and the byte there differs from it.
fn is_off_mark(bytes: &[u8], p: usize) -> bool
    ensures { IsTrue result ↔ IsOffMark bytes.now p }
{
    p < 4 && p < bytes.len() && bytes[p] != MARK[p]
}

/// Returns the soft value in the two bytes at offset `at`.
fn get_value(bytes: &[u8], at: usize) -> i32
    requires { at + 2 ≤ length bytes.now }
    ensures value { result ≡ value_at bytes.now at }
    ensures bytes { value_bytes result ≡ take 2 (drop at bytes.now) }
{
    LittleEndian::read_i16(&bytes[at..]) as i32
}

/// Returns whether a soft value above 2,032 in magnitude begins at offset `p`.
fn is_large_value(bytes: &[u8], p: usize) -> bool
    ensures { IsTrue result ↔ IsLargeValue bytes.now p }
{
    4 <= p
        && p < FRONT_BYTES
        && p % 2 == 0
        && p + 1 < bytes.len()
        && get_value(bytes, p).unsigned_abs() > 2032
}

/// Returns whether the format is broken at offset `p`, by the mark or by a soft value.
fn spoils(bytes: &[u8], p: usize) -> bool
    ensures { IsTrue result ↔ (IsOffMark bytes.now p ⊎ IsLargeValue bytes.now p) }
{
    is_off_mark(bytes, p) || is_large_value(bytes, p)
}

/// Returns the offset of the first format error, in the mark, in a soft value, or at the end if there are fewer than
/// `count` bytes; `None` if there is no error.
fn first_break(bytes: &[u8], count: usize) -> Option<usize>
    ensures some { IfSome result (λ p. IsFirstBreakUpTo count bytes.now p) }
    ensures none { IsNone result → IsUnbrokenUpTo count bytes.now }
{
    for p in 0..bytes.len().min(FRONT_BYTES) {
        if spoils(bytes, p) {
            return Some(p);
        }
    }
    if bytes.len() < count {
        Some(bytes.len())
    } else {
        None
    }
}

/// Reads the three soft values of a position from offset `at`.
fn get_place(bytes: &[u8], at: usize, values: &mut [i32; 3])
    requires room { at + 6 ≤ length bytes.now }
    requires magnitudes { (t : ℕ) → t < 3 → nat_abs (value_at bytes.now (at + 2 * t)) ≤ 2032 }
    ensures bytes { place_bytes values.new ≡ take 6 (drop at bytes.now) }
    ensures triple { IsTriple values.new }
{
    for t in 0..3 {
        values[t] = get_value(bytes, at + 2 * t);
    }
}

/// Reads the soft values of all 40 positions, which begin at offset 4.
fn get_values(bytes: &[u8], values: &mut [[i32; 3]; 40])
    requires room { 244 ≤ length bytes.now }
    requires magnitudes { (j : ℕ) → j < 120 → nat_abs (value_at bytes.now (4 + 2 * j)) ≤ 2032 }
    ensures bytes { flat_map place_bytes values.new ≡ take 240 (drop 4 bytes.now) }
    ensures places { Counted 40 IsTriple values.new }
{
    for k in 0..40 {
        get_place(bytes, 4 + 6 * k, &mut values[k]);
    }
}

/// Reads a table entry or cost, a little-endian 32-bit number, at offset `at`.
fn get_entry(bytes: &[u8], at: usize) -> u32
    requires { at + 4 ≤ length bytes.now }
    ensures { entry_bytes result ≡ take 4 (drop at bytes.now) }
{
    LittleEndian::read_u32(&bytes[at..])
}

/// Reads the 64 bounds of one step from offset `at`.
fn get_row(bytes: &[u8], at: usize, row: &mut [u32; 64])
    requires { at + 256 ≤ length bytes.now }
    ensures bytes { row_bytes row.new ≡ take 256 (drop at bytes.now) }
    ensures row { IsRow row.new }
{
    LittleEndian::read_u32_into(&bytes[at..at + 256], row);
}

/// Reads a table of bounds from offset `at`, step by step.
fn get_table(bytes: &[u8], at: usize, table: &mut Table)
    requires { at + 10240 ≤ length bytes.now }
    ensures bytes { table_bytes table.new ≡ take 10240 (drop at bytes.now) }
    ensures table { IsTable table.new }
{
    for i in 0..40 {
        get_row(bytes, at + 256 * i, &mut table[i]);
    }
}

/// Reads the set of start states that have their own tables, at offset 10,493.
fn get_set(bytes: &[u8]) -> Bits<64>
    requires { head_count ≤ length bytes.now }
    ensures states { (s : ℕ) → s < 64 → has_table result s ≡ tells_table bytes.now s }
    ensures bytes { (tables : List (List (List ℕ))) →
        set_bytes (shown result tables) ≡ take 8 (drop 10493 bytes.now) }
    ensures size { length result ≡ 64 }
{
    Bits::of_number(LittleEndian::read_u64(&bytes[SET_PLACE..]))
}

/// Returns the length in bytes of the certificate that begins with `bytes`, which include its set of start states.
fn whole_length(bytes: &[u8]) -> usize
    requires { head_count ≤ length bytes.now }
    ensures count { result ≡ count_of bytes.now }
    ensures least { head_count ≤ result }
{
    length_with(&get_set(bytes))
}

/// Reads the tables of the start states in `set` from offset `at`.
fn get_tables(bytes: &[u8], at: usize, set: &Bits<64>, tables: &mut [Table])
    requires tables { AreStored set.now tables.old }
    requires size { at + table_count * total_below 64 (λ s. cond (has_table set.now s) 1 0) ≡ length bytes.now }
    ensures bytes { flat_map maybe_bytes (shown set.now tables.new) ≡ drop at bytes.now }
    ensures tables { AreStored set.now tables.new }
{
    let mut place = at;
    for s in 0..64 {
        if has(set, s) {
            get_table(bytes, place, &mut tables[s]);
            place += TABLE_BYTES;
        }
    }
}

/// Reads the 40 bits of an information word from offset `at`.
fn get_word(bytes: &[u8], at: usize) -> Bits<40>
    requires { at + 5 ≤ length bytes.now }
    ensures bytes { word_bytes result ≡ take 5 (drop at bytes.now) }
    ensures size { length result ≡ 40 }
{
    Bits::of_number(BigEndian::read_uint(&bytes[at..], 5))
}

/// Reads a complete certificate, which has no format errors.
fn get_all(bytes: &[u8], into: &mut Certificate)
    requires unbroken { (p : ℕ) → Breaks bytes.now p → ⊥ }
    requires size { length bytes.now ≤ count_of bytes.now }
    ensures bytes { bytes.now ≡ bytes_of into.new }
    ensures whole { IsWhole into.new }
{
    get_values(bytes, &mut into.values);
    into.word = get_word(bytes, 244);
    into.cost = get_entry(bytes, 249);
    get_table(bytes, 253, &mut into.general);
    into.set = get_set(bytes);
    make_tables(&into.set, &mut into.tables);
    get_tables(bytes, HEAD_BYTES, &into.set, &mut into.tables);
}

/// Returns the length in bytes of the certificate whose first 10,501 bytes are `bytes`. Fails with the offset of the
/// first format error: a wrong mark, a soft value above 2,032 in magnitude, or an early end.
pub fn head(bytes: &[u8]) -> Result<usize, BadCertificate>
    requires { length bytes.now ≤ head_count }
    ensures ok { IfOk result (λ count. count ≡ count_of bytes.now) }
    ensures unbroken { IsOk result ↔ IsUnbrokenUpTo head_count bytes.now }
    ensures refused { (place : ℕ) →
        IsErrOf result (record { place = place }) ↔ IsFirstBreakUpTo head_count bytes.now place }
{
    match first_break(bytes, HEAD_BYTES) {
        Some(place) => Err(BadCertificate {
            place: place as u64,
        }),
        None => Ok(whole_length(bytes)),
    }
}

/// Returns the first format error's offset in a certificate, including an early end; `None` if there is no error.
fn first_break_of_whole(bytes: &[u8]) -> Option<usize>
    ensures some { IfSome result (λ p. IsFirstBreak bytes.now p) }
    ensures none { IsNone result → ((p : ℕ) → Breaks bytes.now p → ⊥) }
{
    match first_break(bytes, HEAD_BYTES) {
        Some(place) => Some(place),
        None if bytes.len() < whole_length(bytes) => Some(bytes.len()),
        None => None,
    }
}

/// Reads a certificate from `bytes`, at most 665,861 and none past its end. Fails with the offset of the first format
/// error (wrong mark, soft value above 2,032 in magnitude, early end), and then leaves `into` unchanged.
pub fn parse(bytes: &[u8], into: &mut Certificate) -> Result<(), BadCertificate>
    requires most { length bytes.now ≤ most_count }
    requires fits { IsUnbrokenUpTo head_count bytes.now → length bytes.now ≤ count_of bytes.now }
    ensures ok { IfOk result (λ _. bytes.now ≡ bytes_of into.new) }
    ensures whole { IfOk result (λ _. IsWhole into.new) }
    ensures refused { (place : ℕ) →
        IsErrOf result (record { place = place }) ↔ IsFirstBreak bytes.now place }
    ensures unchanged { IsErr result → into.new ≡ into.old }
    ensures same { (c : Held) → IsWhole c → bytes.now ≡ bytes_of c → IsOk result × (into.new ≡ c) }
{
    match first_break_of_whole(bytes) {
        Some(place) => Err(BadCertificate {
            place: place as u64,
        }),
        None => {
            get_all(bytes, into);
            Ok(())
        }
    }
}

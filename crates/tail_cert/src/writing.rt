//! The serialisation of a certificate.

ghost use Rattle.std.specs.Prelude.{◌≡◌, ℕ, ◌+◌, ◌*◌, ◌^◌, ◌<◌, ◌≤◌, Bool, List, cond, length, pos, slice_index_or};
ghost use Rattle.std.specs.List.{flat_map};
ghost use Rattle.finite.specs.Sizes.{AllWithin, RowsWithin};
ghost use Rattle.finite.specs.Sums.{total_below};
ghost use Rattle.tail_cert.specs.Certificate.{IsWhole, tables_there};
ghost use Rattle.tail_cert.specs.Form.{bytes_of, entry_bytes, head_count, mark, maybe_bytes, place_bytes, row_bytes, set_bytes, table_bytes, table_count, value_bytes, with_piece, word_bytes};
ghost use Rattle.tail_cert.specs.Stored.{HaveTables, has_table, shown};

use crate::certificate::{Table, has};
use crate::{Certificate, HEAD_BYTES, SET_PLACE, TABLE_BYTES};
use byteorder::{BigEndian, ByteOrder, LittleEndian};
use cs_bits::{Bits, number_of};

/// Writes the mark, LTC2, at the start of `out`.
fn put_mark(out: &mut [u8])
    requires { 4 ≤ length out.old }
    ensures { out.new ≡ with_piece 0 mark out.old }
{
    out[..4].copy_from_slice(b"LTC2");
}

/// Writes soft value `t`, 0 to 2, of a position at offset `at`.
fn put_value(values: &[i32; 3], t: usize, at: usize, out: &mut [u8])
    requires stream { t < 3 }
    requires magnitudes { AllWithin 2032 values.now }
    requires room { at + 2 ≤ length out.old }
    ensures bytes { out.new ≡ with_piece at (value_bytes (slice_index_or values.now t (pos 0))) out.old }
    ensures count { length (value_bytes (slice_index_or values.now t (pos 0))) ≡ 2 }
{
    LittleEndian::write_i16(&mut out[at..], values[t] as i16);
}

/// Writes the three soft values of a position from offset `at`.
fn put_place(values: &[i32; 3], at: usize, out: &mut [u8])
    requires magnitudes { AllWithin 2032 values.now }
    requires room { at + 6 ≤ length out.old }
    ensures bytes { out.new ≡ with_piece at (place_bytes values.now) out.old }
    ensures count { length (place_bytes values.now) ≡ 6 }
{
    for t in 0..3 {
        put_value(values, t, at + 2 * t, out);
    }
}

/// Writes the soft values of all 40 positions from offset `at`.
fn put_values(values: &[[i32; 3]; 40], at: usize, out: &mut [u8])
    requires magnitudes { RowsWithin 2032 values.now }
    requires room { at + 240 ≤ length out.old }
    ensures bytes { out.new ≡ with_piece at (flat_map place_bytes values.now) out.old }
    ensures count { length (flat_map place_bytes values.now) ≡ 240 }
{
    for k in 0..40 {
        put_place(&values[k], at + 6 * k, out);
    }
}

/// Writes a table entry or cost, a little-endian 32-bit number, at offset `at`.
fn put_entry(entry: u32, at: usize, out: &mut [u8])
    requires { at + 4 ≤ length out.old }
    ensures bytes { out.new ≡ with_piece at (entry_bytes entry) out.old }
    ensures count { length (entry_bytes entry) ≡ 4 }
{
    LittleEndian::write_u32(&mut out[at..], entry);
}

/// Writes the 64 bounds of one step from offset `at`.
fn put_row(row: &[u32; 64], at: usize, out: &mut [u8])
    requires { at + 256 ≤ length out.old }
    ensures bytes { out.new ≡ with_piece at (row_bytes row.now) out.old }
    ensures count { length (row_bytes row.now) ≡ 256 }
{
    LittleEndian::write_u32_into(row, &mut out[at..at + 256]);
}

/// Writes a table of bounds from offset `at`, step by step.
fn put_table(table: &Table, at: usize, out: &mut [u8])
    requires { at + 10240 ≤ length out.old }
    ensures bytes { out.new ≡ with_piece at (table_bytes table.now) out.old }
    ensures count { length (table_bytes table.now) ≡ 10240 }
{
    for i in 0..40 {
        put_row(&table[i], at + 256 * i, out);
    }
}

/// Writes the set of start states that have their own tables, 8 bytes, at offset `at`.
fn put_set(set: &Bits<64>, at: usize, out: &mut [u8])
    requires states { length set.now ≡ 64 }
    requires room { at + 8 ≤ length out.old }
    ensures bytes { (tables : List (List (List ℕ))) →
        out.new ≡ with_piece at (set_bytes (shown set.now tables)) out.old }
    ensures count { (tables : List (List (List ℕ))) → length (set_bytes (shown set.now tables)) ≡ 8 }
{
    LittleEndian::write_u64(&mut out[at..], number_of(set.slice()));
}

/// Writes the tables of the start states in `set` from offset `at`.
fn put_tables(set: &Bits<64>, tables: &[Table], at: usize, out: &mut [u8])
    requires starts { HaveTables set.now tables.now }
    requires room { at + table_count * total_below 64 (λ s. cond (has_table set.now s) 1 0) ≤ length out.old }
    ensures bytes { out.new ≡ with_piece at (flat_map maybe_bytes (shown set.now tables.now)) out.old }
    ensures count { length (flat_map maybe_bytes (shown set.now tables.now)) ≡
        table_count * total_below 64 (λ s. cond (has_table set.now s) 1 0) }
{
    let mut place = at;
    for s in 0..64 {
        if has(set, s) {
            put_table(&tables[s], place, out);
            place += TABLE_BYTES;
        }
    }
}

/// Writes the 40 bits of an information word at offset `at`.
fn put_word(word: &Bits<40>, at: usize, out: &mut [u8])
    requires { at + 5 ≤ length out.old }
    ensures bytes { out.new ≡ with_piece at (word_bytes word.now) out.old }
    ensures count { length (word_bytes word.now) ≡ 5 }
{
    BigEndian::write_uint(&mut out[at..], number_of(word.slice()), 5);
}

/// Writes a certificate's bytes to `out`, whose length is the value of `length`.
pub fn to_bytes(certificate: &Certificate, out: &mut [u8])
    requires { length out.old ≡ head_count + table_count * tables_there certificate.now.tables }
    ensures bytes { out.new ≡ bytes_of certificate.now }
    ensures whole { IsWhole certificate.now }
{
    put_mark(out);
    put_values(&certificate.values, 4, out);
    put_word(&certificate.word, 244, out);
    put_entry(certificate.cost, 249, out);
    put_table(&certificate.general, 253, out);
    put_set(&certificate.set, SET_PLACE, out);
    put_tables(&certificate.set, &certificate.tables, HEAD_BYTES, out);
}

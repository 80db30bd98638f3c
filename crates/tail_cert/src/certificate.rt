//! A certificate in memory.

ghost use Rattle.std.specs.Prelude.{◌≡◌, ◌*◌, ◌+◌, ◌++◌, ◌∷◌, [], ◌<◌, ◌≤◌, ℕ, All, IfOk, None, cond, false, length, pos, replicate, true};
ghost use Rattle.std.specs.Vec.{vec_capacity};
ghost use Rattle.finite.specs.Sums.{total_below};
ghost use Rattle.tail_cert.specs.Certificate.{Held, IsTable, of_zeros, tables_there};
ghost use Rattle.tail_cert.specs.Form.{bytes_of, head_count, table_count};
ghost use Rattle.tail_cert.specs.Stored.{AreStored, IsStored, has_table, shown};

use crate::{HEAD_BYTES, TABLE_BYTES};
use cs_bits::Bits;
use std::alloc::{AllocError, Global};
use std::marker::Model;

/// A table of lower bounds on path costs, by step, 1 to 40, and by state after the step.
pub(crate) type Table = [[u32; 64]; 40];

/// A certificate: three soft values for each of 40 positions, a 40-bit information word, its cost, a general table of
/// bounds for paths from all 64 start states, and for each start state its own table or none. Contracts see it as a
/// record of these parts. Memory for all tables is allocated, but only tables up to the last one ever used are touched.
#[derive(Drop)]
pub struct Certificate {
    pub(crate) values: [[i32; 3]; 40],
    pub(crate) word: Bits<40>,
    pub(crate) cost: u32,
    pub(crate) general: Table,
    pub(crate) set: Bits<64>,
    pub(crate) tables: Vec<Table>,
}

impl Model for Certificate {
    ghost use Rattle.std.specs.Prelude.{◌*◌, ◌≤◌};
    ghost use Rattle.std.specs.Vec.{vec_capacity};
    ghost use Rattle.tail_cert.specs.Certificate.{Held};
    ghost use Rattle.tail_cert.specs.Stored.{IsStored, shown};

    ghost Value = { Held };

    ghost view = { λ c. record {
      values = c.values;
      word = c.word;
      cost = c.cost;
      general = c.general;
      tables = shown c.set c.tables.items;
    } };

    ghost invariant = { λ c. IsStored c.values c.word c.cost c.general c.set c.tables.items
        × (64 ≤ vec_capacity c.tables) };
}

/// Returns soft values of 0 for 40 positions.
fn zero_values() -> [[i32; 3]; 40]
    ensures { result ≡ replicate 40 (replicate 3 (pos 0)) }
{
    [[0; 3]; 40]
}

/// Returns the information word of 40 zero bits.
fn zero_word() -> Bits<40>
    ensures { result ≡ replicate 40 false }
{
    Bits::new([false; 40])
}

/// Returns the empty set of start states.
fn no_states() -> Bits<64>
    ensures { result ≡ replicate 64 false }
{
    Bits::new([false; 64])
}

/// Returns a table with all bounds 0.
fn zero_table() -> Table
    ensures { result ≡ replicate 40 (replicate 64 0) }
{
    [[0; 64]; 40]
}

/// Returns whether the set of start states contains state `s`, 0 to 63.
pub(crate) fn has(set: &Bits<64>, s: usize) -> bool
    requires { s < 64 }
    ensures { result ≡ has_table set.now s }
{
    set.get(63 - s)
}

/// Returns one past the last start state in `set`, or 0 if the set is empty.
fn end_of(set: &Bits<64>) -> usize
    ensures past { (s : ℕ) → s < 64 → has_table set.now s ≡ true → s < result }
    ensures most { result ≤ 64 }
{
    let mut end = 0;
    for s in 0..64 {
        if has(set, s) {
            end = s + 1;
        }
    }
    end
}

/// Appends a table with all bounds 0 to `tables`, which has capacity for it.
fn add_table(tables: &mut Vec<Table>)
    requires room { length tables.old.items < vec_capacity tables.old }
    ensures tables { tables.new.items ≡ tables.old.items ++ replicate 40 (replicate 64 0) ∷ [] }
    ensures room { vec_capacity tables.old ≤ vec_capacity tables.new }
{
    match tables.push(zero_table()) {
        Ok(()) => {}
        Err(_) => unreachable!(),
    }
}

/// Appends tables with all bounds 0 until each start state in `set` has one. Does not allocate.
pub(crate) fn make_tables(set: &Bits<64>, tables: &mut Vec<Table>)
    requires each { All IsTable tables.old.items }
    requires most { length tables.old.items ≤ 64 }
    requires room { 64 ≤ vec_capacity tables.old }
    ensures tables { AreStored set.now tables.new.items }
    ensures room { 64 ≤ vec_capacity tables.new }
{
    let end = end_of(set);
    while tables.len() < end {
        add_table(tables);
    }
}

/// Returns the number of start states in `set`.
pub(crate) fn states_in(set: &Bits<64>) -> usize
    ensures count { result ≡ total_below 64 (λ s. cond (has_table set.now s) 1 0) }
    ensures most { result ≤ 64 }
{
    let mut count = 0;
    for s in 0..64 {
        count += has(set, s) as usize;
    }
    count
}

/// Returns the length in bytes of a certificate in which the start states in `set` have their own tables.
pub(crate) fn length_with(set: &Bits<64>) -> usize
    ensures { result ≡ head_count + table_count * total_below 64 (λ s. cond (has_table set.now s) 1 0) }
{
    HEAD_BYTES + TABLE_BYTES * states_in(set)
}

/// Returns a certificate's length in bytes: 10,501 plus 10,240 for each start state that has its own table.
pub fn length(certificate: &Certificate) -> usize
    ensures count { result ≡ head_count + table_count * tables_there certificate.now.tables }
    ensures bytes { result ≡ length (bytes_of certificate.now) }
{
    length_with(&certificate.set)
}

impl Certificate {
    /// Allocates memory for the longest certificate. All values, bits and bounds and the cost are 0, and no start state
    /// has a table. Fails only if the allocation fails.
    pub fn new(alloc: Global) -> Result<Certificate, AllocError>
        ensures { IfOk result (λ certificate. certificate ≡ of_zeros) }
    {
        let tables = Vec::with_capacity(alloc, 64)?;
        Ok(Certificate {
            values: zero_values(),
            word: zero_word(),
            cost: 0,
            general: zero_table(),
            set: no_states(),
            tables,
        })
    }
}

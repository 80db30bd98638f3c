//! QPSK symbols for scrambled bits, and the resource elements that carry them.

ghost use Rattle.std.specs.Prelude.{◌≡◌, ℕ, ◌*◌, ◌/◌, ◌%◌, ◌^◌, ◌<◌, ◌≤◌, false, if◌then◌else◌, List, All};
ghost use Rattle.std.specs.Prelude.{length, slice_index_or};
ghost use Rattle.finite.specs.Lists.{values_below};
ghost use Rattle.finite.specs.Bits.{xor};
ghost use Rattle.gold.specs.Gold.{gold_bits};
ghost use Rattle.cell_grid.specs.Points.{scrambled, point_of};
ghost use Rattle.cs_num.specs.Complex.{IsWithin, value_at};
ghost use Rattle.cell_grid.specs.Ports.{crossed_point, paired_point, in_turn, sent_point};
ghost use Rattle.cell_grid.specs.Rows.{value_in, IsTableOf};
ghost use Rattle.grid_map.specs.declared.Place.{Place};
ghost use Rattle.grid_map.specs.Place.{place};
ghost use Rattle.lte_types.specs.Numerology.{subcarriers};

use crate::Port;
use crs::point;
use cs_num::Cpx;
use grid_map::Place;
use lte_types::SUBCARRIERS;

// The maximum number of bits in a channel: those of the PDSCH over six resource blocks.
const MOST: usize = 1224;

// Returns the first 1,224 bits of the Gold sequence for `c_init`.
fn sequence_of(c_init: u32) -> [bool; MOST]
    requires { c_init < 2 ^ 31 }
    ensures { result ≡ gold_bits c_init 1224 }
{
    let mut sequence = [false; MOST];
    gold::fill(c_init, &mut sequence);
    sequence
}

// Returns bit `n` of `bits`, scrambled with bit `n` of `sequence`.
fn scrambled_at(bits: &[bool], sequence: &[bool; MOST], n: usize) -> bool
    requires few { length bits.now ≤ 1224 }
    requires n { n < length bits.now }
    ensures { result ≡ xor (slice_index_or bits.now n false) (slice_index_or sequence.now n false) }
{
    bits[n] != sequence[n]
}

/// Fills `points` with QPSK symbols, two bits each, for `bits` scrambled with the Gold sequence for `c_init` (TS
/// 36.211 sections 7.2 and 7.1.2).
pub(crate) fn fill_points(c_init: u32, bits: &[bool], points: &mut [Cpx])
    requires c_init { c_init < 2 ^ 31 }
    requires few { length bits.now ≤ 1224 }
    requires room { length bits.now ≡ 2 * length points.old }
    ensures { points.new ≡ values_below (length points.old)
        (point_of (scrambled c_init (λ i. slice_index_or bits.now i false))) }
{
    let sequence = sequence_of(c_init);
    for i in 0..points.len() {
        points[i] = point(
            scrambled_at(bits, &sequence, 2 * i),
            scrambled_at(bits, &sequence, 2 * i + 1),
        );
    }
}

// The number of resource elements in a subframe: 14 symbols with 72 subcarriers each.
const PLACES: usize = 14 * 72;

/// The index that each resource element of a subframe has in a list of resource elements (`numbers`, symbol by symbol),
/// or the list's length (`count`) if the element is not in the list.
#[derive(Drop)]
pub(crate) struct PlaceTable {
    pub count: u16,
    pub numbers: [u16; PLACES],
}

// Writes `number` for the resource element `here`, if the table has no index for this element yet. `none` marks
// elements without an index.
fn put_number(numbers: &mut [u16; PLACES], none: u16, here: Place, number: u16)
    ensures here { (c : ℕ) → c < 1008 → place (c / subcarriers) (c % subcarriers) ≡ here →
        slice_index_or numbers.old c 0 ≡ none →
        slice_index_or numbers.new c 0 ≡ number }
    ensures taken { (c : ℕ) → (slice_index_or numbers.old c 0 ≡ none → ⊥) →
        slice_index_or numbers.new c 0 ≡ slice_index_or numbers.old c 0 }
    ensures elsewhere { (c : ℕ) → (place (c / subcarriers) (c % subcarriers) ≡ here → ⊥) →
        slice_index_or numbers.new c 0 ≡ slice_index_or numbers.old c 0 }
{
    if here.symbol < 14 && here.k < 72 {
        let cell = SUBCARRIERS * here.symbol as usize + here.k as usize;
        if numbers[cell] == none {
            numbers[cell] = number;
        }
    }
}

/// Returns the table for a list of at most 612 resource elements.
pub(crate) fn table_of(places: &[Place]) -> PlaceTable
    requires { length places.now ≤ 612 }
    ensures { IsTableOf places.now result }
{
    let count = places.len() as u16;
    let mut numbers = [count; PLACES];
    for i in 0..places.len() {
        put_number(&mut numbers, count, places[i], i as u16);
    }
    PlaceTable { count, numbers }
}

// Returns the symbol that `port` transmits at index `i` in a channel (TS 36.211 section 6.3.4.3), given the channel's
// symbols `points`.
fn sent_point(port: Port, points: &[Cpx], i: usize) -> Cpx
    requires i { i < length points.now }
    requires pairs { length points.now % 2 ≡ 0 }
    requires small { All (IsWithin 90) points.now }
    ensures { result ≡ sent_point port (value_at points.now) i }
{
    match port.carrier.ports() {
        1 => points[i],
        2 => paired_point(1, port.number, points, i),
        _ => point_of_four(port.number, points, i),
    }
}

// Returns symbol `i` at one of four ports, as for a two-port cell: ports 0 and 2 transmit the even pairs, and ports 1
// and 3 the odd pairs. Other symbols are 0.
fn point_of_four(number: u8, points: &[Cpx], i: usize) -> Cpx
    requires i { i < length points.now }
    requires pairs { length points.now % 2 ≡ 0 }
    requires small { All (IsWithin 90) points.now }
    ensures { result ≡ in_turn number i (paired_point 2 number (value_at points.now) i) }
{
    if i / 2 % 2 == number as usize % 2 {
        paired_point(2, number, points, i)
    } else {
        Cpx::ZERO
    }
}

// Returns symbol `i` unchanged for ports below `half`, and otherwise from `crossed_point`.
fn paired_point(half: u8, number: u8, points: &[Cpx], i: usize) -> Cpx
    requires i { i < length points.now }
    requires pairs { length points.now % 2 ≡ 0 }
    requires small { All (IsWithin 90) points.now }
    ensures { result ≡ paired_point half number (value_at points.now) i }
{
    if number < half {
        points[i]
    } else {
        crossed_point(points, i)
    }
}

// Returns the second port's symbol `i` under transmit diversity (TS 36.211 section 6.3.4.3): `-conj(x[i + 1])` for
// even `i`, `conj(x[i - 1])` for odd `i`.
fn crossed_point(points: &[Cpx], i: usize) -> Cpx
    requires i { i < length points.now }
    requires pairs { length points.now % 2 ≡ 0 }
    requires small { All (IsWithin 90) points.now }
    ensures { result ≡ crossed_point (value_at points.now) i }
{
    if i % 2 == 0 {
        -points[i + 1].conj()
    } else {
        points[i - 1].conj()
    }
}

/// Returns the symbol that a port transmits at resource element `here`, or `None` if the channel does not occupy
/// `here`. `table` gives the channel's resource elements, and `points` its symbols in the same order.
pub(crate) fn value_at(port: Port, table: &PlaceTable, points: &[Cpx], here: Place) -> Option<Cpx>
    requires symbol { here.symbol < 14 }
    requires k { here.k < subcarriers }
    requires room { table.now.count ≤ length points.now }
    requires pairs { length points.now % 2 ≡ 0 }
    requires small { All (IsWithin 90) points.now }
    ensures { (places : List Place) → IsTableOf places table.now → result ≡ value_in port places points.now here }
{
    let number = table.numbers[SUBCARRIERS * here.symbol as usize + here.k as usize];
    if number < table.count {
        Some(sent_point(port, points, number as usize))
    } else {
        None
    }
}

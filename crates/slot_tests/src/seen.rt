//! Received slots from strings, one row of digits per symbol.

ghost use Rattle.std.specs.Prelude.{◌≡◌, ℕ, ◌^◌, ◌<◌, ◌≤◌, All};
ghost use Rattle.cs_num.specs.Complex.{IsWithin};

use cs_num::Cpx;
use lte_types::CellId;
use soft_bits::Slot;
use std::process::Abort;
use test_support::{EMPTY, Rows, level, point_of};

/// All symbols of a slot, subcarrier by subcarrier.
pub(crate) type SlotRows = [&'static [u8; 72]; 7];

// Returns the received value for a digit: 64 times the sent constellation point.
fn seen_of(digit: u8) -> Cpx
    ensures { IsWithin (2 ^ 25) result }
{
    let sent = point_of(digit);
    Cpx {
        re: 64 * sent.re,
        im: 64 * sent.im,
    }
}

// Returns an empty received symbol.
fn empty_symbol() -> [Cpx; 72]
    ensures { All (IsWithin (2 ^ 25)) result }
{
    level(seen_of(b'.'))
}

// Returns the received symbol for a row of digits.
fn symbol_of(row: &[u8; 72]) -> [Cpx; 72]
    ensures { All (IsWithin (2 ^ 25)) result }
{
    let mut seen = empty_symbol();
    for k in 0..72 {
        seen[k] = seen_of(row[k]);
    }
    seen
}

// Returns slot `number` of cell `id`, with the symbols in `rows`.
fn whole_slot_of(id: CellId, number: u8, rows: SlotRows) -> Slot
    requires { number < 20 }
    ensures number { result.number ≡ number }
    ensures identity { result.identity ≡ id }
{
    let seen = [
        symbol_of(rows[0]),
        symbol_of(rows[1]),
        symbol_of(rows[2]),
        symbol_of(rows[3]),
        symbol_of(rows[4]),
        symbol_of(rows[5]),
        symbol_of(rows[6]),
    ];
    Slot::new(seen, number, id)
}

// Returns all symbols of a slot: `rows`, then two empty symbols.
fn with_two_empty(rows: Rows) -> SlotRows {
    [rows[0], rows[1], rows[2], rows[3], rows[4], EMPTY, EMPTY]
}

/// Returns a slot with the five symbols in `rows`, and two empty symbols.
pub(crate) fn slot_of(rt: &impl Abort, identity: u16, number: u8, rows: Rows) -> Slot
    requires { number < 20 }
    ensures number { result.number ≡ number }
    ensures cell { result.identity ≡ identity }
{
    let id = CellId::new(identity).expect(rt, "in range");
    whole_slot_of(id, number, with_two_empty(rows))
}

/// Returns slots 10 and 11 of a cell. Slot 10 has the five symbols in `first` and two empty symbols; slot 11 has the
/// symbols in `second`.
pub(crate) fn subframe_of(
    rt: &impl Abort,
    identity: u16,
    first: Rows,
    second: SlotRows,
) -> (Slot, Slot)
    ensures first { result.0.number ≡ 10 }
    ensures second { result.1.number ≡ 11 }
    ensures cell { result.1.identity ≡ result.0.identity }
{
    let id = CellId::new(identity).expect(rt, "in range");
    let first = whole_slot_of(id, 10, with_two_empty(first));
    (first, whole_slot_of(id, 11, second))
}

//! PDSCH resource elements.

ghost use Rattle.std.specs.Prelude.{◌≡◌, ◌+◌, ◌*◌, ◌/◌, ◌%◌, ◌<◌, ◌≤◌, ◌&&◌, ℕ, IsTrue, length, slice_get};
ghost use Rattle.std.specs.Prelude.{nat_eq, if◌then◌else◌};
ghost use Rattle.lte_types.specs.declared.carrier.Carrier.{Carrier};
ghost use Rattle.lte_types.specs.declared.carrier.Carrier.TheVariants.{OnePort, TwoPorts, LongPrefix, FourPorts};
ghost use Rattle.lte_types.specs.Carrier.{ports_of};
ghost use Rattle.grid_map.specs.Place.{place_number, is_in_grid};
ghost use Rattle.grid_map.specs.Shared.{is_shared_of, shared_places_of, shared_place_of, block_places_of};
ghost use Rattle.grid_map.specs.Shared.{slot_symbols, pilots_of_block, block_room};
ghost use Rattle.grid_map.specs.Steps.{offset};
ghost use Rattle.grid_map.specs.Order.{AreInOrder};
ghost use Rattle.lte_types.specs.Numerology.{subcarriers, block_count};

use crate::{Place, skipping};
use crs::{Pattern, first_of_pattern};
use lte_types::{Assignment, Carrier, CellId, Cfi};

// Returns the number of symbols in a slot.
fn slot_symbols(carrier: Carrier) -> u8
    ensures value { result ≡ slot_symbols carrier }
    ensures bounds { (6 ≤ result) × (result ≤ 7) }
{
    carrier.prefix().symbols() as u8
}

// Returns the number of reference signals per resource block in `symbol` of a slot: 0, 2 or 4.
fn pilots_of_block(carrier: Carrier, symbol: u8) -> u8
    ensures value { result ≡ pilots_of_block carrier symbol }
    ensures bound { result ≤ 4 }
{
    if symbol == 0 || symbol == Pattern::of(carrier, 0).later {
        if carrier.ports() > 1 { 4 } else { 2 }
    } else if symbol == 1 && carrier.ports() > 2 {
        4
    } else {
        0
    }
}

// Returns the number of PDSCH resource elements per resource block in a symbol after the control region.
fn block_room(carrier: Carrier, symbol: u8) -> usize
    ensures value { result ≡ block_room carrier symbol }
    ensures bound { result ≤ 12 }
{
    let symbols = slot_symbols(carrier);
    if symbol == symbols - 2 || symbol == symbols - 1 {
        0
    } else {
        12 - pilots_of_block(carrier, symbol % symbols) as usize
    }
}

// Returns the subcarrier of PDSCH resource element `n` in a symbol, relative to the first allocated subcarrier.
fn offset_in(carrier: Carrier, id: CellId, symbol: u8, n: usize) -> usize
    requires { n < subcarriers }
    ensures value { result ≡ offset carrier id symbol n }
    ensures bound { result ≤ n + n / 2 + 1 }
{
    let in_slot = symbol % slot_symbols(carrier);
    let pilots = pilots_of_block(carrier, in_slot);
    let first = first_of_pattern(Pattern::of(carrier, 0), id, in_slot) as usize;
    if pilots == 0 {
        n
    } else if pilots == 2 {
        6 * (n / 5) + skipping(n % 5, first)
    } else {
        3 * (n / 2) + skipping(n % 2, first % 3)
    }
}

/// Returns the PDSCH resource elements per resource block in subframe 5 for `cfi` 2 and 3: one port 102 and 90, two
/// ports 96 and 84, four ports 92 and 80, extended prefix 78 and 68.
pub fn block_places(carrier: Carrier, cfi: u8) -> usize
    ensures value { result ≡ block_places_of carrier cfi }
    ensures bound { result ≤ 102 }
{
    let first = if cfi == 2 { 3 } else { 4 };
    let mut places = 0;
    for symbol in first..2 * slot_symbols(carrier) {
        places += block_room(carrier, symbol);
    }
    places
}

/// A law: the values of `block_places` for each transmission scheme. The minimum is 68; for each `cfi`, one antenna
/// port with the normal prefix has the maximum.
pub fn block_places_are()
    ensures one_port { (cfi : ℕ) → block_places_of OnePort cfi ≡ (if nat_eq cfi 2 then 102 else 90) }
    ensures two_ports { (cfi : ℕ) → block_places_of TwoPorts cfi ≡ (if nat_eq cfi 2 then 96 else 84) }
    ensures long_prefix { (cfi : ℕ) → block_places_of LongPrefix cfi ≡ (if nat_eq cfi 2 then 78 else 68) }
    ensures four_ports { (cfi : ℕ) → block_places_of FourPorts cfi ≡ (if nat_eq cfi 2 then 92 else 80) }
    ensures least { (carrier : Carrier) (cfi : ℕ) → 68 ≤ block_places_of carrier cfi }
    ensures most { (carrier : Carrier) (cfi : ℕ) → block_places_of carrier cfi ≤ block_places_of OnePort cfi }
{}

/// Returns the number of PDSCH resource elements in the allocation, an even number: at most 612, and at most 576 with
/// several antenna ports.
pub fn shared_count(carrier: Carrier, assignment: &Assignment) -> usize
    ensures value { result ≡ block_places_of carrier assignment.now.cfi * assignment.now.blocks }
    ensures whole { (identity : ℕ) →
        length (shared_places_of carrier identity assignment.now.cfi assignment.now.start assignment.now.blocks)
        ≡ result }
    ensures bound { result ≤ 612 }
    ensures of_several { 1 < ports_of carrier → result ≤ 576 }
    ensures even { result % 2 ≡ 0 }
{
    block_places(carrier, assignment.cfi().value()) * assignment.blocks() as usize
}

/// Returns the resource element for PDSCH modulation symbol `i` in subframe 5: symbol by symbol, without
/// synchronisation symbols and reference signals (TS 36.211 sections 6.4 and 6.10.1.2). `i` is below `shared_count`.
pub fn shared_place(carrier: Carrier, id: CellId, assignment: &Assignment, i: usize) -> Place
    requires { i < block_places_of carrier assignment.now.cfi * assignment.now.blocks }
    ensures item { slice_get
        (shared_places_of carrier id assignment.now.cfi assignment.now.start assignment.now.blocks) i ≡ Some result }
    ensures place { result
        ≡ shared_place_of carrier id assignment.now.cfi assignment.now.start assignment.now.blocks i }
    ensures carries { IsTrue
        (is_shared_of carrier id assignment.now.cfi assignment.now.start assignment.now.blocks result) }
    ensures symbol { (assignment.now.cfi < result.symbol) × (result.symbol ≤ 13) }
    ensures k { result.k < subcarriers }
{
    let start = assignment.start();
    let blocks = assignment.blocks();
    let mut left = i;
    for symbol in assignment.cfi().value() + 1..2 * slot_symbols(carrier) {
        let room = block_room(carrier, symbol) * blocks as usize;
        if left < room {
            let k = 12 * start as usize + offset_in(carrier, id, symbol, left);
            return Place { symbol, k: k as u8 };
        }
        left -= room;
    }
    unreachable!()
}

/// Returns the resource element for PDSCH modulation symbol `i` with one antenna port, over `blocks` resource blocks
/// from `start`. `cfi` is 2 or 3, `blocks` at least 1 and `start` + `blocks` at most 6.
pub fn pdsch(id: CellId, cfi: Cfi, start: u8, blocks: u8, i: usize) -> Place
    requires cfi { 2 ≤ cfi }
    requires some { 1 ≤ blocks }
    requires assignment { start + blocks ≤ block_count }
    requires point { i < block_places_of OnePort cfi * blocks }
    ensures item { slice_get (shared_places_of OnePort id cfi start blocks) i ≡ Some result }
    ensures place { result ≡ shared_place_of OnePort id cfi start blocks i }
    ensures carries { IsTrue (is_shared_of OnePort id cfi start blocks result) }
    ensures symbol { (cfi < result.symbol) × (result.symbol ≤ 13) }
    ensures k { result.k < subcarriers }
{
    match Assignment::new(cfi, start, blocks) {
        Some(assignment) => shared_place(Carrier::OnePort, id, &assignment, i),
        None => unreachable!(),
    }
}

/// A law: for `cfi` 2 and 3, the PDSCH occupies `block_places` resource elements per allocated resource block, in
/// increasing order: exactly the subframe's elements that `is_shared_of` admits.
pub fn shared_order()
    ensures { (carrier : Carrier) (identity cfi start blocks : ℕ) → 2 ≤ cfi → cfi ≤ 3 → start + blocks ≤ block_count →
        AreInOrder place_number (shared_places_of carrier identity cfi start blocks)
        (block_places_of carrier cfi * blocks) (shared_place_of carrier identity cfi start blocks)
        (λ p. is_in_grid p && is_shared_of carrier identity cfi start blocks p) }
{}

//! The resource grid of a frame, computed symbol by symbol.

ghost use Rattle.std.specs.Prelude.{ℕ, ◌≡◌, ◌⊎◌, ◌+◌, ◌*◌, ◌/◌, ◌%◌, ◌<◌, ◌≤◌, true, Some, None, All, nat_abs};
ghost use Rattle.std.specs.Prelude.{if◌then◌else◌, nat_eq};
ghost use Rattle.finite.specs.Lists.{values_below};
ghost use Rattle.cs_num.specs.Complex.{nothing};
ghost use Rattle.lte_types.specs.Numerology.{half_of, subcarriers};
ghost use Rattle.sync_seq.specs.Secondary.{sss_at};
ghost use Rattle.crs.specs.Reference.{IsPattern, pattern_list, upper_first};
ghost use Rattle.std.specs.Option.{unwrap_or};
ghost use Rattle.cell_grid.specs.declared.antenna.Port.{Port as Antenna};
ghost use Rattle.cell_grid.specs.Grid.{is_synchronised, secondary_value};
ghost use Rattle.cell_grid.specs.Ports.{port_symbols, port_slot, first_pattern, sent_signal, has_control};
ghost use Rattle.cell_grid.specs.Load.{is_signal_symbol, load_point, sent_element};
ghost use Rattle.cell_grid.specs.Block.{port_point};
ghost use Rattle.cell_grid.specs.Rows.{port_reference_if, lower_test, any_lower_test, upper_test, any_upper_test};
ghost use Rattle.cell_grid.specs.Rows.{channel_if, open_value, load_bits as bits_of_load, IsLayout, IsCarried};

use crate::Port;
use crate::block::broadcast_points;
use crate::channels::channel_at;
use crate::layout::{Carried, Layout};
use crate::load::{LOAD_BITS, load_bits};
use cell_plan::Cell;
use crs::{Pattern, first_of_upper, pattern_pilots, point};
use cs_num::Cpx;
use grid_map::Place;
use lte_types::{Carrier, CellId, SUBCARRIERS, Sfn};
use sync_seq::{MIDDLE, amplitude, is_middle};

/// One frame's channels and load at one antenna port, computed once for all symbols of the frame.
#[derive(Drop)]
pub struct Signals<'a> {
    pub cell: &'a Cell,
    pub port: Port,
    pub load: Option<u32>,
    pub sfn: Sfn,
    pub(crate) layout: &'a Layout,
    pub(crate) carried: &'a Carried,
    pub(crate) broadcast: [Cpx; 240],
    load_bits: [bool; LOAD_BITS],
    ghost layout_is: { IsLayout port cell.now layout.now },
    ghost carried_is: { has_control port ≡ true → IsCarried cell.now sfn carried.now },
    ghost broadcast_is: { broadcast ≡ values_below 240 (port_point port cell.now sfn) },
    ghost load_is: { (number : ℕ) → load ≡ Some number → load_bits ≡ bits_of_load number port sfn },
}

impl<'a> Signals<'a> {
    /// Computes the channels and the load of frame `sfn` at `port`. `layout` and `carried` must belong to the same
    /// cell, port and frame. `load` is the load's number, or `None` for no load.
    pub fn new(
        cell: &'a Cell,
        port: Port,
        load: Option<u32>,
        layout: &'a Layout,
        carried: &'a Carried,
        sfn: Sfn,
    ) -> Signals<'a>
        requires layout { IsLayout port cell.now layout.now }
        requires carried { has_control port ≡ true → IsCarried cell.now sfn carried.now }
        ensures cell { result.cell.now ≡ cell.now }
        ensures port { result.port ≡ port }
        ensures load { result.load ≡ load }
        ensures sfn { result.sfn ≡ sfn }
    {
        let broadcast = broadcast_points(cell, port, sfn);
        let load_bits = load_bits(load, port, sfn);
        Signals {
            cell,
            port,
            load,
            sfn,
            layout,
            carried,
            broadcast,
            load_bits,
        }
    }
}

// Returns the value at subcarrier `k` of a symbol that ports 0 and 1 use, or `None` outside reference positions.
// `pilots` holds port 0's twelve pilots; port 1's are three subcarriers higher.
fn reference_of(port: Port, pilots: &[(u8, Cpx); 12], k: usize) -> Option<Cpx>
    requires { k < subcarriers }
    ensures { (identity slot symbol : ℕ) → (symbol ≡ 0) ⊎ (symbol ≡ (first_pattern port).later) →
        pilots.now ≡ pattern_list (first_pattern port) identity slot symbol →
        result ≡ port_reference_if port identity slot symbol k }
{
    let first = pilots[0].0 as usize % 6;
    let zero = k % 6 == first;
    let one = k % 6 == (first + 3) % 6;
    value_or(
        lower_test(port.number, zero, one),
        any_lower_test(port.carrier, zero, one),
        pilots[k / 6].1,
    )
}

// Returns whether port `number` has a reference position, given whether port 0 (`zero`) and port 1 (`one`) have one in
// a symbol that ports 0 and 1 use.
fn lower_test(number: u8, zero: bool, one: bool) -> bool
    ensures { result ≡ lower_test number zero one }
{
    number < 2 && own_test(number, zero, one)
}

// Returns `zero` for port number 0, and otherwise `one`.
fn own_test(number: u8, zero: bool, one: bool) -> bool
    ensures { result ≡ (if nat_eq number 0 then zero else one) }
{
    if number == 0 { zero } else { one }
}

// Returns whether any port has a reference position in a symbol that ports 0 and 1 use, given whether port 0 (`zero`)
// and port 1 (`one`) have one there.
fn any_lower_test(carrier: Carrier, zero: bool, one: bool) -> bool
    ensures { result ≡ any_lower_test carrier zero one }
{
    zero || carrier.ports() > 1 && one
}

// Returns the value at subcarrier `k` of symbol 1, or `None` outside the reference positions of ports 2 and 3. `first`
// is port 2's lowest position; port 3's are three subcarriers higher.
fn upper_of(port: Port, first: usize, pilots: &[(u8, Cpx); 12], k: usize) -> Option<Cpx>
    requires first { first < 6 }
    requires k { k < subcarriers }
    ensures { (identity slot : ℕ) → first ≡ upper_first 2 identity slot →
        pilots.now ≡ pattern_list (first_pattern port) identity slot 1 →
        result ≡ port_reference_if port identity slot 1 k }
{
    let two = k % 6 == first;
    let three = k % 6 == (first + 3) % 6;
    value_or(
        upper_test(port.number, two, three),
        any_upper_test(port.carrier, two, three),
        pilots[k / 6].1,
    )
}

// Returns whether port `number` has a reference position, given whether port 2 (`two`) and port 3 (`three`) have one in
// the symbol that ports 2 and 3 use.
fn upper_test(number: u8, two: bool, three: bool) -> bool
    ensures { result ≡ upper_test number two three }
{
    number >= 2 && own_test(number % 2, two, three)
}

// Returns whether any port has a reference position in the symbol that ports 2 and 3 use, given whether port 2 (`two`)
// and port 3 (`three`) have one there.
fn any_upper_test(carrier: Carrier, two: bool, three: bool) -> bool
    ensures { result ≡ any_upper_test carrier two three }
{
    carrier.ports() > 2 && (two || three)
}

// Returns `value` at the port's own reference position, 0 at another port's, and otherwise `None`.
fn value_or(own: bool, other: bool, value: Cpx) -> Option<Cpx>
    ensures { result ≡ (if own then Some value else (if other then Some nothing else None)) }
{
    if own {
        Some(value)
    } else if other {
        Some(Cpx::ZERO)
    } else {
        None
    }
}

// Returns the reference signal pattern of port 0.
fn pattern_of(port: Port) -> Pattern
    ensures pattern { result ≡ first_pattern port }
    ensures is { IsPattern result }
{
    Pattern::of(port.carrier, 0)
}

// Returns the values at a symbol's reference positions, by subcarrier, and `None` at other subcarriers.
fn references(id: CellId, port: Port, slot: u8, symbol: u8) -> [Option<Cpx>; SUBCARRIERS]
    requires slot { slot < 20 }
    requires symbol { symbol < 7 }
    ensures { result ≡ values_below subcarriers (port_reference_if port id slot symbol) }
{
    if symbol == 1 {
        return second_row(id, port, slot);
    }
    let mut row = [None; SUBCARRIERS];
    let pattern = pattern_of(port);
    if symbol == 0 || symbol == pattern.later {
        let pilots = pattern_pilots(pattern, id, slot, symbol);
        for k in 0..SUBCARRIERS {
            row[k] = reference_of(port, &pilots, k);
        }
    }
    row
}

// Returns the values at the reference positions in symbol 1, which only ports 2 and 3 use.
fn second_row(id: CellId, port: Port, slot: u8) -> [Option<Cpx>; SUBCARRIERS]
    requires { slot < 20 }
    ensures { result ≡ values_below subcarriers (port_reference_if port id slot 1) }
{
    if port.number < 2 && port.carrier.ports() <= 2 {
        [None; SUBCARRIERS]
    } else {
        upper_row(id, port, slot)
    }
}

// Returns the values at the reference positions of ports 2 and 3 in symbol 1.
fn upper_row(id: CellId, port: Port, slot: u8) -> [Option<Cpx>; SUBCARRIERS]
    requires { slot < 20 }
    ensures { result ≡ values_below subcarriers (port_reference_if port id slot 1) }
{
    let mut row = [None; SUBCARRIERS];
    let first = first_of_upper(2, id, slot) as usize;
    let pilots = pattern_pilots(pattern_of(port), id, slot, 1);
    for k in 0..SUBCARRIERS {
        row[k] = upper_of(port, first, &pilots, k);
    }
    row
}

// Returns whether a resource element belongs to the synchronisation signal that symbol `signal` carries in subframes 0
// and 5.
fn is_signal(signal: u8, subframe: u8, symbol: u8, k: u8) -> bool
    ensures { result ≡ is_synchronised signal subframe symbol k }
{
    (subframe == 0 || subframe == 5) && symbol == signal && is_middle(k as usize)
}

// Returns element `n` of the SSS in a subframe, 1 or -1.
fn sign_of(signals: &Signals, subframe: u8, n: usize) -> i8
    requires { n < 62 }
    ensures value { result ≡ sss_at (signals.now.cell.now.identity / 3)
        (signals.now.cell.now.identity % 3) (half_of subframe) n }
    ensures magnitude { nat_abs result ≡ 1 }
{
    if subframe == 0 {
        signals.layout.zero[n]
    } else {
        signals.layout.five[n]
    }
}

// Returns the SSS value at subcarrier `k`, which must be from 5 to 66.
fn secondary_of(signals: &Signals, subframe: u8, k: u8) -> Cpx
    requires low { 5 ≤ k }
    requires high { k < 67 }
    ensures { result ≡ secondary_value signals.now.cell.now subframe k }
{
    amplitude(sign_of(signals, subframe, k as usize - MIDDLE))
}

// Returns the value of a synchronisation signal at `port`: `value` at port 0, and 0 at other ports. (own)
fn sent_signal(port: Port, value: Cpx) -> Cpx
    ensures { result ≡ sent_signal port value }
{
    if port.number == 0 { value } else { Cpx::ZERO }
}

// Returns whether a symbol carries a synchronisation signal: the last two symbols of slots 0 and 10.
fn is_signal_symbol(port: Port, subframe: u8, symbol: u8) -> bool
    ensures { result ≡ is_signal_symbol port subframe symbol }
{
    let last = port.symbols() - 1;
    (subframe == 0 || subframe == 5) && (symbol == last - 1 || symbol == last)
}

// Returns the load's QPSK symbol at a resource element, from the frame's load bits.
fn load_point(bits: &[bool; LOAD_BITS], subframe: u8, symbol: u8, k: u8) -> Cpx
    requires subframe { subframe < 10 }
    requires symbol { symbol < 14 }
    requires k { k < subcarriers }
    ensures { (load sfn : ℕ) (port : Antenna) → bits.now ≡ bits_of_load load port sfn →
        result ≡ load_point load port sfn subframe symbol k }
{
    let first = 2016 * subframe as usize + 2 * (SUBCARRIERS * symbol as usize + k as usize);
    point(bits[first], bits[first + 1])
}

// Returns the value at a resource element without reference signal and channel: load, if there is any, except in
// synchronisation signal symbols.
fn open_value(signals: &Signals, subframe: u8, symbol: u8, k: u8) -> Cpx
    requires subframe { subframe < 10 }
    requires symbol { symbol < 14 }
    requires k { k < subcarriers }
    ensures { result ≡ open_value signals.now.load signals.now.port signals.now.sfn subframe symbol k }
{
    match signals.load {
        Some(_) => {
            if is_signal_symbol(signals.port, subframe, symbol) {
                Cpx::ZERO
            } else {
                load_point(&signals.load_bits, subframe, symbol, k)
            }
        }
        None => Cpx::ZERO,
    }
}

// Returns the value at a resource element without a signal: a channel's value, or else load.
fn value_beside(signals: &Signals, subframe: u8, symbol: u8, k: u8) -> Cpx
    requires subframe { subframe < 10 }
    requires symbol { symbol < 14 }
    requires k { k < subcarriers }
    ensures { result ≡ unwrap_or
        (channel_if signals.now.port signals.now.cell.now signals.now.sfn subframe symbol k)
        (open_value signals.now.load signals.now.port signals.now.sfn subframe symbol k) }
{
    match channel_at(signals, subframe, Place { symbol, k }) {
        Some(value) => value,
        None => open_value(signals, subframe, symbol, k),
    }
}

// Returns the value that the port transmits at a resource element. `references` are the values at the symbol's
// reference positions.
fn element_of(
    signals: &Signals,
    references: &[Option<Cpx>; SUBCARRIERS],
    subframe: u8,
    symbol: u8,
    k: u8,
) -> Cpx
    requires references { references.now ≡ values_below subcarriers
        (port_reference_if signals.now.port signals.now.cell.now.identity
        (port_slot signals.now.port subframe symbol) (symbol % port_symbols signals.now.port)) }
    requires subframe { subframe < 10 }
    requires symbol { symbol < 14 }
    requires k { k < subcarriers }
    ensures { result ≡ sent_element signals.now.load signals.now.port signals.now.cell.now signals.now.sfn
        subframe symbol k }
{
    let last = signals.port.symbols() - 1;
    if let Some(value) = references[k as usize] {
        value
    } else if is_signal(last, subframe, symbol, k) {
        sent_signal(signals.port, signals.layout.primary[k as usize - MIDDLE])
    } else if is_signal(last - 1, subframe, symbol, k) {
        sent_signal(signals.port, secondary_of(signals, subframe, k))
    } else {
        value_beside(signals, subframe, symbol, k)
    }
}

/// Returns the values of the 72 resource elements in symbol `symbol` of `subframe`, in order of subcarrier (TS 36.211
/// section 6.2).
pub fn grid_of(signals: &Signals, subframe: u8, symbol: u8) -> [Cpx; SUBCARRIERS]
    requires subframe { subframe < 10 }
    requires symbol { symbol < 2 * port_symbols signals.now.port }
    ensures { result ≡ values_below subcarriers (sent_element signals.now.load signals.now.port signals.now.cell.now
        signals.now.sfn subframe symbol) }
{
    let symbols = signals.port.symbols();
    let references = references(
        signals.cell.id(),
        signals.port,
        2 * subframe + symbol / symbols,
        symbol % symbols,
    );
    let mut grid = [Cpx::ZERO; SUBCARRIERS];
    for k in 0..72_u8 {
        grid[k as usize] = element_of(signals, &references, subframe, symbol, k);
    }
    grid
}

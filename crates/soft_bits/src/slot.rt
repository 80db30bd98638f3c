//! A received slot.

ghost use Rattle.std.specs.Prelude.{◌≡◌, ℕ, ◌*◌, ◌^◌, ◌<◌, ◌≤◌, List};
ghost use Rattle.cs_num.specs.declared.Cpx.{Cpx};
ghost use Rattle.cs_num.specs.Complex.{IsWithin, value_at};
ghost use Rattle.lte_types.specs.Carrier.{ports_of};
ghost use Rattle.soft_bits.specs.Soft.{SeenSlot, AreSmall, seen_at};
ghost use Rattle.soft_bits.specs.Lines.{line_of, port_channel, ports_energy};
ghost use Rattle.soft_bits.specs.Kept.{slot_of, seen_line, lines_of as pilots_of_ports, IsKept};
ghost use Rattle.lte_types.specs.Numerology.{subcarriers};

use crate::{Pilots, Ports, Seen, Single, energy_of, pilots_of};
use arrayvec::ArrayVec;
use cs_num::Cpx;
use lte_types::{CellId, SUBCARRIERS};
use std::marker::{Model, PhantomData};

// One symbol's received values by subcarrier. Contracts see them as a list.
#[derive(Drop)]
struct Symbol {
    values: [Cpx; SUBCARRIERS],
}

impl Model for Symbol {
    ghost Value = { List Cpx };

    ghost view = { λ s. s.values };
}

impl Symbol {
    fn new(values: [Cpx; SUBCARRIERS]) -> Symbol
        ensures { result ≡ values }
    {
        Symbol { values }
    }

    fn at(&self, k: u8) -> Cpx
        requires { k < subcarriers }
        ensures { result ≡ value_at self.now k }
    {
        self.values[k as usize]
    }
}

// Returns the seven symbols of a slot as `Symbol` values.
fn symbols_of(seen: [[Cpx; SUBCARRIERS]; 7]) -> [Symbol; 7]
    ensures { result ≡ seen }
{
    [
        Symbol::new(seen[0]),
        Symbol::new(seen[1]),
        Symbol::new(seen[2]),
        Symbol::new(seen[3]),
        Symbol::new(seen[4]),
        Symbol::new(seen[5]),
        Symbol::new(seen[6]),
    ]
}

// Returns the pilots of each antenna port in a slot, by port number.
fn lines_of(seen: &Seen) -> ArrayVec<Pilots, 4>
    ensures { result.items ≡ pilots_of_ports seen.now.carrier (slot_of seen.now) }
{
    let mut lines = ArrayVec::new();
    for port in 0..seen.carrier.ports() {
        lines.push(pilots_of(seen, port));
    }
    lines
}

/// A received slot: seven symbols with 72 subcarriers each, the slot number, 0 to 19, and the cell identity. Pilots of
/// each antenna port and the pilot energy are computed once; contracts do not see them.
#[derive(Drop)]
pub struct PortSlot<K: Ports> {
    symbols: [Symbol; 7],
    number: u8,
    id: CellId,
    lines: ArrayVec<Pilots, 4>,
    energy: u64,
    ports: PhantomData<K>,
}

/// A slot of a cell with one antenna port.
pub type Slot = PortSlot<Single>;

impl<K: Ports> Model for PortSlot<K> {
    ghost Value = { SeenSlot };

    ghost view = { λ s. record { symbols = s.symbols; number = s.number; identity = s.id } };

    ghost invariant = { λ s.
        IsKept K.pairing.carrier (record { symbols = s.symbols; number = s.number; identity = s.id })
        s.lines.items s.energy };
}

impl<K: Ports> PortSlot<K> {
    /// Returns the slot whose symbols are `seen`, by subcarrier. `number` is 0 to 19, and components have magnitude at
    /// most 2^25.
    pub fn new(seen: [[Cpx; SUBCARRIERS]; 7], number: u8, id: CellId) -> PortSlot<K>
        requires number { number < 20 }
        requires small { AreSmall seen }
        ensures { result ≡ record { symbols = seen; number = number; identity = id } }
    {
        let slot = Seen {
            symbols: &seen,
            number,
            id,
            carrier: K::carrier(),
        };
        let lines = lines_of(&slot);
        let energy = energy_of(&slot);
        PortSlot {
            symbols: symbols_of(seen),
            number,
            id,
            lines,
            energy,
            ports: PhantomData,
        }
    }

    /// Returns the cell identity, 0 to 503.
    pub fn id(&self) -> CellId
        ensures { result ≡ self.now.identity }
    {
        self.id
    }

    /// Returns the slot number in the frame, 0 to 19.
    pub fn number(&self) -> u8
        ensures value { result ≡ self.now.number }
        ensures valid { result < 20 }
    {
        self.number
    }

    /// Returns the value received at subcarrier `k`, 0 to 71, of `symbol`, 0 to 6. Components have magnitude at most
    /// 2^25.
    pub fn seen(&self, symbol: u8, k: u8) -> Cpx
        requires symbol { symbol < 7 }
        requires k { k < subcarriers }
        ensures value { result ≡ seen_at self.now symbol k }
        ensures small { IsWithin (2 ^ 25) result }
    {
        self.symbols[symbol as usize].at(k)
    }

    /// Returns the pilots of antenna port `port`, which is below the transmission scheme's port count.
    pub fn pilots(&self, port: u8) -> &Pilots
        requires { port < ports_of K.pairing.carrier }
        ensures { result.now ≡ seen_line (line_of K.pairing.carrier port self.now) self.now }
    {
        &self.lines[port as usize]
    }

    /// Returns an antenna port's channel at subcarrier `k`, 0 to 71, times the squared magnitude of a reference signal
    /// and `Ports::scale`. Components have magnitude at most 180 * 2^25 times the scale.
    pub fn channel(&self, port: u8, k: u8) -> Cpx
        requires port { port < ports_of K.pairing.carrier }
        requires k { k < subcarriers }
        ensures value { result ≡ port_channel K.pairing.scale K.pairing.carrier port self.now k }
        ensures scaled { IsWithin (K.pairing.scale * (180 * 2 ^ 25)) result }
        ensures small { IsWithin (1080 * 2 ^ 25) result }
    {
        let pilots = self.pilots(port);
        pilots.channel(k).scaled(K::scale() / pilots.step())
    }

    /// Returns the pilot energy over all ports: the sum of squared magnitudes at their reference elements, with ports 2
    /// and 3 counted twice. The energy is at most 24 * 2^51 per port.
    pub fn energy(&self) -> u64
        ensures value { result ≡ ports_energy K.pairing.carrier self.now }
        ensures few { result ≤ ports_of K.pairing.carrier * (24 * 2 ^ 51) }
    {
        self.energy
    }
}

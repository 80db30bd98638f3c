//! A received slot.

ghost use Rattle.std.specs.Prelude.{◌≡◌, ◌*◌, ◌+◌, ◌/◌, ◌^◌, ◌<◌, ◌≤◌, IfOk, length, slice_index_or};
ghost use Rattle.cs_num.specs.Complex.{IsWithin, multiple};
ghost use Rattle.soft_bits.specs.Kept.{SeenLine, along};
ghost use Rattle.finite.specs.Lists.{values_below};
ghost use Rattle.soft_bits.specs.Soft.{AreSmall, seen_at};
ghost use Rattle.tones.specs.Seen.{wide_start as start_of};
ghost use Rattle.wide_cell.specs.Cell.{points, subcarriers};
ghost use Rattle.wide_slot.specs.Lines.{AreWeights};
ghost use Rattle.wide_slot.specs.declared.weights.Weights.{Weights as WeightsValue};
ghost use Rattle.wide_slot.specs.Slot.{slot_from, seen_slot, port_line, port_channel, port_energy, ports_energy, scale_of as scale_by};

use crate::Weights;
use crate::layout::layout_of;
use crate::line::Pilots;
use crate::pilots::{energy_along, pilots_of, smooth};
use crate::symbol::{Symbol, received};
use cs_num::Cpx;
use halving::WideRecording;
use std::alloc::{AllocError, Global};
use std::marker::Model;
use tones::{Tones, demodulate, wide_start};
use wide_cell::WideCell;

/// A received slot of a cell of any bandwidth, with each antenna port's smoothed pilots: 16 bytes for each subcarrier of
/// seven symbols and for each pilot, 154 kB with 100 resource blocks and four ports. Contracts see the cell, the
/// weights, and the slot: its symbols, its number and the identity. (own)
#[derive(Drop)]
pub struct WideSlot {
    cell: WideCell,
    weights: Weights,
    number: u8,
    symbols: Vec<Symbol>,
    lines: Vec<Pilots>,
    energy: u64,
}

impl Model for WideSlot {
    ghost use Rattle.wide_slot.specs.Slot.{WideSeen, slot_from, IsKept};

    ghost Value = { WideSeen };

    ghost view = { λ s.
        record { cell = s.cell; weights = s.weights; slot = slot_from s.symbols.items s.cell s.number } };

    ghost invariant = { λ s.
        IsKept (record { cell = s.cell; weights = s.weights; slot = slot_from s.symbols.items s.cell s.number })
        s.lines.items s.energy };
}

impl WideSlot {
    /// Receives slot `number`, 0 to 19, of a frame that begins at sample `frame` at 1.92 million samples per second.
    /// The recording contains the slot and all subcarriers. Fails only if an allocation fails. (own)
    pub fn receive(
        alloc: Global,
        tones: &Tones,
        wide: &WideRecording,
        cell: &WideCell,
        frame: usize,
        number: u8,
        weights: Weights,
    ) -> Result<WideSlot, AllocError>
        requires within { subcarriers cell.now.blocks < points wide.now.rate }
        requires frame { frame < 2 ^ 40 }
        requires inside { start_of wide.now.rate frame number 6 + points wide.now.rate ≤ length wide.now.samples }
        requires number { number < 20 }
        requires weights { AreWeights weights }
        ensures { IfOk result (λ slot. slot ≡ record {
          cell = cell.now;
          weights = weights;
          slot = seen_slot wide.now cell.now frame number;
        }) }
    {
        let symbols = symbols_of(alloc, tones, wide, cell, frame, number)?;
        WideSlot::of_symbols(alloc, symbols, cell, number, weights)
    }

    /// Returns the value received at symbol 0 to 6 of the slot and a subcarrier. Components are within 2^25.
    pub fn seen(&self, symbol: u8, k: u16) -> Cpx
        ensures value { result ≡ seen_at self.now.slot symbol k }
        ensures small { IsWithin (2 ^ 25) result }
    {
        received(&self.symbols, symbol as usize, k as usize)
    }

    /// Returns an antenna port's channel at a subcarrier, times the squared magnitude of a reference, the sum of the
    /// weights, and 3, or 6 with four ports. Components are within 8640 * 2^25.
    pub fn channel(&self, port: u8, k: u16) -> Cpx
        requires { port < self.now.cell.ports }
        ensures value { result ≡ port_channel self.now port k }
        ensures small { IsWithin (8640 * 2 ^ 25) result }
    {
        scaled_channel(line_at(&self.lines, port), scale_of(&self.cell), k)
    }

    /// Returns the pilot energy over all ports, at most 1600 * 2^51; ports 2 and 3 count twice.
    pub fn energy(&self) -> u64
        ensures value { result ≡ ports_energy self.now }
        ensures few { result ≤ 1600 * 2 ^ 51 }
    {
        self.energy
    }

    /// Returns the cell.
    pub fn cell(&self) -> &WideCell
        ensures { result.now ≡ self.now.cell }
    {
        &self.cell
    }

    /// Returns the weights that smooth the pilots.
    pub fn weights(&self) -> Weights
        ensures value { result ≡ self.now.weights }
        ensures valid { AreWeights result }
    {
        self.weights
    }

    // Returns the slot with these symbols.
    fn of_symbols(
        alloc: Global,
        symbols: Vec<Symbol>,
        cell: &WideCell,
        number: u8,
        weights: Weights,
    ) -> Result<WideSlot, AllocError>
        requires number { number < 20 }
        requires weights { AreWeights weights }
        requires small { AreSmall symbols.items }
        ensures { IfOk result (λ slot. slot ≡ record {
          cell = cell.now;
          weights = weights;
          slot = slot_from symbols.items cell.now number;
        }) }
    {
        let lines = lines_of(alloc, &symbols, cell, number, weights)?;
        let energy = energy_of(&symbols, cell, number);
        Ok(WideSlot {
            cell: *cell,
            weights,
            number,
            symbols,
            lines,
            energy,
        })
    }
}

// Returns an antenna port's line.
fn line_at(lines: &[Pilots], port: u8) -> &Pilots
    requires { port < length lines.now }
    ensures { (other : SeenLine) → result.now ≡ slice_index_or lines.now port other }
{
    &lines[port as usize]
}

// Returns the factor on all channels of a cell.
fn scale_of(cell: &WideCell) -> u8
    ensures value { result ≡ scale_by cell.now.ports }
    ensures few { result ≤ 6 }
{
    if cell.ports() == 4 { 6 } else { 3 }
}

// Returns a line's channel at subcarrier `k`, times `scale`.
fn scaled_channel(line: &Pilots, scale: u8, k: u16) -> Cpx
    requires { scale ≤ 6 }
    ensures value { result ≡ multiple (scale / line.now.step) (along line.now k) }
    ensures small { IsWithin (8640 * 2 ^ 25) result }
{
    line.channel(k).scaled(scale / line.step())
}

// Demodulates the seven symbols of a slot.
fn symbols_of(
    alloc: Global,
    tones: &Tones,
    wide: &WideRecording,
    cell: &WideCell,
    frame: usize,
    number: u8,
) -> Result<Vec<Symbol>, AllocError>
    requires within { subcarriers cell.now.blocks < points wide.now.rate }
    requires frame { frame < 2 ^ 40 }
    requires inside { start_of wide.now.rate frame number 6 + points wide.now.rate ≤ length wide.now.samples }
    ensures value { IfOk result (λ symbols. symbols.items ≡ (seen_slot wide.now cell.now frame number).symbols) }
    ensures small { IfOk result (λ symbols. AreSmall symbols.items) }
{
    let mut symbols = Vec::with_capacity(alloc, 7)?;
    for symbol in 0..7_u8 {
        let start = wide_start(wide.rate(), frame, number, symbol);
        let values = demodulate(alloc, tones, wide, cell.blocks(), start)?;
        symbols.push(Symbol::new(values))?;
    }
    Ok(symbols)
}

// Returns each antenna port's smoothed pilots.
fn lines_of(
    alloc: Global,
    symbols: &[Symbol],
    cell: &WideCell,
    number: u8,
    weights: Weights,
) -> Result<Vec<Pilots>, AllocError>
    requires number { number < 20 }
    requires weights { AreWeights weights }
    requires small { AreSmall symbols.now }
    ensures { IfOk result (λ lines. lines.items ≡ values_below cell.now.ports (port_line (record {
      cell = cell.now;
      weights = weights;
      slot = slot_from symbols.now cell.now number;
    }))) }
{
    let mut lines = Vec::with_capacity(alloc, 4)?;
    for port in 0..cell.ports() {
        lines.push(line_of(alloc, symbols, cell, number, weights, port)?)?;
    }
    Ok(lines)
}

// Returns an antenna port's smoothed pilots.
fn line_of(
    alloc: Global,
    symbols: &[Symbol],
    cell: &WideCell,
    number: u8,
    weights: Weights,
    port: u8,
) -> Result<Pilots, AllocError>
    requires number { number < 20 }
    requires weights { AreWeights weights }
    requires small { AreSmall symbols.now }
    ensures { IfOk result (λ line. line ≡ port_line (record {
      cell = cell.now;
      weights = weights;
      slot = slot_from symbols.now cell.now number;
    }) port) }
{
    let layout = layout_of(cell, number, port);
    let pilots = pilots_of(alloc, symbols, cell, number, &layout)?;
    let values = smooth(alloc, weights, &pilots)?;
    Ok(Pilots::new(layout.step, layout.first, values))
}

// Returns a slot's pilot energy over all antenna ports.
fn energy_of(symbols: &[Symbol], cell: &WideCell, number: u8) -> u64
    requires { AreSmall symbols.now }
    ensures value { (weights : WeightsValue) → result ≡ ports_energy (record {
      cell = cell.now;
      weights = weights;
      slot = slot_from symbols.now cell.now number;
    }) }
    ensures few { result ≤ 1600 * 2 ^ 51 }
{
    let mut sum: u64 = 0;
    for port in 0..cell.ports() {
        sum += energy_of_port(symbols, cell, number, port);
    }
    sum
}

// Returns an antenna port's pilot energy; ports 2 and 3 count twice.
fn energy_of_port(symbols: &[Symbol], cell: &WideCell, number: u8, port: u8) -> u64
    requires { AreSmall symbols.now }
    ensures value { (weights : WeightsValue) → result ≡ port_energy (record {
      cell = cell.now;
      weights = weights;
      slot = slot_from symbols.now cell.now number;
    }) port }
    ensures few { result ≤ 400 * 2 ^ 51 }
{
    let layout = layout_of(cell, number, port);
    u64::from(layout.step / 3) * energy_along(symbols, cell, number, &layout)
}

//! An antenna port's pilots in a slot.

ghost use Rattle.std.specs.Prelude.{◌≡◌, ◌*◌, ◌+◌, ◌/◌, ◌^◌, ◌<◌, ◌≤◌, All, IfOk, length};
ghost use Rattle.cs_num.specs.Complex.{IsWithin, conjugate, square, times};
ghost use Rattle.gold.specs.Gold.{gold_bits};
ghost use Rattle.crs.specs.Reference.{port_0, pattern_c_init};
ghost use Rattle.soft_bits.specs.Lines.{line_seen, line_pilots, line_energy};
ghost use Rattle.soft_bits.specs.Soft.{AreSmall};
ghost use Rattle.wide_slot.specs.Lines.{IsLayout, laid_out, AreWeights, smoothed_at, smoothed, symbol_with, pilot_place, wide_reference};
ghost use Rattle.wide_slot.specs.Slot.{slot_from};

use crate::Weights;
use crate::layout::Layout;
use crate::symbol::{Symbol, received, value_at};
use crs::{Pattern, c_init, value_of_width};
use cs_num::Cpx;
use std::alloc::{AllocError, Global};
use wide_cell::WideCell;

// Returns the first 440 bits of the reference signal sequence in a symbol, which suffice for every bandwidth.
fn bits_of(cell: &WideCell, number: u8, symbol: u8) -> [bool; 440]
    requires number { number < 20 }
    requires symbol { symbol < 7 }
    ensures { result ≡ gold_bits (pattern_c_init port_0 cell.now.identity number symbol) 440 }
{
    let mut bits = [false; 440];
    gold::fill(
        c_init(Pattern::FIRST_PORT, cell.id(), number, symbol),
        &mut bits,
    );
    bits
}

// Returns reference signal value `m` in a symbol, from the bits of the symbol's sequence.
fn reference(cell: &WideCell, number: u8, symbol: u8, bits: &[bool; 440], m: u8) -> Cpx
    requires bits { bits.now ≡ gold_bits (pattern_c_init port_0 cell.now.identity number symbol) 440 }
    requires m { m < 2 * cell.now.blocks }
    ensures value { result ≡ wide_reference cell.now number symbol m }
    ensures small { IsWithin 90 result }
{
    value_of_width(cell.blocks(), bits, m)
}

// Returns the value sent at pilot `i`, from the bits of both symbols with pilots.
fn sent_at(
    cell: &WideCell,
    number: u8,
    layout: &Layout,
    early: &[bool; 440],
    late: &[bool; 440],
    i: u16,
) -> Cpx
    requires layout { IsLayout cell.now layout.now }
    requires early { early.now ≡ gold_bits (pattern_c_init port_0 cell.now.identity number layout.now.early) 440 }
    requires late { late.now ≡ gold_bits (pattern_c_init port_0 cell.now.identity number layout.now.late) 440 }
    requires i { i ≤ layout.now.last }
    ensures value { result ≡ wide_reference cell.now number
        (symbol_with layout.now (pilot_place layout.now i)) (pilot_place layout.now i / 6) }
    ensures small { IsWithin 90 result }
{
    let k = layout.subcarrier(i);
    let m = (k / 6) as u8;
    if k % 6 == layout.residue as usize {
        reference(cell, number, layout.early, early, m)
    } else {
        reference(cell, number, layout.late, late, m)
    }
}

// Returns the value received at pilot `i`.
fn seen_at(symbols: &[Symbol], cell: &WideCell, number: u8, layout: &Layout, i: u16) -> Cpx
    requires small { AreSmall symbols.now }
    ensures value { result ≡ line_seen (laid_out layout.now cell.now number) (slot_from symbols.now cell.now number) i }
    ensures small { IsWithin (2 ^ 25) result }
{
    let k = layout.subcarrier(i);
    received(symbols, layout.symbol_at(k) as usize, k)
}

// Returns the pilots of a layout, by subcarrier: the values received times the conjugates of the values sent.
pub(crate) fn pilots_of(
    alloc: Global,
    symbols: &[Symbol],
    cell: &WideCell,
    number: u8,
    layout: &Layout,
) -> Result<Vec<Cpx>, AllocError>
    requires number { number < 20 }
    requires layout { IsLayout cell.now layout.now }
    requires small { AreSmall symbols.now }
    ensures value { IfOk result (λ pilots.
        pilots.items ≡ line_pilots (laid_out layout.now cell.now number) (slot_from symbols.now cell.now number)) }
    ensures small { IfOk result (λ pilots. All (IsWithin (180 * 2 ^ 25)) pilots.items) }
{
    let early = bits_of(cell, number, layout.early);
    let late = bits_of(cell, number, layout.late);
    let mut pilots = Vec::with_capacity(alloc, layout.last as usize + 1)?;
    for i in 0..layout.last + 1 {
        let sent = sent_at(cell, number, layout, &early, &late, i);
        let seen = seen_at(symbols, cell, number, layout, i);
        pilots.push(against(seen, sent))?;
    }
    Ok(pilots)
}

// Returns a received value times the conjugate of the value sent.
fn against(seen: Cpx, sent: Cpx) -> Cpx
    requires seen { IsWithin (2 ^ 25) seen }
    requires sent { IsWithin 90 sent }
    ensures value { result ≡ times seen (conjugate sent) }
    ensures small { IsWithin (180 * 2 ^ 25) result }
{
    seen.mul(sent.conj())
}

// Returns the pilots weighted with their neighbours.
pub(crate) fn smooth(
    alloc: Global,
    weights: Weights,
    pilots: &[Cpx],
) -> Result<Vec<Cpx>, AllocError>
    requires weights { AreWeights weights }
    requires pilots { All (IsWithin (180 * 2 ^ 25)) pilots.now }
    ensures value { IfOk result (λ smooth. smooth.items ≡ smoothed weights pilots.now) }
    ensures small { IfOk result (λ smooth. All (IsWithin (1440 * 2 ^ 25)) smooth.items) }
{
    let mut smooth = Vec::with_capacity(alloc, pilots.len())?;
    for i in 0..pilots.len() {
        smooth.push(smoothed_value(weights, pilots, i))?;
    }
    Ok(smooth)
}

// Returns pilot `i` weighted with its neighbours.
fn smoothed_value(weights: Weights, pilots: &[Cpx], i: usize) -> Cpx
    requires weights { AreWeights weights }
    requires pilots { All (IsWithin (180 * 2 ^ 25)) pilots.now }
    requires i { i < length pilots.now }
    ensures value { result ≡ smoothed_at weights pilots.now i }
    ensures small { IsWithin (1440 * 2 ^ 25) result }
{
    let before = value_at(pilots, i.saturating_sub(1)).scaled(weights.outer);
    let here = value_at(pilots, i).scaled(weights.middle);
    let after = value_at(pilots, (i + 1).min(pilots.len() - 1)).scaled(weights.outer);
    before + here + after
}

// Returns the energy received at a layout's pilots.
pub(crate) fn energy_along(symbols: &[Symbol], cell: &WideCell, number: u8, layout: &Layout) -> u64
    requires layout { IsLayout cell.now layout.now }
    requires small { AreSmall symbols.now }
    ensures value { result ≡ line_energy (laid_out layout.now cell.now number) (slot_from symbols.now cell.now number) }
    ensures few { result ≤ (layout.now.last + 1) * 2 ^ 51 }
{
    let mut sum: u64 = 0;
    for i in 0..layout.last + 1 {
        sum += energy_part(symbols, cell, number, layout, i);
    }
    sum
}

// Returns the energy received at pilot `i`.
fn energy_part(symbols: &[Symbol], cell: &WideCell, number: u8, layout: &Layout, i: u16) -> u64
    requires small { AreSmall symbols.now }
    ensures value { result ≡ square (line_seen (laid_out layout.now cell.now number)
        (slot_from symbols.now cell.now number) i) }
    ensures small { result ≤ 2 ^ 51 }
{
    seen_at(symbols, cell, number, layout, i).norm() as u64
}

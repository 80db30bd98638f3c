//! The control region of a frame.

ghost use Rattle.std.specs.Prelude.{◌≡◌, ◌<◌, ◌≤◌, length, take};
ghost use Rattle.finite.specs.Lists.{values_below};
ghost use Rattle.cs_bits.specs.Checks.{with_check_16};
ghost use Rattle.grid_map.specs.Scrambling.{indicator_bit};
ghost use Rattle.dci.specs.Fields.{system_information_rnti};
ghost use Rattle.dci.specs.Format1A.{IsGrant};
ghost use Rattle.cell_grid.specs.Block.{coded_bit};
ghost use Rattle.cell_grid.specs.Control.{indicator_point, version_of, grant_of, control_word};
ghost use Rattle.cell_grid.specs.Control.{control_places, control_point};

use crate::bits::put_bits;
use crate::points::fill_points;
use cell_plan::Cell;
use conv_code::{encode, match_out};
use cs_bits::{Bits, crc16};
use cs_num::Cpx;
use dci::{Grant, SI_RNTI};
use grid_map::{Place, candidate_places, indicator_bit, pcfich_c_init, pdcch, pdcch_c_init};
use lte_types::{Bandwidth, Mib, Sfn};
use std::marker::Model;

/// The 16 PCFICH symbols in a subframe. Contracts see them as a list.
#[derive(Drop)]
pub(crate) struct Indicator {
    points: [Cpx; 16],
}

impl Model for Indicator {
    ghost use Rattle.std.specs.Prelude.{List};
    ghost use Rattle.cs_num.specs.declared.Cpx.{Cpx as Point};

    ghost Value = { List Point };

    ghost view = { λ indicator. indicator.points };
}

impl Indicator {
    /// Returns the 16 PCFICH symbols.
    pub(crate) fn slice(&self) -> &[Cpx]
        ensures points { result.now ≡ self.now }
        ensures count { length self.now ≡ 16 }
    {
        &self.points
    }
}

// Returns the 32-bit codeword of a control format indicator (TS 36.212 section 5.3.4).
fn indicator_bits(indicator: u8) -> [bool; 32]
    requires { 1 ≤ indicator }
    ensures { result ≡ values_below 32 (indicator_bit indicator) }
{
    let mut bits = [false; 32];
    for i in 0..32 {
        bits[i] = indicator_bit(indicator, i);
    }
    bits
}

// Returns the 16 PCFICH symbols in a subframe.
fn indicator_of(cell: &Cell, subframe: u8) -> Indicator
    requires { subframe < 10 }
    ensures { result ≡ values_below 16 (indicator_point cell.now subframe) }
{
    let bits = indicator_bits(cell.plan().cfi);
    let mut points = [Cpx::ZERO; 16];
    fill_points(pcfich_c_init(cell.id(), 2 * subframe), &bits, &mut points);
    Indicator { points }
}

/// Returns the 16 PCFICH symbols in each of the 10 subframes of a frame.
pub(crate) fn indicators(cell: &Cell) -> [Indicator; 10]
    ensures { result ≡ values_below 10 (λ subframe. values_below 16 (indicator_point cell.now subframe)) }
{
    [
        indicator_of(cell, 0),
        indicator_of(cell, 1),
        indicator_of(cell, 2),
        indicator_of(cell, 3),
        indicator_of(cell, 4),
        indicator_of(cell, 5),
        indicator_of(cell, 6),
        indicator_of(cell, 7),
        indicator_of(cell, 8),
        indicator_of(cell, 9),
    ]
}

/// Returns the redundancy version of system information in frame `sfn`: 0, 2, 3, 1 for successive even-numbered frames
/// (TS 36.321 section 5.3.1).
pub(crate) fn version_of(sfn: Sfn) -> u8
    ensures value { result ≡ version_of sfn }
    ensures bound { result < 4 }
{
    [0, 2, 3, 1][(sfn.value() % 8 / 2) as usize]
}

// Returns the grant of system information in frame `sfn`.
fn grant_of(cell: &Cell, sfn: Sfn) -> Grant
    ensures grant { result ≡ grant_of cell.now sfn }
    ensures valid { IsGrant result }
{
    let plan = cell.plan();
    Grant {
        start: plan.start,
        blocks: plan.blocks,
        mcs: plan.mcs,
        column: plan.column,
        rv: version_of(sfn),
        size: cell.size(),
    }
}

// Copies `message` over the first 21 bits.
fn put_message(bits: &mut [bool; 37], message: &Bits<21>)
    ensures { take 21 bits.new ≡ message.now }
{
    bits[..21].copy_from_slice(message.slice());
}

// Returns `message` followed by its CRC-16, masked with the SI-RNTI (TS 36.212 section 5.3.3.2).
fn with_check(message: &Bits<21>) -> Bits<37>
    ensures { result ≡ with_check_16 system_information_rnti message.now }
{
    let mut bits = [false; 37];
    put_message(&mut bits, message);
    let check = crc16(message.slice()) ^ SI_RNTI;
    put_bits(&mut bits, 21, 16, check as u64);
    Bits::new(bits)
}

// Returns the 21 grant bits of frame `sfn`, followed by their masked CRC.
fn word_of(cell: &Cell, sfn: Sfn) -> Bits<37>
    ensures { result ≡ control_word cell.now sfn }
{
    with_check(&dci::write(&grant_of(cell, sfn)))
}

// Returns the grant of frame `sfn` after encoding and rate matching: the 288 bits of four control channel elements.
fn control_bits(cell: &Cell, sfn: Sfn) -> [bool; 288]
    ensures { result ≡ values_below 288 (coded_bit (control_word cell.now sfn)) }
{
    let coded = encode(&word_of(cell, sfn));
    let mut bits = [false; 288];
    for i in 0..288 {
        bits[i] = match_out(&coded, i);
    }
    bits
}

/// Returns the 144 PDCCH symbols that carry the grant in frame `sfn`.
pub(crate) fn control_points(cell: &Cell, sfn: Sfn) -> [Cpx; 144]
    ensures { result ≡ values_below 144 (control_point cell.now sfn) }
{
    let mut points = [Cpx::ZERO; 144];
    fill_points(
        pdcch_c_init(cell.id(), 10),
        &control_bits(cell, sfn),
        &mut points,
    );
    points
}

/// Returns the 144 resource elements in control channel elements 0 to 3, the first candidate at aggregation level 4 (TS
/// 36.213 section 9.1.1).
pub(crate) fn control_places(cell: &Cell) -> [Place; 144]
    ensures { result ≡ control_places cell.now }
{
    let plan = cell.plan();
    let mib = Mib {
        bandwidth: Bandwidth::N6,
        duration: plan.duration,
        resource: plan.resource,
        upper: 0,
        spare: plan.spare,
    };
    candidate_places(cell.id(), pdcch(cell.id(), cell.cfi(), mib).as_slice())
}

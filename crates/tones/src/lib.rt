//! OFDM demodulation of one symbol at 1.92 * 2^r million samples per second, r from 0 to 4: the DFT of its useful part
//! at all subcarriers of a cell, with a table of the 2,048th roots of unity. The DFT is folded by the table's symmetry,
//! and equals its plain definition.
//! Tests: the crate `wide_tests`.
#![tactic(auto)]

mod folding;
mod symbol;
mod table;

ghost use Rattle.tones.specs.Laws.{THasPeriod, HalfTurnNegates, QuarterTurnIsJ};

pub use symbol::{demodulate, wide_start};
pub use table::Tones;

/// A law: the table T is exactly symmetric. It has period 2,048, half a period negates, and a quarter multiplies by j.
pub fn table_is_symmetric()
    ensures period { THasPeriod }
    ensures half_turn { HalfTurnNegates }
    ensures quarter_turn { QuarterTurnIsJ }
{}

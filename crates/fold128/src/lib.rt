//! A 128-point DFT in integers, between samples and the 72 subcarriers of an OFDM symbol, with the tables of the
//! 128th and 63rd roots of unity. The transforms are folded by symmetry, and equal their plain definitions.
//! Tests: the crate `low_tests`.
#![tactic(auto)]

mod quartet;
mod spectrum;
mod symbol;
mod tables;

ghost use Rattle.fold128.specs.Laws.{WHasPeriod, HalfTurnNegates, QuarterTurnIsJ, BackwardIsConjugate, TonesCancel, ZHasPeriod, ZBackwardIsConjugate};

pub use spectrum::transform;
pub use symbol::synth;
pub use tables::{w, z63};

/// A law: the table W is exactly symmetric. It has period 128, half a period negates W, a quarter period multiplies W
/// by j, and reversal conjugates W.
pub fn table_is_symmetric()
    ensures period { WHasPeriod }
    ensures half_turn { HalfTurnNegates }
    ensures quarter_turn { QuarterTurnIsJ }
    ensures backward { BackwardIsConjugate }
{}

/// A law: a tone sums to zero over a symbol's 128 samples, unless its frequency is 0 modulo 128.
pub fn tones_cancel()
    ensures { TonesCancel }
{}

/// A law: the table Z has period 63, and reversal conjugates Z.
pub fn short_table_is_symmetric()
    ensures period { ZHasPeriod }
    ensures backward { ZBackwardIsConjugate }
{}

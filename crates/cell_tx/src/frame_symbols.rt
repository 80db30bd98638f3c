//! The ranges of symbols in a frame that are computed anew, and the samples that a port adds in these ranges.

ghost use Rattle.std.specs.Prelude.{◌≡◌, ◌+◌, ◌*◌, ◌/◌, ◌%◌, ◌<◌, ◌≤◌, true, None, length};
ghost use Rattle.cs_num.specs.Complex.{IsWithin, square, plus, times, value_of, sample_of, silence};
ghost use Rattle.fold128.specs.Symbol.{useful_part};
ghost use Rattle.lte_types.specs.Numerology.{frame_length, slot_length};
ghost use Rattle.lte_types.specs.Carrier.{prefix_of};
ghost use Rattle.cell_grid.specs.Ports.{port_prefix, port_symbols};
ghost use Rattle.cell_tx.specs.Starts.{first_in_slot, first_sample};
ghost use Rattle.cell_tx.specs.Sending.{elements_of, sample_in, symbol_start};
ghost use Rattle.cell_tx.specs.Emitting.{is_between, is_made_anew, AreSpans, AreAll, AreOwn, AreChanged, added};
ghost use Rattle.cell_tx.specs.Emitting.{FitSamples};

use crate::Port;
use crate::useful::useful_of;
use cell_grid::Signals;
use cs_num::{Cpx, Sample};
use lte_types::{Carrier, SLOT_LENGTH, USEFUL_LENGTH};

// ---- symbol ranges

/// Two ranges of symbols in a frame: `first..last` and `again..end`, numbered from the frame's start.
#[derive(Clone, Copy)]
pub(crate) struct Symbols {
    pub first: usize,
    pub last: usize,
    pub again: usize,
    pub end: usize,
}

// Returns the range of the first `count` symbols of a frame; the second range is empty.
fn first_symbols(count: usize) -> Symbols
    ensures { result ≡ record { first = 0; last = count; again = count; end = count } }
{
    Symbols {
        first: 0,
        last: count,
        again: count,
        end: count,
    }
}

/// Returns the range of all symbols of a frame: 140, or 120 with the extended cyclic prefix.
pub(crate) fn all_symbols(carrier: Carrier) -> Symbols
    ensures order { AreSpans (prefix_of carrier) result }
    ensures all { AreAll (prefix_of carrier) result }
{
    first_symbols(20 * carrier.prefix().symbols())
}

// Returns the symbols that differ between frames without load: the four PBCH symbols in slot 1 and, if the transmission
// scheme sends system information, subframe 5.
fn channel_symbols(carrier: Carrier) -> Symbols
    ensures order { AreSpans (prefix_of carrier) result }
    ensures own { AreOwn carrier None result }
{
    let first = carrier.prefix().symbols();
    let last = first + 4;
    if carrier.has_control() {
        Symbols {
            first,
            last,
            again: 10 * first,
            end: 12 * first,
        }
    } else {
        Symbols {
            first,
            last,
            again: last,
            end: last,
        }
    }
}

/// Returns the symbols to compute anew when the buffer holds another frame: all symbols with load, and otherwise the
/// symbols that differ between frames.
pub(crate) fn own_symbols(carrier: Carrier, load: Option<u32>) -> Symbols
    ensures order { AreSpans (prefix_of carrier) result }
    ensures own { AreOwn carrier load result }
{
    if load.is_some() {
        all_symbols(carrier)
    } else {
        channel_symbols(carrier)
    }
}

/// Returns the symbols to compute anew: all symbols for the first frame, and otherwise `own_symbols`.
pub(crate) fn symbols_at(carrier: Carrier, load: Option<u32>, is_first: bool) -> Symbols
    ensures order { AreSpans (prefix_of carrier) result }
    ensures all { is_first ≡ true → AreAll (prefix_of carrier) result }
    ensures own { AreOwn carrier load result }
{
    if is_first {
        all_symbols(carrier)
    } else {
        own_symbols(carrier, load)
    }
}

// ---- a port's samples

// A sample of silence.
pub(crate) const SILENCE: Sample = Sample { re: 0, im: 0 };

// Returns the first sample of symbol `l` in a slot, where the cyclic prefix begins.
fn first_in_slot(port: Port, l: usize) -> usize
    requires { l < port_symbols port }
    ensures value { result ≡ first_in_slot (port_prefix port) l }
    ensures inside { result < slot_length }
{
    let prefix = port.carrier.prefix();
    if l == 0 {
        0
    } else {
        (prefix.first - prefix.other) as usize + prefix.step() * l
    }
}

// Returns the first sample of symbol `symbol` in a frame, or the frame's end for the number that follows the last
// symbol's.
fn first_sample_of(port: Port, symbol: usize) -> usize
    requires { symbol ≤ 20 * port_symbols port }
    ensures value { result ≡ first_sample (port_prefix port) symbol }
    ensures inside { result ≤ frame_length }
{
    let symbols = port.carrier.prefix().symbols();
    SLOT_LENGTH * (symbol / symbols) + first_in_slot(port, symbol % symbols)
}

// Returns the 128 samples of the useful part of symbol `symbol` in the frame.
fn useful_at(signals: &Signals, symbol: usize) -> [Cpx; USEFUL_LENGTH]
    requires { symbol < 20 * port_symbols signals.now.port }
    ensures { result ≡ useful_part (elements_of signals.now signals.now.sfn (symbol / port_symbols signals.now.port / 2)
        (port_symbols signals.now.port * (symbol / port_symbols signals.now.port % 2)
        + symbol % port_symbols signals.now.port)) }
{
    let symbols = signals.port.carrier.prefix().symbols();
    useful_of(signals, (symbol / symbols) as u8, (symbol % symbols) as u8)
}

// Overwrites the samples `first..last` of a frame with silence.
fn clear_between(first: usize, last: usize, out: &mut [Sample])
    requires order { first ≤ last }
    requires last { last ≤ frame_length }
    requires room { length out.old ≡ frame_length }
    ensures { AreChanged (is_between first last) (λ i before. silence) out.old out.new }
{
    for i in first..last {
        out[i] = SILENCE;
    }
}

/// Overwrites the ranges `symbols` of a frame with silence.
pub(crate) fn clear_symbols(port: Port, symbols: &Symbols, out: &mut [Sample])
    requires order { AreSpans (port_prefix port) symbols.now }
    requires room { length out.old ≡ frame_length }
    ensures { AreChanged (is_made_anew (port_prefix port) symbols.now) (λ i before. silence) out.old out.new }
{
    clear_between(
        first_sample_of(port, symbols.first),
        first_sample_of(port, symbols.last),
        out,
    );
    clear_between(
        first_sample_of(port, symbols.again),
        first_sample_of(port, symbols.end),
        out,
    );
}

// Returns sample `before` plus `value` times `gain`. The sum must fit 16 bits.
fn sum_of(before: Sample, gain: &Cpx, value: Cpx) -> Sample
    requires gain { square gain.now ≤ 784 }
    requires value { square value ≤ 1153 * 1153 }
    requires small { IsWithin 32767 (plus (value_of before) (times gain.now value)) }
    ensures { result ≡ sample_of (plus (value_of before) (times gain.now value)) }
{
    let product = gain.mul(value);
    (Cpx::from(before) + product).exact_sample()
}

// Adds the port's samples in one symbol of a frame, times `gain`. The symbol ends with its useful part, and its cyclic
// prefix repeats the useful part's last samples.
fn add_symbol(signals: &Signals, gain: &Cpx, symbol: usize, out: &mut [Sample])
    requires symbol { symbol < 20 * port_symbols signals.now.port }
    requires gain { square gain.now ≤ 784 }
    requires room { length out.old ≡ frame_length }
    requires small { FitSamples (is_between (symbol_start signals.now symbol) (symbol_start signals.now (symbol + 1)))
        gain.now (sample_in signals.now) out.old }
    ensures { AreChanged (is_between (symbol_start signals.now symbol) (symbol_start signals.now (symbol + 1)))
        (added gain.now (sample_in signals.now)) out.old out.new }
{
    let useful = useful_at(signals, symbol);
    let last = first_sample_of(signals.port, symbol + 1);
    for i in first_sample_of(signals.port, symbol)..last {
        out[i] = sum_of(out[i], gain, useful[(i + 256 - last) % 128]);
    }
}

// Adds the port's samples in the symbols `first..last` of a frame, times `gain`.
fn add_between(signals: &Signals, gain: &Cpx, first: usize, last: usize, out: &mut [Sample])
    requires order { first ≤ last }
    requires last { last ≤ 20 * port_symbols signals.now.port }
    requires gain { square gain.now ≤ 784 }
    requires room { length out.old ≡ frame_length }
    requires small { FitSamples (is_between (symbol_start signals.now first) (symbol_start signals.now last))
        gain.now (sample_in signals.now) out.old }
    ensures { AreChanged (is_between (symbol_start signals.now first) (symbol_start signals.now last))
        (added gain.now (sample_in signals.now)) out.old out.new }
{
    for symbol in first..last {
        add_symbol(signals, gain, symbol, out);
    }
}

/// Adds the port's samples in the ranges `symbols` of a frame, times `gain`. The sums must fit 16 bits, and the square
/// of the gain's magnitude is at most 784.
pub(crate) fn add_symbols(signals: &Signals, gain: &Cpx, symbols: &Symbols, out: &mut [Sample])
    requires order { AreSpans (port_prefix signals.now.port) symbols.now }
    requires gain { square gain.now ≤ 784 }
    requires room { length out.old ≡ frame_length }
    requires small { FitSamples (is_made_anew (port_prefix signals.now.port) symbols.now)
        gain.now (sample_in signals.now) out.old }
    ensures { AreChanged (is_made_anew (port_prefix signals.now.port) symbols.now)
        (added gain.now (sample_in signals.now)) out.old out.new }
{
    add_between(signals, gain, symbols.first, symbols.last, out);
    add_between(signals, gain, symbols.again, symbols.end, out);
}

//! The samples that a cell transmits.

ghost use Rattle.std.specs.Prelude.{◌≡◌, ◌+◌, ◌*◌, ◌/◌, ◌%◌, ◌<◌, ◌≤◌, length, None};
ghost use Rattle.finite.specs.Lists.{values_below};
ghost use Rattle.cs_num.specs.Complex.{IsWithin, square, times, value_of, sample_of};
ghost use Rattle.fold128.specs.Symbol.{useful_part};
ghost use Rattle.lte_types.specs.Numerology.{frame_length, slot_length, useful_length, normal, symbol_of, most_samples};
ghost use Rattle.cell_plan.specs.Pair.{gain_of};
ghost use Rattle.cell_tx.specs.Emission.{sent_by};
ghost use Rattle.cell_grid.specs.Ports.{port_prefix, port_symbols};
ghost use Rattle.cell_grid.specs.Grid.{element};
ghost use Rattle.cell_tx.specs.Starts.{useful_place};
ghost use Rattle.cell_tx.specs.Sent.{frame_samples};
ghost use Rattle.cell_tx.specs.Sending.{elements_of, sample_in, sample_by, received_samples};
ghost use Rattle.cell_tx.specs.Sent.{prefix_slot_sample, sent, received};

use crate::emitter::put_all;
use crate::source::Source;
use crate::useful::useful_of;
use crate::{Emitter, Port};
use cell_grid::{Signals, carried_of, layout_of};
use cell_plan::{Cell, Transmission};
use cs_num::{Cpx, Gain, Sample};
use lte_types::{Carrier, FRAME_LENGTH, SLOT_LENGTH, Sfn, Timing, USEFUL_LENGTH};

// The number of samples in a frame: 19,200.
const FRAME: u64 = FRAME_LENGTH as u64;

// The only antenna port of a cell with one port and the normal cyclic prefix.
const ONLY: Port = Port {
    carrier: Carrier::OnePort,
    number: 0,
};

// The gain of 1.
const ONE: Cpx = Cpx { re: 1, im: 0 };

// Returns the index that sample `i` of a slot has in its symbol's useful part. A cyclic prefix sample has the index of
// the useful sample that it repeats.
fn place_at(port: Port, i: usize) -> usize
    requires { i < slot_length }
    ensures value { result ≡ useful_place (port_prefix port) i }
    ensures small { result < useful_length }
{
    let prefix = port.carrier.prefix();
    let first = USEFUL_LENGTH - prefix.first as usize;
    (i + first - prefix.step() * prefix.symbol_of(i)) % USEFUL_LENGTH
}

// Returns the number of the symbol in a slot that contains sample `i` of the slot.
fn symbol_at(port: Port, i: usize) -> u8
    requires { i < slot_length }
    ensures value { result ≡ symbol_of (port_prefix port) i }
    ensures small { result < port_symbols port }
{
    port.carrier.prefix().symbol_of(i) as u8
}

// Returns sample `i` of slot `slot`, given the useful part of the symbol that contains the sample.
fn sample_of_slot(signals: &Signals, useful: &[Cpx; USEFUL_LENGTH], slot: usize, i: usize) -> Sample
    requires i { i < slot_length }
    requires useful { useful.now ≡ useful_part (elements_of signals.now signals.now.sfn (slot / 2)
        (port_symbols signals.now.port * (slot % 2) + symbol_of (port_prefix signals.now.port) i)) }
    ensures { result ≡ sample_of
        (prefix_slot_sample (port_prefix signals.now.port) (elements_of signals.now) signals.now.sfn slot i) }
{
    useful[place_at(signals.port, i)].exact_sample()
}

// Returns sample `i` of the frame, with its useful part computed anew.
fn sample_of_frame(signals: &Signals, i: usize) -> Sample
    requires { i < frame_length }
    ensures { result ≡ sample_of (sample_in signals.now i) }
{
    let slot = i / SLOT_LENGTH;
    let useful = useful_of(
        signals,
        slot as u8,
        symbol_at(signals.port, i % SLOT_LENGTH),
    );
    sample_of_slot(signals, &useful, slot, i % SLOT_LENGTH)
}

/// Returns sample `i` of the endless frame sequence that a cell sends at `port`, starting with frame `sfn`, without
/// load (TS 36.211 section 6.12, in integers). Its magnitude is at most 1,153.
pub fn port_sample(cell: &Cell, port: Port, sfn: Sfn, i: u64) -> Sample
    ensures value { result ≡ sample_of (sent_by None port cell.now sfn i) }
    ensures magnitude { square (sent_by None port cell.now sfn i) ≤ 1153 * 1153 }
{
    let sfn = Timing { sfn, offset: 0 }.number_at(i);
    let layout = layout_of(cell, port);
    let carried = carried_of(cell, port, sfn);
    let signals = Signals::new(cell, port, None, &layout, &carried, sfn);
    sample_of_frame(&signals, (i % FRAME) as usize)
}

/// Returns sample `i` of the endless frame sequence that a cell with one antenna port and the normal cyclic prefix
/// sends, starting with frame `sfn` (TS 36.211 section 6.12, in integers). Its magnitude is at most 1,153.
pub fn sample(cell: &Cell, sfn: Sfn, i: u64) -> Sample
    ensures value { result ≡ sample_of (sent (element cell.now) sfn i) }
    ensures magnitude { square (sent (element cell.now) sfn i) ≤ 1153 * 1153 }
{
    port_sample(cell, ONLY, sfn, i)
}

/// Writes the 19,200 samples of frame `sfn`, for one antenna port and the normal cyclic prefix, to `out`, which has
/// length 19,200: `sample` with the indices from 0.
pub fn frame(cell: &Cell, sfn: Sfn, out: &mut [Sample])
    requires { length out.old ≡ frame_length }
    ensures { out.new ≡ frame_samples normal (element cell.now) sfn }
{
    let number = sfn.value();
    prove!(number <= 1023);
    let sender = Sender {
        cell,
        port: ONLY,
        timing: Timing { sfn, offset: 0 },
        load: None,
    };
    sequence(&sender, out);
}

// Returns a sample times a gain. The magnitude of `clean` must be at most 1,153.
fn amplified(gain: Gain, clean: Sample) -> Sample
    requires { square (value_of clean) ≤ 1153 * 1153 }
    ensures value { result ≡ sample_of (times gain (value_of clean)) }
    ensures magnitude { IsWithin 32284 (times gain (value_of clean)) }
{
    gain.value().mul(Cpx::from(clean)).exact_sample()
}

/// Returns sample `i` of a transmission: sample `i + offset` of the cell's sequence, times the gain. `i` must be below
/// the sample count. Components have magnitudes up to 32,284.
pub fn send(t: &Transmission, i: u32) -> Sample
    requires { i < t.now.samples }
    ensures value { result ≡ sample_of (received t.now.cell t.now.sfn t.now.offset (gain_of t.now.gain) i) }
    ensures magnitude { IsWithin 32284 (received t.now.cell t.now.sfn t.now.offset (gain_of t.now.gain) i) }
{
    amplified(t.gain(), sample(&t.cell, t.sfn, i as u64 + t.offset as u64))
}

/// A cell that is transmitted at one antenna port, starting at a sample in a frame, with or without load.
#[derive(Drop)]
pub struct Sender<'a> {
    /// The cell that is transmitted. With the extended cyclic prefix or four antenna ports, its system information is
    /// not transmitted.
    pub cell: &'a Cell,
    /// The antenna port that transmits.
    pub port: Port,
    /// The number of the first frame, and the index, within this frame, of the first sample sent.
    pub timing: Timing,
    /// The number of the load in the resource elements that the plan leaves open, or `None` for no load.
    pub load: Option<u32>,
}

/// Writes the samples of `sender` to `out`, which has room for at most 1,920,000: item `i` is sample `i + offset` of
/// the port's sequence. Magnitudes are at most 1,153 (`sizes`).
pub fn sequence(sender: &Sender, out: &mut [Sample])
    requires { length out.old ≤ most_samples }
    ensures { out.new ≡ values_below (length out.old) (λ i. sample_of (sample_by sender.now i)) }
{
    let source = Source::of_port(sender, ONE, out.len());
    put_all(&mut Emitter::by(&source), out);
}

/// Writes all samples of a transmission to `out`, which must have the same length: item `i` is `send` for index `i`.
pub fn send_all(t: &Transmission, out: &mut [Sample])
    requires { length out.old ≡ t.now.samples }
    ensures { out.new ≡ received_samples t.now }
{
    let sender = Sender {
        cell: &t.cell,
        port: ONLY,
        timing: t.timing(),
        load: None,
    };
    let source = Source::of_port(&sender, t.gain().value(), out.len());
    put_all(&mut Emitter::by(&source), out);
}

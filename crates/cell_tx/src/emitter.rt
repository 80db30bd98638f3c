//! Computes the samples of a transmission, one frame at a time.

ghost use Rattle.std.specs.Prelude.{ℕ, ◌≡◌, ◌+◌, ◌<◌, ◌≤◌, ◌++◌, true, length, take};
ghost use Rattle.cs_num.specs.Complex.{IsWithin, square, value_at};
ghost use Rattle.lte_types.specs.Carrier.{prefix_of};
ghost use Rattle.cell_tx.specs.declared.source.Ports.TheVariants.{All};
ghost use Rattle.cell_grid.specs.Ports.{has_control};
ghost use Rattle.cell_grid.specs.Rows.{IsLayout, AreVersions};
ghost use Rattle.cell_tx.specs.Emission.{emitted, emitted_samples};
ghost use Rattle.cell_tx.specs.Mixing.{carrier_by};

use crate::Port;
use crate::frame_symbols::{SILENCE, Symbols, add_symbols, clear_symbols, symbols_at};
use crate::source::{Ports, Source};
use cell_grid::{Layout, Signals, Versions, layout_of, versions_of};
use cell_plan::Emission;
use cs_num::Sample;
use lte_types::{Carrier, FRAME_LENGTH, Sfn};
use std::marker::Model;

// A source of samples, with the data that all its frames and ports share. `port` is the source's first port.
#[derive(Drop)]
struct FrameMaker<'a> {
    source: Source<'a>,
    port: Port,
    layout: Layout,
    versions: Versions,
    ghost port_is: { port.carrier ≡ carrier_by source.ports },
    ghost layout_is: { IsLayout port source.cell.now layout },
    ghost versions_are: { has_control port ≡ true → AreVersions source.cell.now versions },
}

impl<'a> FrameMaker<'a> {
    ghost use Rattle.cs_num.specs.Complex.{sample_of};
    ghost use Rattle.lte_types.specs.Numerology.{frame_length};
    ghost use Rattle.lte_types.specs.Timing.{number_of};
    ghost use Rattle.cell_grid.specs.Ports.{port_prefix};
    ghost use Rattle.cell_tx.specs.Emitting.{sent_in_frame, framed, AreFrame, is_made_anew, AreSpans, AreChanged};
    ghost use Rattle.cell_tx.specs.Emitting.{added, FitSamples, AreSilent};

    // Creates the frame maker for `source`, and computes the data that its frames share.
    fn new(source: &Source<'a>) -> FrameMaker<'a>
        ensures { result.source ≡ source.now }
    {
        let port = source.ports.first();
        let layout = layout_of(source.cell, port);
        let versions = versions_of(source.cell, port);
        FrameMaker {
            source: source.again(),
            port,
            layout,
            versions,
        }
    }

    // Adds the samples of `port`, times the gain of port `number`, to `frame` in the ranges `symbols`. The frame has
    // number `sfn`.
    fn add(&self, port: Port, number: usize, sfn: Sfn, symbols: &Symbols, frame: &mut [Sample])
        requires port { port.carrier ≡ carrier_by self.now.source.ports }
        requires number { number < 4 }
        requires gain { square (value_at self.now.source.gains number) ≤ 784 }
        requires order { AreSpans (port_prefix port) symbols.now }
        requires room { length frame.old ≡ frame_length }
        requires small { FitSamples (is_made_anew (port_prefix port) symbols.now)
            (value_at self.now.source.gains number)
            (sent_in_frame self.now.source.load port self.now.source.cell.now sfn) frame.old }
        ensures { AreChanged (is_made_anew (port_prefix port) symbols.now)
            (added (value_at self.now.source.gains number)
            (sent_in_frame self.now.source.load port self.now.source.cell.now sfn)) frame.old frame.new }
    {
        let source = &self.source;
        let carried = self.versions.of_frame(sfn);
        let signals = Signals::new(source.cell, port, source.load, &self.layout, carried, sfn);
        add_symbols(&signals, &source.gains[number], symbols, frame);
    }

    // Adds the samples of all ports of `carrier` to `frame`, which must be silent in the ranges `symbols`.
    fn add_ports(&self, carrier: Carrier, sfn: Sfn, symbols: &Symbols, frame: &mut [Sample])
        requires ports { self.now.source.ports ≡ All carrier }
        requires order { AreSpans (prefix_of carrier) symbols.now }
        requires room { length frame.old ≡ frame_length }
        requires silent { AreSilent (is_made_anew (prefix_of carrier) symbols.now) frame.old }
        ensures { AreChanged (is_made_anew (prefix_of carrier) symbols.now)
            (λ i before. sample_of (framed self.now.source sfn i)) frame.old frame.new }
    {
        for number in 0..carrier.ports() {
            let port = Port { carrier, number };
            self.add(port, number as usize, sfn, symbols, frame);
        }
    }

    // Adds the samples of the source's ports to `frame`, which must be silent in the ranges `symbols`.
    fn add_all(&self, sfn: Sfn, symbols: &Symbols, frame: &mut [Sample])
        requires order { AreSpans (prefix_of (carrier_by self.now.source.ports)) symbols.now }
        requires room { length frame.old ≡ frame_length }
        requires silent { AreSilent
            (is_made_anew (prefix_of (carrier_by self.now.source.ports)) symbols.now) frame.old }
        ensures { AreChanged (is_made_anew (prefix_of (carrier_by self.now.source.ports)) symbols.now)
            (λ i before. sample_of (framed self.now.source sfn i)) frame.old frame.new }
    {
        match self.source.ports {
            Ports::Alone(port) => self.add(port, 0, sfn, symbols, frame),
            Ports::All(carrier) => self.add_ports(carrier, sfn, symbols, frame),
        }
    }

    // Computes the ranges `symbols` of `frame`, the frame numbered `sfn`, anew.
    fn make(&self, sfn: Sfn, symbols: &Symbols, frame: &mut [Sample])
        requires order { AreSpans (prefix_of (carrier_by self.now.source.ports)) symbols.now }
        requires room { length frame.old ≡ frame_length }
        ensures { AreChanged (is_made_anew (prefix_of (carrier_by self.now.source.ports)) symbols.now)
            (λ i before. sample_of (framed self.now.source sfn i)) frame.old frame.new }
    {
        clear_symbols(self.port, symbols, frame);
        self.add_all(sfn, symbols, frame);
    }

    // Computes the frame that contains sample `at` of the source. Except for the first frame, `frame` must already hold
    // another frame of the source.
    fn make_frame_of(&self, at: usize, frame: &mut [Sample])
        requires at { at < self.now.source.samples }
        requires room { length frame.old ≡ frame_length }
        ensures { (n : ℕ) → (0 < at → AreFrame self.now.source n frame.old) → AreFrame self.now.source
            (number_of self.now.source.timing.sfn (at + self.now.source.timing.offset)) frame.new }
    {
        let source = &self.source;
        let sfn = source.timing.number_at(at as u64);
        let symbols = symbols_at(self.port.carrier, source.load, at == 0);
        self.make(sfn, &symbols, frame);
    }
}

/// Computes an emission's samples frame by frame, and holds one frame. Samples that are equal in all frames are
/// computed once. Contracts see an emitter as the emission's samples, the offset of the emission in its first frame,
/// and the positions at which the current piece (`from`) and the next piece (`at`) begin. (own)
#[derive(Drop)]
pub struct Emitter<'a> {
    maker: FrameMaker<'a>,
    frame: [Sample; FRAME_LENGTH],
    from: usize,
    at: usize,
}

impl<'a> Model for Emitter<'a> {
    ghost use Rattle.cell_tx.specs.Emitting.{made_samples, Progress, IsMade};

    ghost Value = { Progress };

    ghost view = { λ e. record {
      samples = made_samples e.maker.source;
      offset = e.maker.source.timing.offset;
      from = e.from;
      at = e.at;
    } };

    ghost invariant = { λ e. IsMade e.maker.source e.from e.at e.frame };
}

impl<'a> Emitter<'a> {
    ghost use Rattle.std.specs.Prelude.{nat_lt};
    ghost use Rattle.cell_tx.specs.Emitting.{made_samples, piece_end, piece_of};

    /// Creates an emitter for `emission`, positioned before the first piece.
    pub fn new(emission: &'a Emission) -> Emitter<'a>
        ensures samples { result.samples ≡ emitted_samples emission.now }
        ensures offset { result.offset ≡ emission.now.timing.offset }
        ensures from { result.from ≡ 0 }
        ensures at { result.at ≡ 0 }
    {
        Emitter::by(&Source::of(emission))
    }

    /// Creates an emitter for `source`, positioned before the first piece.
    pub(crate) fn by(source: &Source<'a>) -> Emitter<'a>
        ensures samples { result.samples ≡ made_samples source.now }
        ensures offset { result.offset ≡ source.now.timing.offset }
        ensures from { result.from ≡ 0 }
        ensures at { result.at ≡ 0 }
    {
        Emitter {
            maker: FrameMaker::new(source),
            frame: [SILENCE; FRAME_LENGTH],
            from: 0,
            at: 0,
        }
    }

    /// Computes the next piece of samples, which ends with its frame or with the emission. Returns whether there was a
    /// piece left.
    pub fn advance(&mut self) -> bool
        ensures samples { self.new.samples ≡ self.old.samples }
        ensures offset { self.new.offset ≡ self.old.offset }
        ensures from { self.new.from ≡ self.old.at }
        ensures at { self.new.at ≡ piece_end self.old }
        ensures more { result ≡ nat_lt self.old.at (length self.old.samples) }
    {
        let source = &self.maker.source;
        let samples = source.samples;
        let offset = source.timing.offset as usize;
        let more = self.at < samples;
        if more {
            self.maker.make_frame_of(self.at, &mut self.frame);
        }
        let rest = FRAME_LENGTH - (self.at + offset) % FRAME_LENGTH;
        self.from = self.at;
        self.at = (self.at + rest).min(samples);
        more
    }

    /// Returns the samples of the current piece, at most one frame.
    pub fn piece(&self) -> &[Sample]
        ensures { result.now ≡ piece_of self.now }
    {
        let offset = self.maker.source.timing.offset as usize;
        let start = (self.from + offset) % FRAME_LENGTH;
        &self.frame[start..start + (self.at - self.from)]
    }
}

// Copies `piece` to `out` from index `at`.
fn put_piece(at: usize, piece: &[Sample], out: &mut [Sample])
    requires { at + length piece.now ≤ length out.old }
    ensures front { take (at + length piece.now) out.new ≡ take at out.old ++ piece.now }
    ensures same_length { length out.new ≡ length out.old }
{
    out[at..at + piece.len()].copy_from_slice(piece);
}

/// Writes all samples of `emitter` to `out`, which must have the same length. The emitter must be positioned before its
/// first piece.
pub(crate) fn put_all(emitter: &mut Emitter, out: &mut [Sample])
    requires start { emitter.old.at ≡ 0 }
    requires room { length out.old ≡ length emitter.old.samples }
    ensures { out.new ≡ emitter.old.samples }
{
    let mut at = 0;
    while emitter.advance() {
        let piece = emitter.piece();
        put_piece(at, piece, out);
        at += piece.len();
    }
}

/// Writes all samples of `emission` to `out`, which must have the same length. Sample `i` is the sum, over the ports,
/// of sample `i + offset` times the port's gain. Components have magnitudes up to 32,284.
pub fn emit(emission: &Emission, out: &mut [Sample])
    requires { length out.old ≡ emission.now.samples }
    ensures samples { out.new ≡ emitted_samples emission.now }
    ensures magnitude { (i : ℕ) → IsWithin 32284 (emitted emission.now i) }
{
    put_all(&mut Emitter::new(emission), out);
}

//! A source of samples: a cell, its antenna ports and their gains, the timing and the load.

ghost use Rattle.std.specs.Prelude.{◌≤◌};
ghost use Rattle.lte_types.specs.Numerology.{most_samples};
ghost use Rattle.cell_tx.specs.Mixing.{AreGainsBy, gains_by_prop};

use crate::{Port, Sender};
use cell_plan::{Cell, Emission};
use cs_num::Cpx;
use lte_types::{Carrier, Timing};

/// The antenna ports that transmit simultaneously: a single port, or all ports of a transmission scheme.
#[derive(Clone, Copy)]
pub(crate) enum Ports {
    Alone(Port),
    All(Carrier),
}

/// The first `samples` samples that a cell transmits from `timing`: the sum of the ports' signals, each times its gain.
/// A single port has the first gain.
#[derive(Drop)]
pub(crate) struct Source<'a> {
    pub cell: &'a Cell,
    pub ports: Ports,
    pub timing: Timing,
    pub samples: usize,
    pub gains: [Cpx; 4],
    pub load: Option<u32>,
    ghost samples_most: { samples ≤ most_samples },
    ghost gains_fit: { AreGainsBy ports gains } by { gains_by_prop ports gains },
}

impl<'a> Source<'a> {
    ghost use Rattle.std.specs.Prelude.{◌≡◌};
    ghost use Rattle.finite.specs.Lists.{values_below};
    ghost use Rattle.cs_num.specs.Complex.{square, times, sample_of};
    ghost use Rattle.cell_tx.specs.Emission.{emitted_samples};
    ghost use Rattle.cell_tx.specs.Sending.{sample_by};
    ghost use Rattle.cell_tx.specs.Emitting.{made_samples};

    /// Returns the source of an emission.
    pub(crate) fn of(emission: &'a Emission) -> Source<'a>
        ensures made { made_samples result ≡ emitted_samples emission.now }
        ensures offset { result.timing.offset ≡ emission.now.timing.offset }
    {
        Source {
            cell: &emission.cell,
            ports: Ports::All(emission.carrier),
            timing: emission.timing,
            samples: emission.samples as usize,
            gains: emission.gains,
            load: emission.load,
        }
    }

    /// Returns a source of the first `samples` samples of one port's signal, times `gain`.
    pub(crate) fn of_port(sender: &Sender<'a>, gain: Cpx, samples: usize) -> Source<'a>
        requires samples { samples ≤ most_samples }
        requires gain { square gain ≤ 784 }
        ensures { made_samples result ≡ values_below samples (λ i. sample_of (times gain (sample_by sender.now i))) }
    {
        Source {
            cell: sender.cell,
            ports: Ports::Alone(sender.port),
            timing: sender.timing,
            samples,
            gains: [gain, Cpx::ZERO, Cpx::ZERO, Cpx::ZERO],
            load: sender.load,
        }
    }

    /// Returns a copy of the source.
    pub(crate) fn again(&self) -> Source<'a>
        ensures { result ≡ self.now }
    {
        Source {
            cell: self.cell,
            ports: self.ports,
            timing: self.timing,
            samples: self.samples,
            gains: self.gains,
            load: self.load,
        }
    }
}

impl Ports {
    ghost use Rattle.std.specs.Prelude.{◌≡◌};
    ghost use Rattle.cell_tx.specs.Mixing.{carrier_by};

    /// Returns the first port: port 0 of a transmission scheme, or the single port.
    pub(crate) fn first(self) -> Port
        ensures { result.carrier ≡ carrier_by self }
    {
        match self {
            Ports::Alone(port) => port,
            Ports::All(carrier) => Port { carrier, number: 0 },
        }
    }
}

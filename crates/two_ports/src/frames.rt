//! The receiver for two antenna ports.

ghost use Rattle.soft_bits.specs.Pairs.{over_two};
ghost use Rattle.two_ports.specs.Entries.{two_ports_receiver};

use explain::{FrameReader, Informed, NumberedCell, Scheme, received_in, system_in};
use lte_types::{Carrier, CellPlace};
use pbch::Received;
use sample_file::Recording;
use sib1_reader::Decoders;
use soft_bits::{PortSlot, Ports};

/// The receiver for two antenna ports. It accepts MIBs with exactly two antenna ports. (own)
pub struct TwoPorts;

/// A received slot of a cell with two antenna ports, whose transmit diversity pairs are decoded.
pub type PairSlot = PortSlot<TwoPorts>;

impl Ports for TwoPorts {
    ghost pairing = { over_two };

    fn carrier() -> Carrier {
        Carrier::TwoPorts
    }

    fn scale() -> u8 {
        3
    }

    fn pair(i: usize) -> (u8, u8) {
        (0, 1)
    }
}

impl FrameReader for TwoPorts {
    ghost receiver = { two_ports_receiver };

    fn scheme(&self) -> Scheme {
        Scheme {
            carrier: Carrier::TwoPorts,
            most_frames: 4,
            ports: Some(2),
        }
    }

    fn received(&self, recording: &Recording, place: CellPlace, j: u8) -> Received {
        received_in::<PairSlot>(recording, place, j)
    }

    fn system_of(
        &self,
        recording: &Recording,
        cell: &NumberedCell,
        work: &mut Decoders,
    ) -> Informed {
        system_in::<PairSlot>(recording, cell.place, cell.sfn, cell.master, work)
    }
}

//! The receiver for four antenna ports.

ghost use Rattle.soft_bits.specs.Pairs.{over_four};
ghost use Rattle.four_ports.specs.Entries.{four_ports_receiver};

use explain::{FrameReader, Informed, NumberedCell, Scheme, received_in};
use lte_types::{Carrier, CellPlace, Sib1Reason};
use pbch::Received;
use sample_file::Recording;
use sib1_reader::Decoders;
use soft_bits::{PortSlot, Ports};

/// The receiver for four antenna ports. It accepts MIBs with exactly four antenna ports, and does not read SIB1. (own)
pub struct FourPorts;

/// A received slot of a cell with four antenna ports, whose transmit diversity pairs are decoded.
pub type FourSlot = PortSlot<FourPorts>;

impl Ports for FourPorts {
    ghost pairing = { over_four };

    fn carrier() -> Carrier {
        Carrier::FourPorts
    }

    fn scale() -> u8 {
        6
    }

    fn pair(i: usize) -> (u8, u8) {
        let odd = (i % 2) as u8;
        (odd, 2 + odd)
    }
}

impl FrameReader for FourPorts {
    ghost receiver = { four_ports_receiver };

    fn scheme(&self) -> Scheme {
        Scheme {
            carrier: Carrier::FourPorts,
            most_frames: 4,
            ports: Some(4),
        }
    }

    fn received(&self, recording: &Recording, place: CellPlace, j: u8) -> Received {
        received_in::<FourSlot>(recording, place, j)
    }

    fn system_of(
        &self,
        recording: &Recording,
        cell: &NumberedCell,
        work: &mut Decoders,
    ) -> Informed {
        Informed::not_read(Sib1Reason::NotOnePort(4))
    }
}

//! The receiver for one antenna port.

ghost use Rattle.explain.specs.Receiver.{one_port_receiver};

use crate::slots::received_in;
use crate::system::system_in;
use crate::{FrameReader, Informed, NumberedCell, Scheme};
use lte_types::{Carrier, CellPlace};
use pbch::Received;
use sample_file::Recording;
use sib1_reader::Decoders;
use soft_bits::Slot;

/// The receiver for one antenna port. It accepts every MIB, whatever its port count. (own)
pub struct OnePort;

impl FrameReader for OnePort {
    ghost receiver = { one_port_receiver };

    fn scheme(&self) -> Scheme {
        Scheme {
            carrier: Carrier::OnePort,
            most_frames: 4,
            ports: None,
        }
    }

    fn received(&self, recording: &Recording, place: CellPlace, j: u8) -> Received {
        received_in::<Slot>(recording, place, j)
    }

    fn system_of(
        &self,
        recording: &Recording,
        cell: &NumberedCell,
        work: &mut Decoders,
    ) -> Informed {
        system_in::<Slot>(recording, cell.place, cell.sfn, cell.master, work)
    }
}

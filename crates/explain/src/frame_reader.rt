//! The receiver of one transmission scheme.

ghost use Rattle.std.specs.Prelude.{◌≡◌, ◌≤◌, length};
ghost use Rattle.explain.specs.Frame.{IsWhole};
ghost use Rattle.explain.specs.Grant.{IsGrantFor};
ghost use Rattle.explain.specs.Blocks.{IsBlockFor};
ghost use Rattle.explain.specs.Receiver.{Receiver, scheme_of};
ghost use Rattle.explain.specs.System.{IsSystemFor};

use crate::{Informed, Scheme};
use lte_types::{CellPlace, Sfn};
use pbch::{Master, Received};
use sample_file::Recording;
use sib1_reader::Decoders;

/// A cell whose MIB was read, with the system frame number of its first frame.
#[derive(Clone, Copy)]
pub struct NumberedCell {
    /// The cell identity, and the sample at which the cell's first frame begins.
    pub place: CellPlace,
    /// The system frame number of the first frame.
    pub sfn: Sfn,
    /// The MIB and its antenna port count.
    pub master: Master,
}

/// A receiver of one transmission scheme: its constants, the PBCH soft values of each frame, and the system information
/// of a cell. (own)
pub trait FrameReader {
    ghost receiver: { Receiver };

    /// Returns the constants of the receiver.
    fn scheme(&self) -> Scheme
        ensures value { result ≡ scheme_of receiver }
        ensures some { 1 ≤ result.most_frames }
        ensures few { result.most_frames ≤ 4 };

    /// Returns the PBCH soft values of frame `j` of a cell. The frame lies within `recording`.
    fn received(&self, recording: &Recording, place: CellPlace, j: u8) -> Received
        requires { IsWhole recording.now place.start j }
        ensures values { result ≡ receiver.broadcast recording.now place j }
        ensures length { length result ≡ receiver.count };

    /// Returns the system information of `cell`, and the control format indicator, grant and transport block with which
    /// it was read.
    fn system_of(&self, recording: &Recording, cell: &NumberedCell, work: &mut Decoders) -> Informed
        ensures sib1 { IsSystemFor receiver recording.now cell.now.place cell.now.sfn cell.now.master.ports
            cell.now.master.mib result.sib1 }
        ensures granted { IsGrantFor receiver recording.now cell.now.place cell.now.sfn cell.now.master.mib
            result.sib1 result.granted }
        ensures block { IsBlockFor receiver recording.now cell.now.place cell.now.sfn cell.now.master.mib
            result.sib1 result.block.items };
}

//! The choice of the receiver for a transmission scheme.

ghost use Rattle.std.specs.Prelude.{◌≡◌};
ghost use Rattle.explain.specs.Frame.{IsWhole};
ghost use Rattle.evidence.specs.Evidence.{shown_in as shown_in_of};

use crate::SlotShown;
use crate::slot::{shown_of, shown_of_long};
use four_ports::FourPorts;
use lte_types::{Carrier, CellPlace};
use sample_file::Recording;
use soft_bits::Single;
use two_ports::TwoPorts;

// Returns the measurements of the slot with the PBCH in frame `j`, which lies within the recording.
pub(crate) fn shown_in(
    recording: &Recording,
    carrier: Carrier,
    place: CellPlace,
    j: u8,
) -> SlotShown
    requires { IsWhole recording.now place.start j }
    ensures { result ≡ shown_in_of carrier recording.now place j }
{
    match carrier {
        Carrier::OnePort => shown_of::<Single>(recording, place, j),
        Carrier::TwoPorts => shown_of::<TwoPorts>(recording, place, j),
        Carrier::LongPrefix => shown_of_long(recording, place, j),
        Carrier::FourPorts => shown_of::<FourPorts>(recording, place, j),
    }
}

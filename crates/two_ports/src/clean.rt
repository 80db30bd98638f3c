//! The list of cells with two antenna ports.
//!
//! Frames are decoded by transmit diversity pairs (TS 36.211 section 6.3.4.3), and only MIBs with two antenna ports are
//! accepted.

ghost use Rattle.std.specs.Prelude.{All, IfOk};
ghost use Rattle.std.specs.List.{AllZip};
ghost use Rattle.lte_types.specs.Ranges.{IsValid};
ghost use Rattle.clean_air.specs.Clean.{IsListBy};
ghost use Rattle.two_ports.specs.Entries.{two_ports_receiver, IsReadingOfTwo};

use crate::Workspace2;
use crate::frames::TwoPorts;
use clean_air::{CleanReader, explain_clean_by};
use explain::EntryList;
use sample_file::Recording;

impl CleanReader for TwoPorts {
    fn holds_cells() {}

    fn faithful_cells_are_heard() {}
}

/// Lists the cells with two antenna ports by `clean_air::explain_clean_by`, each with SIB1 or the reason why it was not
/// decoded. (own)
pub fn explain_clean(recording: &Recording, work: &mut Workspace2, list: &mut EntryList)
    ensures list { IsListBy two_ports_receiver recording.now list.new }
    ensures readings { AllZip (IsReadingOfTwo recording.now) list.new work.new }
    ensures valid { All (λ entry. IfOk entry.sib1 IsValid) list.new }
{
    explain_clean_by(&TwoPorts, recording, None, work, list);
}

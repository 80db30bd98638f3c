//! The list of cells with four antenna ports.
//!
//! Frames are decoded by transmit diversity pairs (TS 36.211 section 6.3.4.3), and only MIBs with four antenna ports
//! are accepted. SIB1 is not decoded: each entry has the reason `NotOnePort(4)`.

ghost use Rattle.std.specs.Prelude.{◌≡◌, All, IfOk, Err};
ghost use Rattle.std.specs.List.{AllZip};
ghost use Rattle.lte_types.specs.Ranges.{IsValid};
ghost use Rattle.lte_types.specs.declared.sib1_reason.Sib1Reason.TheVariants.{NotOnePort as HasPorts};
ghost use Rattle.clean_air.specs.Clean.{IsListBy};
ghost use Rattle.four_ports.specs.Entries.{four_ports_receiver, IsReadingOfFour};

use crate::Workspace4;
use crate::frames::FourPorts;
use clean_air::{CleanReader, explain_clean_by};
use explain::EntryList;
use sample_file::Recording;

impl CleanReader for FourPorts {
    fn holds_cells() {}

    fn faithful_cells_are_heard() {}
}

/// Lists the cells with four antenna ports by `clean_air::explain_clean_by`, each without SIB1 for the reason
/// `NotOnePort(4)`. (own)
pub fn explain_clean(recording: &Recording, work: &mut Workspace4, list: &mut EntryList)
    ensures list { IsListBy four_ports_receiver recording.now list.new }
    ensures readings { AllZip (IsReadingOfFour recording.now) list.new work.new }
    ensures reason { All (λ entry. entry.sib1 ≡ Err (HasPorts 4)) list.new }
    ensures valid { All (λ entry. IfOk entry.sib1 IsValid) list.new }
{
    explain_clean_by(&FourPorts, recording, None, work, list);
}

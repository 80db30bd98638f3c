//! The list of cells with the extended cyclic prefix.
//!
//! Each MIB is decoded from one frame (`single`), whatever its antenna port count. SIB1 is not decoded: each entry has
//! the reason `LongPrefix`. For a `LongPlan`, `holds` states the same promise as `list`.

ghost use Rattle.std.specs.Prelude.{◌≡◌, All, IfOk, Err};
ghost use Rattle.std.specs.List.{AllZip};
ghost use Rattle.lte_types.specs.declared.sib1_reason.Sib1Reason.TheVariants.{LongPrefix as IsLong};
ghost use Rattle.lte_types.specs.Ranges.{IsValid};
ghost use Rattle.clean_air.specs.Clean.{IsListBy};
ghost use Rattle.clean_air.specs.HeardLaws.{FaithfulIsHeard};
ghost use Rattle.long_prefix.specs.Clean.{HoldsPlans};
ghost use Rattle.long_prefix.specs.Entries.{long_prefix_receiver, IsReadingOfLong};

use crate::Workspace3;
use crate::reading::ExtendedPrefix;
use clean_air::{CleanReader, explain_clean_by};
use explain::EntryList;
use sample_file::Recording;

impl CleanReader for ExtendedPrefix {
    fn holds_cells() {}

    fn faithful_cells_are_heard() {}
}

/// Lists the cells with the extended cyclic prefix by `clean_air::explain_clean_by`, each without SIB1 for the reason
/// `LongPrefix`. (own)
pub fn explain_clean(recording: &Recording, work: &mut Workspace3, list: &mut EntryList)
    ensures list { IsListBy long_prefix_receiver recording.now list.new }
    ensures readings { AllZip (IsReadingOfLong recording.now) list.new work.new }
    ensures holds { HoldsPlans recording.now list.new }
    ensures single { All (λ entry. entry.frames ≡ 1) list.new }
    ensures reason { All (λ entry. entry.sib1 ≡ Err IsLong) list.new }
    ensures valid { All (λ entry. IfOk entry.sib1 IsValid) list.new }
{
    explain_clean_by(&ExtendedPrefix, recording, None, work, list);
}

/// A law: a cell with the extended cyclic prefix is detected, signal by signal (`IsHeardBy`,
/// `clean_air/specs/Heard.antt`), if the recording is faithful to the cell.
pub fn faithful_cells_are_heard()
    ensures { FaithfulIsHeard long_prefix_receiver }
{
    ExtendedPrefix::faithful_cells_are_heard();
}

//! The grant of an entry's system information.

ghost use Rattle.std.specs.Prelude.{◌≡◌, IsNone, IsErr, ◌↔◌};
ghost use Rattle.explain.specs.Entries.{IsInList, master_of as master_of_entry};
ghost use Rattle.explain.specs.Grant.{IsGrantOf, IsOneGrant};

use crate::Workspace;
use crate::cells::place_in;
use crate::system::system_in;
use dci::Grant;
use lte_types::{Cfi, Entry};
use pbch::Master;
use sample_file::Recording;
use soft_bits::Slot;

/// Returns the control format indicator and the grant with which a listed entry's SystemInformationBlockType1 was read,
/// or `None` if it was not read. Reads the frames again, unlike `Workspace::readings`.
pub fn grant_of(recording: &Recording, entry: &Entry, work: &mut Workspace) -> Option<(Cfi, Grant)>
    requires { IsInList recording.now entry.now }
    ensures grant { IsGrantOf recording.now entry.now result }
    ensures none { IsNone result ↔ IsErr entry.now.sib1 }
    ensures readings { work.new ≡ work.old }
{
    let place = place_in(entry);
    let master = master_in(entry);
    system_in::<Slot>(
        recording,
        place,
        entry.sfn,
        master,
        &mut work.notes.decoders,
    )
    .granted
}

// Returns an entry's MIB.
fn master_in(entry: &Entry) -> Master
    ensures { result ≡ master_of_entry entry.now }
{
    Master {
        ports: entry.ports,
        mib: entry.mib,
        cost: entry.cost,
    }
}

/// A law: for any receiver, there is only one control format indicator and grant with which a cell's system information
/// was read.
pub fn one_grant()
    ensures { IsOneGrant }
{}

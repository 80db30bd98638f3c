//! The plan with which a listed cell was sent.
//!
//! The identity, PHICH fields, spare bits and SIB1 come from the entry. The control format indicator, resource blocks,
//! modulation and coding scheme, and column come from the grant with which SIB1 was read (`grant_of`). There is no plan
//! if `grant_of` returns `None`, if the entry has more than one antenna port or a bandwidth other than n6, or if
//! `Cell::new` refuses the plan; otherwise there is one.

ghost use Rattle.std.specs.Prelude.{◌≡◌, ◌↔◌, IsTrue};
ghost use Rattle.lte_types.specs.declared.bandwidth.Bandwidth.TheVariants.{N6};
ghost use Rattle.explain.specs.Entries.{IsInList};
ghost use Rattle.explain.specs.Grant.{IsGrantOf};
ghost use Rattle.clean_air.specs.Planned.{plan_by as plan_made_by, IsPlanOf, IsFaithfulPlan, IsSentPlan};
ghost use Rattle.clean_air.specs.Planned.{FaithfulEntryHasPlan, SentEntryHasPlan, IsOnePlan};

use cell_plan::{Cell, CellPlan};
use dci::Grant;
use explain::{Workspace, grant_of};
use lte_types::{Bandwidth, Cfi, Entry, Sib1};
use sample_file::Recording;

/// Returns the plan with which the cell of `entry` was sent, or `None` if there is none, and reads the frames of
/// `recording` again. For a clean or faithful recording, this is the sent plan. (own)
pub fn plan_of(recording: &Recording, entry: &Entry, work: &mut Workspace) -> Option<Cell>
    requires { IsInList recording.now entry.now }
    ensures plan { IsPlanOf recording.now entry.now result }
    ensures faithful { IsFaithfulPlan recording.now entry.now result }
    ensures sent { IsSentPlan recording.now entry.now result }
    ensures readings { work.new ≡ work.old }
{
    plan_granted(recording, entry, grant_of(recording, entry, work))
}

/// Returns the result of `plan_of` from an indicator and grant that are already known (`Workspace::readings`), without
/// reading any frame again. `entry` must be in the list of `recording`. (own)
pub fn plan_granted(
    recording: &Recording,
    entry: &Entry,
    granted: Option<(Cfi, Grant)>,
) -> Option<Cell>
    requires listed { IsInList recording.now entry.now }
    requires granted { IsGrantOf recording.now entry.now granted }
    ensures plan { IsPlanOf recording.now entry.now result }
    ensures faithful { IsFaithfulPlan recording.now entry.now result }
    ensures sent { IsSentPlan recording.now entry.now result }
{
    let count = recording.len();
    prove!(57_600 <= count);
    decoded_plan(recording, entry, granted)
}

// Returns the result of `plan_granted`. The promises of `plan_granted` on faithful and clean recordings follow from
// this function's clause.
fn decoded_plan(recording: &Recording, entry: &Entry, granted: Option<(Cfi, Grant)>) -> Option<Cell>
    requires listed { IsInList recording.now entry.now }
    requires granted { IsGrantOf recording.now entry.now granted }
    ensures { IsPlanOf recording.now entry.now result }
{
    let Some(decoded) = granted else {
        return None;
    };
    let Ok(sib1) = &entry.sib1 else {
        return None;
    };
    if !is_plain(entry) {
        return None;
    }
    match Cell::new(plan_by(entry, decoded.0, &decoded.1, sib1)) {
        Ok(cell) => Some(cell),
        Err(_) => None,
    }
}

// Returns whether the entry has one antenna port and bandwidth n6.
fn is_plain(entry: &Entry) -> bool
    ensures { IsTrue result ↔ ((entry.now.ports ≡ 1) × (entry.now.mib.bandwidth ≡ N6)) }
{
    entry.ports == 1 && entry.mib.bandwidth == Bandwidth::N6
}

// Returns the plan that combines the fields of `entry` with the indicator `cfi`, `grant` and `sib1`.
fn plan_by(entry: &Entry, cfi: Cfi, grant: &Grant, sib1: &Sib1) -> CellPlan
    ensures { result ≡ plan_made_by entry.now cfi grant.now sib1.now }
{
    CellPlan {
        identity: entry.id.value(),
        duration: entry.mib.duration,
        resource: entry.mib.resource,
        spare: entry.mib.spare,
        cfi: cfi.value(),
        start: grant.start,
        blocks: grant.blocks,
        mcs: grant.mcs,
        column: grant.column,
        sib1: sib1.copy(),
    }
}

/// A law: an entry has at most one plan.
pub fn one_plan()
    ensures { IsOnePlan }
{}

/// A law: if the recording is faithful to a cell whose plan can be sent, the cell's entry has the sent plan, whatever
/// else the cell sends.
pub fn faithful_entry_has_plan()
    ensures { FaithfulEntryHasPlan }
{}

/// A law: if the recording is clean for a cell whose plan can be sent, the cell's entry has the sent plan.
pub fn sent_entry_has_plan()
    ensures { SentEntryHasPlan }
{}

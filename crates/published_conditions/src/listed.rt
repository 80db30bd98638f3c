//! Calls that need an entry in a recording's cell list, made with an entry that `explain` has just listed.

use dci::Grant;
use explain::{EntryList, Workspace, explain, grant_of, values_of};
use lte_types::Cfi;
use sample_file::Recording;

/// Calls `explain::values_of` with list entry `i`.
pub fn values_at(
    recording: &Recording,
    work: &mut Workspace,
    list: &mut EntryList,
    i: usize,
) -> Option<[[i32; 3]; 40]> {
    explain(recording, work, list);
    match list.slice().get(i) {
        Some(entry) => Some(values_of(recording, entry)),
        None => None,
    }
}

/// Calls `explain::grant_of` with list entry `i`.
pub fn grant_at(
    recording: &Recording,
    work: &mut Workspace,
    list: &mut EntryList,
    i: usize,
) -> Option<(Cfi, Grant)> {
    explain(recording, work, list);
    match list.slice().get(i) {
        Some(entry) => grant_of(recording, entry, work),
        None => None,
    }
}

//! Lists of entries.

ghost use Rattle.std.specs.Prelude.{◌≡◌, ◌≤◌, ◌<◌, List, [], length, slice_set, IfOk};
ghost use Rattle.std.specs.List.{insert as insert_at, HoldsAt};
ghost use Rattle.std.specs.Vec.{vec_capacity};
ghost use Rattle.lte_types.specs.declared.entry.Entry.{Entry as EntryValue};
ghost use Rattle.explain.specs.Entries.{with_system};

use lte_types::{Entry, Sib1, Sib1Reason};
use std::alloc::{AllocError, Global};
use std::marker::Model;

/// A list of entries with capacity for 23,040: four MIBs for each of 5,760 hits. Contracts see it as the list of its
/// items.
#[derive(Drop)]
pub struct EntryList {
    entries: Vec<Entry>,
}

impl Model for EntryList {
    ghost Value = { List EntryValue };

    ghost view = { λ l. l.entries.items };

    ghost invariant = { λ l. 23040 ≤ vec_capacity l.entries };
}

impl EntryList {
    /// Returns an empty list. Fails only if its allocation fails.
    pub fn new(alloc: Global) -> Result<Self, AllocError>
        ensures { IfOk result (λ l. l ≡ []) }
    {
        Ok(EntryList {
            entries: Vec::with_capacity(alloc, 23_040)?,
        })
    }

    /// Returns the entries in order.
    pub fn slice(&self) -> &[Entry]
        ensures { result.now ≡ self.now }
    {
        &self.entries
    }

    /// Removes all entries.
    pub fn clear(&mut self)
        ensures { self.new ≡ [] }
    {
        self.entries.clear();
    }

    /// Inserts `item` at index `at`; the entries from `at` on move up by one. Does not allocate.
    pub fn insert(&mut self, at: usize, item: Entry)
        requires at { at ≤ length self.old }
        requires room { length self.old < 23040 }
        ensures { self.new ≡ insert_at self.old at item }
    {
        match self.entries.insert(at, item) {
            Ok(()) => {}
            Err(_) => unreachable!(),
        }
    }

    /// Replaces the system information of the entry at index `at`, or the reason for its absence, by `sib1`.
    pub fn set_system(&mut self, at: usize, sib1: Result<Sib1, Sib1Reason>)
        requires { at < length self.old }
        ensures { HoldsAt (λ entry. self.new ≡ slice_set self.old at (with_system entry sib1)) self.old at }
    {
        self.entries[at].sib1 = sib1;
    }
}

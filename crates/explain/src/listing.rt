//! A list of entries, in order and with each cell once.

ghost use Rattle.std.specs.Prelude.{◌≡◌, ◌+◌, ◌<◌, ◌≤◌, ◌↔◌, [], ◌∷◌, false, IfSome, IsNone, IsSome, IsTrue, length};
ghost use Rattle.std.specs.List.{AllWithin, HoldsAt, list_any};
ghost use Rattle.lte_types.specs.Numerology.{cycle_length};
ghost use Rattle.explain.specs.Entries.{IsBefore, IsPut, Adds, epoch as epoch_of, is_same_cell as same_cell};

use crate::EntryList;
use lte_types::{CYCLE_LENGTH, Entry, FRAME_LENGTH};

// The number of samples in 1,024 frames, after which system frame numbers repeat.
const CYCLE: u32 = CYCLE_LENGTH as u32;

impl EntryList {
    /// Inserts an entry after the leading entries that come before it by start, identity and frame number, and returns
    /// its index. Returns `None`, without a change, if its cell has an entry in the list. Does not allocate.
    pub fn add(&mut self, entry: Entry) -> Option<usize>
        requires room { length self.old < 23040 }
        ensures adds { Adds (entry ∷ []) self.old self.new }
        ensures new { IsSome result ↔ (list_any (λ other. same_cell other entry) self.old ≡ false) }
        ensures put { IfSome result (λ at. IsPut entry at self.old self.new) }
        ensures none { IsNone result → self.new ≡ self.old }
        ensures one { length self.new ≤ length self.old + 1 }
    {
        if has_cell(self.slice(), &entry) {
            return None;
        }
        let at = index_of(self.slice(), &entry);
        self.insert(at, entry);
        Some(at)
    }
}

// Returns an entry's epoch: the sample at which system frame 0 begins, modulo the samples of 1,024 frames.
fn epoch(entry: &Entry) -> u32
    ensures value { result ≡ epoch_of entry.now }
    ensures small { result < cycle_length }
{
    let before = FRAME_LENGTH as u32 * entry.sfn.value() as u32;
    (entry.start % CYCLE + (CYCLE - before)) % CYCLE
}

// Returns whether two entries belong to one cell: equal identities, and epochs at most 9 samples apart.
fn is_same_cell(a: &Entry, b: &Entry) -> bool
    ensures { result ≡ same_cell a.now b.now }
{
    let gap = epoch(a).abs_diff(epoch(b));
    a.id == b.id && gap.min(CYCLE - gap) <= 9
}

// Returns whether `a` is listed before `b`: by start, then by identity, then by frame number.
fn is_before(a: &Entry, b: &Entry) -> bool
    ensures { IsTrue result ↔ IsBefore a.now b.now }
{
    (a.start, a.id.value(), a.sfn.value()) < (b.start, b.id.value(), b.sfn.value())
}

// Returns whether the list has an entry for the cell of `entry`.
fn has_cell(list: &[Entry], entry: &Entry) -> bool
    ensures { result ≡ list_any (λ other. same_cell other entry.now) list.now }
{
    list.iter().any(|other| is_same_cell(other, entry))
}

// Returns the number of leading entries in `list` that come before `entry`.
fn index_of(list: &[Entry], entry: &Entry) -> usize
    ensures within { result ≤ length list.now }
    ensures before { AllWithin (λ other. IsBefore other entry.now) list.now 0 result }
    ensures after { result < length list.now → HoldsAt (λ other. ¬ IsBefore other entry.now) list.now result }
{
    for (at, other) in list.iter().enumerate() {
        if !is_before(other, entry) {
            return at;
        }
    }
    list.len()
}

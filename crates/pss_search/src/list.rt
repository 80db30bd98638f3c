//! The list of hits.

ghost use Rattle.std.specs.Prelude.{◌≡◌, ℕ, ◌+◌, ◌≤◌, ◌<◌, List, [], ◌∷◌, ◌++◌, length, IfOk, All};
ghost use Rattle.std.specs.Option.{option_to_list};
ghost use Rattle.std.specs.Vec.{vec_capacity};
ghost use Rattle.lte_types.specs.declared.Hit.{Hit};
ghost use Rattle.lte_types.specs.Numerology.{frame_length};
ghost use Rattle.pss_search.specs.Hits.{IsInSpan, IsSmallHit, hits_before, hits_of};
ghost use Rattle.pss_search.specs.Steps.{IsMetricOf, so_far};
ghost use Rattle.pss_search.specs.Strongest.{IsStrongest};

use crate::choose::{FIRST_PLACE, hit_of, may_be_hit};
use crate::recent::Recent;
use crate::signals::Root;
use crate::strongest::{AFTER_START, Measured, measured_at, stronger, strongest_at_start};
use lte_types::{FRAME_LENGTH, Hit};
use sample_file::Recording;
use std::alloc::{AllocError, Global};
use std::marker::Model;

/// A list of hits with capacity for 5,760, which no recording exceeds. Contracts see it as the list of its items.
#[derive(Drop)]
pub struct HitList {
    hits: Vec<Hit>,
}

impl Model for HitList {
    ghost Value = { List Hit };

    ghost view = { λ l. l.hits.items };

    ghost invariant = { λ l. 5760 ≤ vec_capacity l.hits };
}

impl HitList {
    /// Returns an empty list. Fails only if its allocation fails.
    pub fn new(alloc: Global) -> Result<Self, AllocError>
        ensures { IfOk result (λ l. l ≡ []) }
    {
        Ok(HitList {
            hits: Vec::with_capacity(alloc, 5760)?,
        })
    }

    /// Returns the hits in order.
    pub fn slice(&self) -> &[Hit]
        ensures { result.now ≡ self.now }
    {
        &self.hits
    }

    fn clear(&mut self)
        ensures { self.new ≡ [] }
    {
        self.hits.clear();
    }

    fn add(&mut self, hit: Hit)
        requires { length self.old < 5760 }
        ensures { self.new ≡ self.old ++ hit ∷ [] }
    {
        match self.hits.push(hit) {
            Ok(()) => {}
            Err(_) => unreachable!(),
        }
    }
}

/// Replaces the list with the recording's hits at positions 137 to 19,336 (one frame), ordered by position, then by
/// identity within the group. Peaks are at most 2^59, energies at most 2^38. Does not allocate. (own)
pub fn hits(recording: &Recording, list: &mut HitList)
    ensures list { list.new ≡ hits_of recording.now }
    ensures span { All IsInSpan list.new }
    ensures small { All IsSmallHit list.new }
{
    let mut recent = Recent::new(recording);
    list.clear();
    for i in 0..FRAME_LENGTH {
        recent.advance();
        add_hits(&recent, i, list);
    }
}

/// Replaces `list` as `hits` does, and returns the position, 128 to 19,345, at which the PSS `n2`, 0 to 2, is
/// strongest, with its metric; the first of several. Allocates nothing. (own)
pub fn hits_and_strongest(recording: &Recording, n2: u8, list: &mut HitList) -> Measured
    requires { n2 ≤ 2 }
    ensures list { list.new ≡ hits_of recording.now }
    ensures span { All IsInSpan list.new }
    ensures small { All IsSmallHit list.new }
    ensures strongest { IsStrongest recording.now n2 result.t }
    ensures metric { IsMetricOf recording.now n2 result.t result.metric }
{
    let mut recent = Recent::new(recording);
    let mut best = strongest_at_start(&recent, n2);
    list.clear();
    for offset in 0..FRAME_LENGTH {
        recent.advance();
        best = stronger(best, measured_at(&recent, n2, AFTER_START + offset));
        add_hits(&recent, offset, list);
    }
    best
}

// Appends the hits at position `i`, 0 to 19,199, of the search range.
#[inline(always)]
fn add_hits(recent: &Recent, i: usize, list: &mut HitList)
    requires i { i < frame_length }
    requires middle { recent.now.place ≡ i + 147 }
    requires before { list.old ≡ hits_before recent.now.recording i }
    requires small { All IsSmallHit list.old }
    ensures list { list.new ≡ hits_before recent.now.recording (i + 1) }
    ensures small { All IsSmallHit list.new }
{
    if may_be_hit(recent, FIRST_PLACE + i) {
        add_of(recent, &Root::new(0), i, list);
        add_of(recent, &Root::new(1), i, list);
        add_of(recent, &Root::new(2), i, list);
    }
}

// Appends the hit of the primary signal `root` at position `i` of the span, if there is one.
fn add_of(recent: &Recent, root: &Root, i: usize, list: &mut HitList)
    requires i { i < frame_length }
    requires middle { recent.now.place ≡ i + 147 }
    requires before { list.old ≡ so_far recent.now.recording i root.now.n2 }
    requires small { All IsSmallHit list.old }
    ensures list { list.new ≡ so_far recent.now.recording i (root.now.n2 + 1) }
    ensures small { All IsSmallHit list.new }
{
    match hit_of(recent, root, FIRST_PLACE + i) {
        Some(hit) => list.add(hit),
        None => {}
    }
}

//! A sweep with the metrics of the last 19 positions.

ghost use Rattle.std.specs.Prelude.{◌≡◌, ◌+◌, ◌<◌, ◌≤◌};
ghost use Rattle.pss_search.specs.Metrics.{Standing, end_place};
ghost use Rattle.pss_search.specs.Steps.{IsMetricOf, IsRowOf};
ghost use Rattle.lte_types.specs.Numerology.{useful_length};

use crate::measure::{Metric, PlaceSums, Sweep};
use sample_file::Recording;
use std::marker::Model;

// The number of positions whose metrics decide whether a position is a hit: the position itself, and nine on each side.
const PLACES: usize = 19;

// The number of rows that are kept. A power of two makes u modulo 32 cheap to compute.
const ROWS: usize = 32;

// A sweep, and the rows of at least its last 19 positions; the row of position u is at index u modulo 32.
#[derive(Drop)]
pub(crate) struct Recent<'a> {
    sweep: Sweep<'a>,
    rows: [PlaceSums; 32],
}

impl<'a> Model for Recent<'a> {
    ghost use Rattle.pss_search.specs.Metrics.{Standing};
    ghost use Rattle.pss_search.specs.Steps.{HoldsLast};

    ghost Value = { Standing };

    ghost view = { λ w. w.sweep };

    ghost invariant = { λ w. HoldsLast w.sweep.recording w.sweep.place w.rows };
}

impl<'a> Recent<'a> {
    // Returns a sweep whose next position is 128, without measured rows.
    fn empty(recording: &'a Recording) -> Recent<'a>
        ensures recording { result.recording ≡ recording.now }
        ensures place { result.place ≡ useful_length }
    {
        Recent {
            sweep: Sweep::new(recording),
            rows: [PlaceSums::EMPTY; 32],
        }
    }

    // Returns a sweep whose next position is 146, the last that is needed to decide on the first position of the span.
    pub(crate) fn new(recording: &'a Recording) -> Recent<'a>
        ensures recording { result.recording ≡ recording.now }
        ensures place { result.place ≡ 146 }
    {
        let mut recent = Recent::empty(recording);
        for _ in 1..PLACES {
            recent.advance();
        }
        recent
    }

    // Measures the next position, and keeps its row.
    #[inline(always)]
    pub(crate) fn advance(&mut self)
        requires { self.old.place < end_place }
        ensures recording { self.new.recording ≡ self.old.recording }
        ensures place { self.new.place ≡ self.old.place + 1 }
    {
        let place = self.sweep.place();
        if let Some(row) = self.sweep.measure() {
            self.rows[place % ROWS] = row;
        }
    }

    // Returns the row of position `u`, one of the last 19 measured.
    pub(crate) fn row(&self, u: usize) -> PlaceSums
        requires first { useful_length ≤ u }
        requires measured { u < self.now.place }
        requires kept { self.now.place ≤ u + 19 }
        ensures { IsRowOf self.now.recording u result }
    {
        self.rows[u % ROWS]
    }

    // Returns the metric for the primary signal `n2` at position `u`, one of the last 19 measured.
    pub(crate) fn metric(&self, n2: u8, u: usize) -> Metric
        requires root { n2 ≤ 2 }
        requires first { useful_length ≤ u }
        requires measured { u < self.now.place }
        requires kept { self.now.place ≤ u + 19 }
        ensures { IsMetricOf self.now.recording n2 u result }
    {
        self.row(u).metric(n2)
    }
}

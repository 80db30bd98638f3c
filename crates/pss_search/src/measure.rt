//! The metrics of PSS detection, measured position by position.

ghost use Rattle.std.specs.Prelude.{◌≡◌, ℕ, ◌+◌, ◌*◌, ◌^◌, ◌<◌, ◌≤◌, ◌↔◌, List, All, length, IsNone, IfNone, IfSome};
ghost use Rattle.cs_num.specs.declared.Sample.{Sample as SampleValue};
ghost use Rattle.cs_num.specs.Complex.{IsWithin, square, value_of, sample_at};
ghost use Rattle.pss_search.specs.Correlation.{energy};
ghost use Rattle.pss_search.specs.Metrics.{Standing, metrics_at, end_place};
ghost use Rattle.pss_search.specs.Products.{correlations_at};
ghost use Rattle.pss_search.specs.Steps.{IsSmallMetric, IsMetricOf, IsRowOf};
ghost use Rattle.lte_types.specs.Numerology.{useful_length};

use crate::products::{Stretch, correlations};
use cs_num::{Cpx, Sample};
use lte_types::USEFUL_LENGTH;
use sample_file::Recording;
use std::marker::Model;

// The first position that is measured, nine before the span in which hits are searched.
const START: usize = 128;

// One past the last position that is measured; the last is nine after the span.
const END: usize = 19_346;

/// The measurement at one position against one of the three primary signals. (own)
#[derive(Clone, Copy, Debug, PartialEq, Eq)]
pub struct Metric {
    /// The squared magnitude of the correlation with the signal, below 2^70.
    pub peak: u128,
    /// The energy of the 128 samples from the position, at most 2^38.
    pub energy: u64,
}

// The measurement at one position against all three primary signals: a peak for each, at most 2^63, and the energy.
#[derive(Clone, Copy)]
pub(crate) struct PlaceSums {
    pub peaks: [u64; 3],
    pub energy: u64,
}

impl PlaceSums {
    pub(crate) const EMPTY: PlaceSums = PlaceSums {
        peaks: [0; 3],
        energy: 0,
    };

    // Returns the metric for the primary signal `n2`, 0 to 2.
    pub(crate) fn metric(&self, n2: u8) -> Metric
        requires { n2 ≤ 2 }
        ensures { (recording : List SampleValue) → (t : ℕ) → IsRowOf recording t self.now →
            IsMetricOf recording n2 t result }
    {
        Metric {
            peak: self.peaks[n2 as usize] as u128,
            energy: self.energy,
        }
    }

    // Returns the metrics for the three primary signals.
    fn metrics(&self) -> [Metric; 3]
        ensures value { (recording : List SampleValue) → (t : ℕ) → IsRowOf recording t self.now →
            result ≡ metrics_at recording t }
        ensures small { (recording : List SampleValue) → (t : ℕ) → IsRowOf recording t self.now →
            All IsSmallMetric result }
    {
        [self.metric(0), self.metric(1), self.metric(2)]
    }
}

/// A sweep that measures positions 128 to 19,345 of a recording in turn: one frame, and nine positions on each side.
/// Contracts see the recording's samples and the next position. Does not allocate. (own)
#[derive(Drop)]
pub struct Sweep<'a> {
    samples: &'a [Sample],
    place: usize,
    energy: u64,
    stretch: Stretch,
}

impl<'a> Model for Sweep<'a> {
    ghost use Rattle.std.specs.Prelude.{◌≡◌, ◌≤◌};
    ghost use Rattle.pss_search.specs.Metrics.{Standing};
    ghost use Rattle.pss_search.specs.Products.{IsStretchOf};
    ghost use Rattle.pss_search.specs.Steps.{IsReady};

    ghost Value = { Standing };

    ghost view = { λ s. record { recording = s.samples.now; place = s.place } };

    ghost invariant = { λ s.
        IsReady s.samples.now s.place s.energy × IsStretchOf s.samples.now s.stretch
        × (s.stretch.from ≤ s.place) };
}

impl<'a> Sweep<'a> {
    /// Returns a sweep of `recording` whose next position is 128.
    pub fn new(recording: &'a Recording) -> Sweep<'a>
        ensures recording { result.recording ≡ recording.now }
        ensures place { result.place ≡ useful_length }
    {
        let samples = recording.as_slice();
        Sweep {
            samples,
            place: START,
            energy: energy_sum(samples, START),
            stretch: Stretch::new(samples, START),
        }
    }

    /// Returns the next position to measure, 128 to 19,346; at 19,346 the sweep has ended.
    pub fn place(&self) -> usize
        ensures place { result ≡ self.now.place }
        ensures first { useful_length ≤ result }
        ensures end { result ≤ end_place }
    {
        self.place
    }

    /// Returns the next position's metrics for the three primary signals, and advances by one. Returns `None`, without
    /// advancing, if the next position is 19,346, the end.
    pub fn step(&mut self) -> Option<[Metric; 3]>
        ensures end { IsNone result ↔ (self.old.place ≡ end_place) }
        ensures stays { IfNone result (self.new ≡ self.old) }
        ensures value { IfSome result (λ metrics. metrics ≡ metrics_at self.old.recording self.old.place) }
        ensures small { IfSome result (All IsSmallMetric) }
        ensures recording { self.new.recording ≡ self.old.recording }
        ensures place { IfSome result (λ _. self.new.place ≡ self.old.place + 1) }
    {
        match self.measure() {
            Some(row) => Some(row.metrics()),
            None => None,
        }
    }

    // Returns the next position's peaks and energy, and advances by one; at the end, returns `None`.
    #[inline(always)]
    pub(crate) fn measure(&mut self) -> Option<PlaceSums>
        ensures end { IsNone result ↔ (self.old.place ≡ end_place) }
        ensures stays { IfNone result (self.new ≡ self.old) }
        ensures value { IfSome result (IsRowOf self.old.recording self.old.place) }
        ensures recording { self.new.recording ≡ self.old.recording }
        ensures place { IfSome result (λ _. self.new.place ≡ self.old.place + 1) }
    {
        if self.place == END {
            return None;
        }
        self.stretch.reach(self.samples, self.place);
        let sums = correlations(self.samples, self.place, &self.stretch);
        let row = row_of(&sums, self.energy);
        self.energy = next_energy(self.samples, self.place, self.energy);
        self.place += 1;
        Some(row)
    }
}

// Returns the row for a position's correlations with the three primary signals and its energy.
fn row_of(sums: &[Cpx; 3], total: u64) -> PlaceSums
    requires small { All (IsWithin (2 ^ 31)) sums.now }
    requires few { total ≤ 2 ^ 38 }
    ensures { (recording : List SampleValue) → (t : ℕ) → sums.now ≡ correlations_at recording t →
        total ≡ energy recording t → IsRowOf recording t result }
{
    let peaks = [square_of(sums[0]), square_of(sums[1]), square_of(sums[2])];
    PlaceSums {
        peaks,
        energy: total,
    }
}

// Returns the squared magnitude of `number`, whose components are small enough that the result fits 64 bits.
fn square_of(number: Cpx) -> u64
    requires { IsWithin (2 ^ 31) number }
    ensures value { result ≡ square number }
    ensures small { result ≤ 2 ^ 63 }
{
    let re = number.re.unsigned_abs();
    let im = number.im.unsigned_abs();
    re * re + im * im
}

// Returns the energy at position `t + 1`, given the energy `total` at `t`: subtracts sample `t`'s contribution and adds
// that of sample `t + 128`.
fn next_energy(samples: &[Sample], t: usize, total: u64) -> u64
    requires room { t + 129 ≤ length samples.now }
    requires energy { total ≡ energy samples.now t }
    requires few { total ≤ 2 ^ 38 }
    ensures value { result ≡ energy samples.now (t + 1) }
    ensures last { square (sample_at samples.now (t + useful_length)) ≤ 2 ^ 31 }
{
    total - energy_part(samples[t]) + energy_part(samples[t + USEFUL_LENGTH])
}

// Returns the energy at position `t`: the sum of squared magnitudes of the 128 samples from `t`.
fn energy_sum(samples: &[Sample], t: usize) -> u64
    requires { t + useful_length ≤ length samples.now }
    ensures value { result ≡ energy samples.now t }
    ensures each { (n : ℕ) → n < useful_length → square (sample_at samples.now (t + n)) ≤ 2 ^ 31 }
{
    let mut sum: u64 = 0;
    for n in 0..USEFUL_LENGTH {
        sum += energy_part(samples[t + n]);
    }
    sum
}

// Returns a sample's squared magnitude, at most 2^31.
fn energy_part(sample: Sample) -> u64
    ensures value { result ≡ square (value_of sample) }
    ensures small { result ≤ 2 ^ 31 }
{
    square_of(Cpx::from(sample))
}

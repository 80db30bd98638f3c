//! The correlation accumulated over half-frames.

ghost use Rattle.std.specs.Prelude.{◌≡◌, ◌+◌, ◌*◌, ◌^◌, ◌<◌, ◌≤◌, [], IfOk, length, slice_index_or};
ghost use Rattle.lte_types.specs.Numerology.{half_frame_length};
ghost use Rattle.pss_search.specs.Correlation.{wave_power};
ghost use Rattle.pss_search.specs.Hits.{first_place};
ghost use Rattle.pss_search.specs.Metrics.{end_place};
ghost use Rattle.accumulated_pss.specs.Sums.{IsPosition, half_frames_in, one, ratio_of, rows_of};
ghost use Rattle.accumulated_pss.specs.Sums.{row_in, sum_at};
ghost use Rattle.accumulated_pss.specs.Maxima.{precedes as precedes_of};
ghost use Rattle.accumulated_pss.specs.Steps.{with_ratios, HasRoom, AreRows};

use crate::choose::precedes;
use crate::half_frame::window;
use crate::row::Row;
use cs_num::Sample;
use lte_types::HALF_FRAME_LENGTH;
use pss_search::{Metric, Sweep, signal_power};
use sample_file::Recording;
use std::alloc::{AllocError, Global};
use std::marker::Model;

// The first position, as in PSS detection.
pub(crate) const FIRST_POSITION: usize = 137;

// How many samples the positions of a half-frame reach into the next one.
const BEYOND: usize = 264;

// 1, in the unit of a ratio.
const ONE: u64 = 1 << 24;

/// Returns the number of half-frames that can be accumulated: those in which each position, 137 to 9,736, has a
/// complete useful part. A recording has 5 to 199. (own)
pub fn half_frames(recording: &Recording) -> usize
    ensures value { result ≡ half_frames_in (length recording.now) }
    ensures bounds { (5 ≤ result) × (result ≤ 199) }
{
    (recording.len() - BEYOND) / HALF_FRAME_LENGTH
}

/// The accumulated correlation with the three primary signals at positions 137 to 9,736, 115 kB. Contracts see three
/// rows of 9,600 sums, by the signal's identity within the group. (own)
#[derive(Drop)]
pub struct Accumulated {
    first: Row,
    second: Row,
    third: Row,
}

impl Model for Accumulated {
    ghost use Rattle.std.specs.Prelude.{ℕ, List, [], ◌∷◌};

    ghost Value = { List (List ℕ) };

    ghost view = { λ a. a.first ∷ a.second ∷ a.third ∷ [] };
}

/// Accumulates the first `halves` half-frames: at each position and for each primary signal the sum of
/// peak / (energy * power / 2^24 + 1), both quotients rounded down. Fails only if an allocation fails. (own)
pub fn accumulate(
    alloc: Global,
    recording: &Recording,
    halves: usize,
) -> Result<Accumulated, AllocError>
    requires { halves ≤ half_frames_in (length recording.now) }
    ensures { IfOk result (λ sums. sums ≡ rows_of recording.now halves) }
{
    let samples = recording.as_slice();
    let mut sums = Accumulated::new(alloc)?;
    for half in 0..halves {
        sums.add_half_frame(alloc, samples, half)?;
    }
    Ok(sums)
}

impl Accumulated {
    /// Returns the sum for the primary signal `n2`, 0 to 2, at position `t`, 137 to 9,736. (own)
    pub fn sum(&self, n2: u8, t: u32) -> u32
        requires n2 { n2 ≤ 2 }
        requires t { IsPosition t }
        ensures { result ≡ sum_at (row_in self.now n2) t }
    {
        self.row(n2)[t as usize - FIRST_POSITION]
    }

    /// Returns whether position `t` precedes position `u`, both 137 to 9,736, for the primary signal `n2`, 0 to 2: its
    /// sum is greater, or equal and `t` is earlier. (own)
    pub fn precedes(&self, n2: u8, t: u32, u: u32) -> bool
        requires n2 { n2 ≤ 2 }
        requires t { IsPosition t }
        requires u { IsPosition u }
        ensures { result ≡ precedes_of (row_in self.now n2) t u }
    {
        precedes(self.row(n2), t, u)
    }

    // Returns the sums for the primary signal `n2`, 0 to 2, by position.
    pub(crate) fn row(&self, n2: u8) -> &[u32]
        requires n2 { n2 ≤ 2 }
        ensures value { result.now ≡ row_in self.now n2 }
        ensures count { length result.now ≡ half_frame_length }
    {
        match n2 {
            0 => self.first.slice(),
            1 => self.second.slice(),
            _ => self.third.slice(),
        }
    }

    // Returns the sums over no half-frame.
    fn new(alloc: Global) -> Result<Self, AllocError>
        ensures { IfOk result (λ sums. sums ≡ rows_of [] 0) }
    {
        Ok(Accumulated {
            first: Row::new(alloc)?,
            second: Row::new(alloc)?,
            third: Row::new(alloc)?,
        })
    }

    // Adds the ratios in half-frame `half`, below 199.
    fn add_half_frame(
        &mut self,
        alloc: Global,
        samples: &[Sample],
        half: usize,
    ) -> Result<(), AllocError>
        requires half { half < 199 }
        requires sums { AreRows samples.now half 0 self.old }
        ensures { IfOk result (λ _. AreRows samples.now (half + 1) 0 self.new) }
    {
        let window = window(alloc, samples, HALF_FRAME_LENGTH * half)?;
        let mut sweep = Sweep::new(&window);
        for _ in 128..FIRST_POSITION {
            skip(&mut sweep);
        }
        for i in 0..HALF_FRAME_LENGTH {
            self.add_next(&mut sweep, i);
        }
        Ok(())
    }

    // Adds the ratios at the sweep's next position, 137 + `i`.
    fn add_next(&mut self, sweep: &mut Sweep, i: usize)
        requires i { i < half_frame_length }
        requires place { sweep.old.place ≡ first_place + i }
        requires room { HasRoom i self.old }
        ensures recording { sweep.new.recording ≡ sweep.old.recording }
        ensures place { sweep.new.place ≡ sweep.old.place + 1 }
        ensures rows { self.new ≡ with_ratios sweep.old.recording i self.old }
    {
        if let Some(metrics) = sweep.step() {
            self.first.add(i, ratio(metrics[0], 0));
            self.second.add(i, ratio(metrics[1], 1));
            self.third.add(i, ratio(metrics[2], 2));
        }
    }
}

// Advances a sweep, which begins at position 128, by one position.
fn skip(sweep: &mut Sweep)
    requires { sweep.old.place < end_place }
    ensures recording { sweep.new.recording ≡ sweep.old.recording }
    ensures place { sweep.new.place ≡ sweep.old.place + 1 }
{
    sweep.step();
}

// Returns the ratio of a metric's peak to its energy and the power of the primary signal `n2`, in parts of 2^24.
fn ratio(metric: Metric, n2: u8) -> u32
    requires n2 { n2 ≤ 2 }
    requires energy { metric.energy ≤ 2 ^ 38 }
    requires peak { metric.peak ≤ metric.energy * wave_power n2 }
    ensures value { result ≡ ratio_of metric.peak metric.energy (wave_power n2) }
    ensures below { result < one }
{
    let unit = metric.energy * signal_power(n2) / ONE + 1;
    (metric.peak as u64 / unit) as u32
}

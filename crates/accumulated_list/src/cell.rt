//! Cells that are detected over many half-frames.

ghost use Rattle.std.specs.Prelude.{◌≡◌, ◌*◌, ◌≤◌, ◌<◌, length};
ghost use Rattle.sss_detect.specs.Place.{start_by_hit};
ghost use Rattle.accumulated_pss.specs.Sums.{IsPosition, half_frames_in, one, rows_of};
ghost use Rattle.accumulated_list.specs.Cells.{cell_with as cell_with_of, mean_ratio as mean_ratio_of};
ghost use Rattle.accumulated_list.specs.Steps.{cell_found as cell_found_of};

use accumulated_pss::Accumulated;
use accumulated_sss::{Detection, detect};
use lte_types::{CellId, FRAME_LENGTH, Half};
use sample_file::Recording;
use sss_detect::cell_id;

// 1, in the unit of a ratio.
const ONE: u64 = 1 << 24;

/// A cell that is detected over many half-frames. (own)
#[derive(Clone, Copy, Debug, PartialEq, Eq)]
pub struct DetectedCell {
    /// The sample of half-frame 0 at which the useful part of the primary symbol begins, 137 to 9,736.
    pub position: u32,
    /// The identity within the group, N_ID(2), 0 to 2.
    pub n2: u8,
    /// The physical-layer cell identity.
    pub id: CellId,
    /// The half of a frame, 0 or 5 by its first subframe, to which half-frames of even number belong.
    pub half: Half,
    /// The sample at which a frame of the cell starts, modulo the 19,200 samples of a frame.
    pub start: u32,
    /// How many of 124 signs match, 93 to 124.
    pub matches: u8,
    /// The mean ratio of peak to energy and power over the half-frames, in thousandths, rounded down, 0 to 999.
    pub ratio: u16,
    /// About the energy of 24 received reference signals of the cell, in the unit of a demodulated value's square.
    pub power: u64,
}

// Returns the cell at position `t` of the primary signal `n2`, 0 to 2, if one is detected there.
pub(crate) fn cell_found(
    recording: &Recording,
    halves: usize,
    sums: &Accumulated,
    n2: u8,
    t: u32,
) -> Option<DetectedCell>
    requires some { 1 ≤ halves }
    requires few { halves ≤ 199 }
    requires covered { halves ≤ half_frames_in (length recording.now) }
    requires sums { sums.now ≡ rows_of recording.now halves }
    requires member { n2 ≤ 2 }
    requires position { IsPosition t }
    ensures { result ≡ cell_found_of recording.now halves n2 t }
{
    match detect(recording, halves, t as usize, n2) {
        Some(found) => Some(cell_with(halves, n2, t, sums.sum(n2, t), found)),
        None => None,
    }
}

// Returns the cell of a detection at position `t` of the primary signal `n2`, where the ratios add up to `sum`.
fn cell_with(halves: usize, n2: u8, t: u32, sum: u32, found: Detection) -> DetectedCell
    requires some { 1 ≤ halves }
    requires few { halves ≤ 199 }
    requires member { n2 ≤ 2 }
    requires position { t ≤ 9736 }
    requires sum { sum ≤ halves * one }
    requires group { found.n1 ≤ 167 }
    ensures { result ≡ cell_with_of halves n2 t sum found }
{
    DetectedCell {
        position: t,
        n2,
        id: cell_id(found.n1, n2),
        half: found.half,
        start: frame_start(t, found.half),
        matches: found.matches,
        ratio: mean_ratio(halves, sum),
        power: found.power,
    }
}

// Returns the sample at which a frame begins, modulo a frame, if the primary signal of `half` is at position `t`.
fn frame_start(t: u32, half: Half) -> u32
    requires { t ≤ 9736 }
    ensures { result ≡ start_by_hit t half }
{
    let frame = FRAME_LENGTH as u32;
    (t + (frame - half.primary_start())) % frame
}

// Returns the mean of ratios over `halves` half-frames from their sum, in thousandths, rounded down.
fn mean_ratio(halves: usize, sum: u32) -> u16
    requires some { 1 ≤ halves }
    requires few { halves ≤ 199 }
    requires small { sum ≤ halves * one }
    ensures { result ≡ mean_ratio_of halves sum }
{
    (1_000 * sum as u64 / (ONE * halves as u64)) as u16
}

//! The frame start and the cell identity.

ghost use Rattle.std.specs.Prelude.{◌≡◌, ◌<◌, ◌≤◌};
ghost use Rattle.lte_types.specs.Identity.{cell_of};
ghost use Rattle.lte_types.specs.Numerology.{frame_length};
ghost use Rattle.sss_detect.specs.Place.{start_by_hit};

use lte_types::{CellId, FRAME_LENGTH, Half, Hit};

/// Returns the sample at which a frame begins, modulo the 19,200 samples of a frame, if a hit's primary signal is in
/// `half`.
pub fn frame_start(hit: &Hit, half: Half) -> u32
    ensures value { result ≡ start_by_hit hit.now.t half }
    ensures small { result < frame_length }
{
    let frame = FRAME_LENGTH as u32;
    (hit.t % frame + (frame - half.primary_start())) % frame
}

/// Returns the cell identity for the group `n1`, 0 to 167, and the identity `n2` within it, 0 to 2.
pub fn cell_id(n1: u16, n2: u8) -> CellId
    requires group { n1 ≤ 167 }
    requires member { n2 ≤ 2 }
    ensures { result ≡ cell_of n1 n2 }
{
    CellId::of(n1, n2)
}

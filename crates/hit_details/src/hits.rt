//! Hits with their details.

use lte_types::{CellId, Half, Hit};
use sss_detect::Ranking;

/// A hit with its cell identity and frame start. (own)
#[derive(Clone, Copy, Debug, PartialEq, Eq)]
pub struct IdentifiedHit {
    /// The PSS detection.
    pub hit: Hit,
    /// The cell's physical identity.
    pub id: CellId,
    /// The half-frame that contains the hit's PSS.
    pub half: Half,
    /// The sample, 0 to 19,199, at which a frame of the cell begins, modulo the frame length.
    pub start: u32,
}

/// A hit with the numbers in its metric, `peak / (energy * power)`. (own)
#[derive(Clone, Copy, Debug, PartialEq, Eq)]
pub struct MeasuredHit {
    /// The PSS detection.
    pub hit: Hit,
    /// The squared magnitude of the correlation with the PSS.
    pub peak: u64,
    /// The energy of the hit's 128 samples.
    pub energy: u64,
    /// The PSS power.
    pub power: u64,
}

/// An identified hit with its SSS ranking and its metric's numbers. (own)
#[derive(Clone, Copy, Debug, PartialEq, Eq)]
pub struct MeasuredId {
    /// The hit with its cell identity, half-frame and frame start.
    pub found: IdentifiedHit,
    /// The two best pairs of SSS group and half-frame, with their scores.
    pub ranking: Ranking,
    /// The squared magnitude of the correlation with the PSS.
    pub peak: u64,
    /// The energy of the hit's 128 samples.
    pub energy: u64,
    /// The PSS power.
    pub power: u64,
}

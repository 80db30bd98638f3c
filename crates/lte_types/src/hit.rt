//! PSS detections.

/// A PSS detection (a hit): a sample at which the correlation with one of the three PSS roots is high. (own)
#[derive(Clone, Copy, Debug, PartialEq, Eq)]
pub struct Hit {
    /// The sample at which the useful part of the PSS symbol begins.
    pub t: u32,
    /// The identity within the group, N_ID(2), of the detected PSS: 0 to 2.
    pub n2: u8,
    /// The squared magnitude of the correlation with the PSS.
    pub peak: u128,
    /// The energy of the 128 samples from `t`.
    pub energy: u64,
}

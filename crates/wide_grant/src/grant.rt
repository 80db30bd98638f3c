//! Grants, and reasons to refuse one.

use crate::Run;

/// How virtual resource blocks are mapped to resource blocks (TS 36.211 section 6.2.3).
#[derive(Clone, Copy, Debug, PartialEq, Eq)]
pub enum Mapping {
    /// Localized: the resource block with the same number.
    Localized,
    /// Distributed by the first gap.
    FirstGap,
    /// Distributed by the second gap, which bandwidths from 50 resource blocks have.
    SecondGap,
}

/// A downlink grant of SIB1: where and how its transport block is sent.
#[derive(Clone, Copy, Debug, PartialEq, Eq)]
pub struct WideGrant {
    /// The mapping of virtual resource blocks.
    pub mapping: Mapping,
    /// The allocated virtual resource blocks.
    pub run: Run,
    /// The transport block size in bits, without the CRC: 32 to 2,216.
    pub size: u16,
    /// The redundancy version, 0 to 3.
    pub rv: u8,
}

/// Why a payload has no grant.
#[derive(Clone, Copy, Debug, PartialEq, Eq)]
pub enum Refusal {
    /// The flag selects format 0.
    NotFormat1A,
    /// The resource indication value has no run, or selects virtual resource blocks that do not exist.
    BadAllocation,
    /// The modulation and coding scheme is above 26.
    ReservedMcs,
}

//! The decoded MIB.

use lte_types::Mib;

/// A decoded MIB, with its antenna port count and its cost.
#[derive(Clone, Copy, Debug, PartialEq, Eq)]
pub struct Master {
    /// The antenna port count: 1, 2 or 4.
    pub ports: u8,
    /// The fields of the MIB.
    pub mib: Mib,
    /// The cost of the MIB's codeword: the sum of the magnitudes of the combined soft values that disagree in sign with
    /// its coded bits.
    pub cost: u32,
}

//! The MIB that added frames decode to.

use lte_types::Mib;

/// A MIB that frames decode to after their soft values were added. (own)
#[derive(Clone, Copy, Debug, PartialEq, Eq)]
pub struct AddedMaster {
    /// The antenna port count: 1, 2 or 4.
    pub ports: u8,
    /// The number of the first frame modulo 4, 0 to 3.
    pub phase: u8,
    /// The fields of the MIB in the first frame.
    pub mib: Mib,
    /// How many of the 120 sums have the sign of their coded bit, 102 to 120.
    pub matches: u8,
}

//! The part of a cell's plan that is sent with the extended cyclic prefix.

use lte_types::{CellId, Mib};

/// A cell plan with the extended cyclic prefix: the identity, and the PHICH fields and spare bits of the MIB. The cell
/// has 6 resource blocks and one antenna port. Each frame sends the upper bits of its own number, so `mib.upper` is
/// ignored.
#[derive(Clone, Copy, Debug, PartialEq, Eq)]
pub struct LongPlan {
    /// The physical-layer cell identity.
    pub id: CellId,
    /// The MIB, of which only the PHICH fields and the spare bits are sent.
    pub mib: Mib,
}

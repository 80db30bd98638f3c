//! How an entry of a list was read.

use dci::Grant;
use lte_types::{Cfi, Hit};
use pbch::WordSums;
use turbo_dec::Block;

/// The reading of a listed entry: the hit, soft values, grant and transport block from which it was decoded. (own)
#[derive(Drop)]
pub struct Reading {
    /// The first hit at the place of the entry's cell.
    pub hit: Hit,
    /// The combined PBCH soft values from which the entry's MIB was decoded.
    pub sums: WordSums,
    /// The control format indicator and the grant with which system information was read; `None` if none was read.
    pub granted: Option<(Cfi, Grant)>,
    /// The bits of the transport block that carried system information, without the CRC; no bits if none was read.
    pub block: Block,
}

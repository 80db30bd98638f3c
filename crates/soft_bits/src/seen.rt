//! A received slot, before its pilots are computed.

ghost use Rattle.std.specs.Prelude.{◌<◌, ◌≤◌, length};
ghost use Rattle.soft_bits.specs.Soft.{AreSmall};

use cs_num::Cpx;
use lte_types::{Carrier, CellId, SUBCARRIERS};

/// A received slot: at least its first five symbols, which include all reference signals, each by subcarrier; the slot
/// number, 0 to 19; the cell identity; and the transmission scheme. Components have magnitude at most 2^25.
#[derive(Clone, Copy)]
pub struct Seen<'a> {
    pub symbols: &'a [[Cpx; SUBCARRIERS]],
    pub number: u8,
    pub id: CellId,
    pub carrier: Carrier,
    pub ghost known: { number < 20 },
    pub ghost small: { AreSmall symbols.now },
    pub ghost enough: { 5 ≤ length symbols.now },
}

//! PDCCH quadruplet interleaving.

ghost use Rattle.std.specs.Prelude.{◌≡◌, ◌+◌, ◌*◌, ◌<◌, ◌≤◌, ℕ, slice_index_or};
ghost use Rattle.grid_map.specs.Control.{quadruplet_at};

use conv_code::stream_index;
use lte_types::CellId;

/// Returns the quadruplet that resource-element group `r` of the PDCCH's `count` groups carries: quadruplets are
/// interleaved like a stream's bits, and cyclically shifted by the identity (TS 36.211 section 6.8.5). `r` is below
/// `count`.
pub fn quadruplet(id: CellId, count: u8, r: u8) -> u8
    requires inside { r < count }
    ensures value { result ≡ quadruplet_at id count r }
    ensures bound { result < count }
{
    let p = (r as usize + id.value() as usize) % count as usize;
    stream_index(count as usize, p) as u8
}

/// A law: each quadruplet below the group count is carried by exactly one of the PDCCH's resource-element groups.
pub fn quadruplets_permute()
    ensures inside { (identity count r : ℕ) → r < count → quadruplet_at identity count r < count }
    ensures one_to_one { (identity count r s : ℕ) → r < count → s < count →
        quadruplet_at identity count r ≡ quadruplet_at identity count s → r ≡ s }
    ensures each { (identity count q : ℕ) → q < count →
        (r : ℕ) × (r < count) × (quadruplet_at identity count r ≡ q) }
{}

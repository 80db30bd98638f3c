//! PDCCH resource elements in the common search space.

ghost use Rattle.std.specs.Prelude.{◌≡◌, ◌<◌, ◌≤◌, ◌*◌, ℕ, All, IsTrue, length, slice_index_or};
ghost use Rattle.finite.specs.Lists.{values_below};
ghost use Rattle.grid_map.specs.Place.{place};
ghost use Rattle.grid_map.specs.Group.{group, group_places, is_group};
ghost use Rattle.grid_map.specs.Control.{quadruplet_at};
ghost use Rattle.grid_map.specs.Candidate.{group_of_quadruplet, candidate_places};
ghost use Rattle.lte_types.specs.Numerology.{subcarriers};

use crate::{Place, Reg, quadruplet, reg_places};
use lte_types::CellId;

// Returns the index, below `count`, of the PDCCH resource-element group that carries quadruplet `q`.
fn group_of(id: CellId, count: u8, q: u8) -> u8
    requires q { q < count }
    ensures value { result ≡ group_of_quadruplet id count q }
    ensures bound { result < count }
{
    for r in 0..count {
        if quadruplet(id, count, r) == q {
            return r;
        }
    }
    unreachable!()
}

// Returns the indices, below `count`, of the PDCCH resource-element groups that carry quadruplets 0 to 35.
fn groups_of(id: CellId, count: u8) -> [u8; 36]
    requires enough { 36 ≤ count }
    ensures values { result ≡ values_below 36 (group_of_quadruplet id count) }
    ensures inside { All (λ r. r < count) result }
{
    let mut groups = [0; 36];
    for q in 0..36_u8 {
        groups[q as usize] = group_of(id, count, q);
    }
    groups
}

// Returns resource element `j`, 0 to 3, of the resource-element group with index `number`.
fn place_of(id: CellId, groups: &[Reg], number: u8, j: usize) -> Place
    requires inside { All (λ g. IsTrue (is_group g)) groups.now }
    requires number { number < length groups.now }
    requires j { j < 4 }
    ensures place { result ≡
        slice_index_or (group_places id (slice_index_or groups.now number (group 0 0))) j (place 0 0) }
    ensures symbol { result.symbol < 14 }
    ensures k { result.k < subcarriers }
{
    reg_places(id, groups[number as usize])[j]
}

/// Returns the resource elements of control channel elements 0 to 3, in the order of the quadruplets, 0 to 35, that
/// they carry (TS 36.211 section 6.8.5). `groups` are the PDCCH's 36 to 255 resource-element groups.
pub fn candidate_places(id: CellId, groups: &[Reg]) -> [Place; 144]
    requires few { length groups.now ≤ 255 }
    requires enough { 36 ≤ length groups.now }
    requires inside { All (λ g. IsTrue (is_group g)) groups.now }
    ensures places { result ≡ candidate_places id groups.now }
    ensures inside { All (λ p. (p.symbol < 14) × (p.k < subcarriers)) result }
{
    let order = groups_of(id, groups.len() as u8);
    let mut places = [Place { symbol: 0, k: 0 }; 144];
    for i in 0..144 {
        places[i] = place_of(id, groups, order[i / 4], i % 4);
    }
    places
}

/// A law: each quadruplet below the group count is carried by one of the PDCCH's resource-element groups, the one that
/// `group_of_quadruplet` names.
pub fn quadruplets_carried()
    ensures inside { (identity count q : ℕ) → q < count →
        group_of_quadruplet identity count q < count }
    ensures carries { (identity count q : ℕ) → q < count →
        quadruplet_at identity count (group_of_quadruplet identity count q) ≡ q }
{}

//! The resource elements of a resource-element group (TS 36.211 section 6.2.4).

ghost use Rattle.std.specs.Prelude.{◌≡◌, ◌+◌, ◌*◌, ◌/◌, ◌%◌, ◌<◌, ℕ, All, IsTrue, slice_index_or, nat_eq, if◌then◌else◌};
ghost use Rattle.std.specs.List.{Contains};
ghost use Rattle.grid_map.specs.declared.Place.{Place};
ghost use Rattle.grid_map.specs.declared.Reg.{Reg};
ghost use Rattle.grid_map.specs.Place.{place, skipping};
ghost use Rattle.grid_map.specs.Group.{is_group, is_of_group, group_places};
ghost use Rattle.grid_map.specs.Order.{AreInOrder};
ghost use Rattle.lte_types.specs.Numerology.{subcarriers};

use crate::{Place, Reg, skipping};
use lte_types::CellId;

/// Returns the four resource elements of a resource-element group, in order of subcarrier (TS 36.211 section 6.2.4). In
/// symbol 0 every third subcarrier, from the identity modulo 3, is reserved for reference signals and left out.
pub fn reg_places(id: CellId, reg: Reg) -> [Place; 4]
    requires { IsTrue (is_group reg) }
    ensures places { result ≡ group_places id reg }
    ensures inside { All (λ p. (p.symbol ≡ reg.symbol) × (p.k < subcarriers)) result }
{
    [
        place_in(id, reg, 0),
        place_in(id, reg, 1),
        place_in(id, reg, 2),
        place_in(id, reg, 3),
    ]
}

// Returns resource element `i`, 0 to 3, of a resource-element group.
fn place_in(id: CellId, reg: Reg, i: usize) -> Place
    requires group { IsTrue (is_group reg) }
    requires i { i < 4 }
    ensures { result ≡ place reg.symbol
        (reg.first + (if nat_eq reg.symbol 0 then 3 * (i / 2) + skipping (id % 3) (i % 2) else i)) }
{
    let offset = if reg.symbol == 0 {
        3 * (i / 2) + skipping(i % 2, id.n2() as usize)
    } else {
        i
    };
    Place {
        symbol: reg.symbol,
        k: reg.first + offset as u8,
    }
}

/// A law: a resource-element group has four resource elements, in order of subcarrier: all in its span that are not
/// reserved for reference signals. Different groups share no resource element.
pub fn places_of_groups()
    ensures order { (identity : ℕ) (g : Reg) → IsTrue (is_group g) →
        AreInOrder (λ p. p.k) (group_places identity g) 4
        (λ i. slice_index_or (group_places identity g) i (place 0 0)) (is_of_group identity g) }
    ensures inside { (identity : ℕ) (g : Reg) (p : Place) → IsTrue (is_group g) →
        IsTrue (is_of_group identity g p) → p.k < subcarriers }
    ensures apart { (identity : ℕ) (g h : Reg) (p : Place) → IsTrue (is_group g) → IsTrue (is_group h) →
        Contains (group_places identity g) p → Contains (group_places identity h) p → g ≡ h }
{}

//! PBCH resource elements.

ghost use Rattle.std.specs.Prelude.{◌≡◌, ◌<◌, ◌≤◌, ◌↔◌, ℕ, All, slice_get, IsTrue};
ghost use Rattle.grid_map.specs.declared.Place.{Place};
ghost use Rattle.grid_map.specs.Place.{place_number};
ghost use Rattle.grid_map.specs.Broadcast.{pbch_places, pbch_place, is_pbch, pbch_index};
ghost use Rattle.grid_map.specs.Order.{AreInOrder};
ghost use Rattle.grid_map.specs.Laws.{IsIndexed};
ghost use Rattle.lte_types.specs.Numerology.{subcarriers};

use crate::{Place, skipping};
use lte_types::CellId;

/// Returns the resource element for PBCH modulation symbol `i`, below 240: symbol by symbol in the first four OFDM
/// symbols of slot 1 (7 to 10 of the subframe), reserved elements left out (TS 36.211 section 6.6.4).
pub fn pbch(id: CellId, i: usize) -> Place
    requires { i < 240 }
    ensures item { slice_get (pbch_places id) i ≡ Some result }
    ensures place { result ≡ pbch_place id i }
    ensures carries { IsTrue (is_pbch id result) }
    ensures symbol { (7 ≤ result.symbol) × (result.symbol ≤ 10) }
    ensures k { result.k < subcarriers }
{
    if i < 96 {
        let n = i % 48;
        let k = 3 * (n / 2) + skipping(n % 2, id.n2() as usize);
        Place {
            symbol: (7 + i / 48) as u8,
            k: k as u8,
        }
    } else {
        let n = i - 96;
        Place {
            symbol: (9 + n / 72) as u8,
            k: (n % 72) as u8,
        }
    }
}

/// Returns all 240 PBCH resource elements, in order.
pub fn pbch_places(id: CellId) -> [Place; 240]
    ensures places { result ≡ pbch_places id }
    ensures inside { All (λ p. (p.symbol < 14) × (p.k < subcarriers)) result }
{
    let mut places = [Place { symbol: 0, k: 0 }; 240];
    for i in 0..240 {
        places[i] = pbch(id, i);
    }
    places
}

/// A law: the PBCH has 240 resource elements, in increasing order, and index and resource element determine each
/// other.
pub fn pbch_order()
    ensures order { (identity : ℕ) →
        AreInOrder place_number (pbch_places identity) 240 (pbch_place identity) (is_pbch identity) }
    ensures indexed { (identity : ℕ) → IsIndexed 240 (pbch_places identity) }
    ensures carries { (identity : ℕ) (p : Place) →
        IsTrue (is_pbch identity p) ↔ (pbch_index identity p < 240) }
{}

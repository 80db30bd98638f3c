//! PBCH resource elements with the extended cyclic prefix.

ghost use Rattle.std.specs.Prelude.{◌≡◌, ◌+◌, ◌*◌, ◌/◌, ◌%◌, ◌<◌, All, slice_index_or};
ghost use Rattle.grid_map.specs.Place.{place, skipping};
ghost use Rattle.grid_map.specs.LongBroadcast.{long_places as places_of};
ghost use Rattle.lte_types.specs.Numerology.{subcarriers};

use crate::Place;
use lte_types::CellId;

/// Returns the 216 PBCH resource elements with the extended prefix, ordered by symbol, 0 to 3 of slot 1, then
/// subcarrier, without the elements reserved for reference signals (TS 36.211 section 6.6.4).
pub fn long_places(id: CellId) -> [Place; 216]
    ensures places { result ≡ places_of id }
    ensures inside { All (λ p. (p.symbol < 4) × (p.k < subcarriers)) result }
{
    let mut places = [Place { symbol: 0, k: 0 }; 216];
    for i in 0..216_u8 {
        places[i as usize] = place_at(id, i);
    }
    places
}

// Returns PBCH resource element `i`. Symbols 0, 1 and 3 have 48 PBCH elements each, symbol 2 has 72.
fn place_at(id: CellId, i: u8) -> Place
    requires { i < 216 }
    ensures place { result ≡ slice_index_or (places_of id) i (place 0 0) }
    ensures symbol { result.symbol < 4 }
    ensures k { result.k < subcarriers }
{
    let shift = id.n2() as u8;
    if i < 96 {
        Place {
            symbol: i / 48,
            k: free_subcarrier(shift, i % 48),
        }
    } else if i < 168 {
        Place {
            symbol: 2,
            k: i - 96,
        }
    } else {
        Place {
            symbol: 3,
            k: free_subcarrier(shift, i - 168),
        }
    }
}

// Returns subcarrier `n` of the 48 that are not reserved in a symbol: two of each three.
fn free_subcarrier(shift: u8, n: u8) -> u8
    requires shift { shift < 3 }
    requires n { n < 48 }
    ensures value { result ≡ 3 * (n / 2) + skipping shift (n % 2) }
    ensures small { result < subcarriers }
{
    let r = n % 2;
    let beside = if r < shift { r } else { r + 1 };
    3 * (n / 2) + beside
}

//! Reference signals of ports 2 and 3, which occupy one symbol of a slot.

ghost use Rattle.std.specs.Prelude.{◌≡◌, ◌<◌, ◌+◌, ◌%◌, ◌&&◌, ◌||◌, ℕ, nat_eq, IsTrue};
ghost use Rattle.crs.specs.Reference.{upper_first, is_upper_reference};

use lte_types::CellId;

/// Returns the first subcarrier with a reference signal of antenna port 2 or 3 in symbol 1 of a slot; every sixth
/// from there has one (TS 36.211 section 6.10.1.2). Only the parity of `port` matters.
pub fn first_of_upper(port: u8, id: CellId, slot: u8) -> u8
    ensures value { result ≡ upper_first port id slot }
    ensures bound { result < 6 }
{
    // The constant term of v, to which 3 (n_s mod 2) is added.
    let shift = 3 * (u16::from(port) % 2);
    ((shift + 3 * (u16::from(slot) % 2) + id.value()) % 6) as u8
}

/// A law: the reference signals of ports 2 and 3 are disjoint, occupy every third subcarrier in symbol 1 from the
/// identity modulo 3, and swap positions from slot to slot.
pub fn reference_places_of_upper()
    ensures both { (identity slot symbol k : ℕ) →
        (is_upper_reference 2 identity slot symbol k || is_upper_reference 3 identity slot symbol k)
        ≡ (nat_eq symbol 1 && nat_eq (k % 3) (identity % 3)) }
    ensures apart { (identity slot symbol k : ℕ) →
        IsTrue (is_upper_reference 2 identity slot symbol k) →
        ¬ IsTrue (is_upper_reference 3 identity slot symbol k) }
    ensures turns { (identity slot symbol k : ℕ) →
        is_upper_reference 2 identity (slot + 1) symbol k ≡ is_upper_reference 3 identity slot symbol k }
{}

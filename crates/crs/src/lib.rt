//! Cell-specific reference signals (TS 36.211 section 6.10.1): the subcarriers that carry them and their values, by
//! antenna port and cyclic prefix; and QPSK modulation. Functions without a pattern parameter are for port 0 with the
//! normal prefix.
//! Tests: the crate `low_tests`.
#![tactic(auto)]

ghost use Rattle.std.specs.Prelude.{◌≡◌, ◌⊎◌, ◌+◌, ◌-◌, ◌*◌, ◌%◌, ◌^◌, ◌<◌, ◌≤◌, ◌↔◌, ◌/◌, ◌&&◌, ◌||◌, nat_eq, ℕ, length, false, get_or};
ghost use Rattle.std.specs.Prelude.{All, IsTrue};
ghost use Rattle.crs.specs.Qpsk.{IsPoint};
ghost use Rattle.crs.specs.Reference.{IsPattern, pattern_c_init, pattern_first, pattern_list};
ghost use Rattle.crs.specs.Reference.{value_by, value_of_width, reference, reference_list};
ghost use Rattle.crs.specs.Reference.{port_0, has_pilots, subcarrier, is_reference};
ghost use Rattle.crs.specs.Reference.{is_second_reference, reference_at};
ghost use Rattle.lte_types.specs.Numerology.{subcarriers};

mod pattern;
mod qpsk;
mod upper;

use cs_num::Cpx;
use lte_types::CellId;
pub use pattern::Pattern;
pub use qpsk::{POINT_POWER, point};
pub use upper::{first_of_upper, reference_places_of_upper};

/// Returns `c_init` of the reference signal sequence in a symbol, for every bandwidth (TS 36.211 section 6.10.1.1).
/// `slot` is 0 to 19 and `symbol` 0 to 6.
pub fn c_init(pattern: Pattern, id: CellId, slot: u8, symbol: u8) -> u32
    requires pattern { IsPattern pattern }
    requires slot { slot < 20 }
    requires symbol { symbol < 7 }
    ensures fits { result < 2 ^ 31 }
    ensures value { result ≡ pattern_c_init pattern id slot symbol }
{
    let twice = 2 * u32::from(id.value());
    (7 * (u32::from(slot) + 1) + u32::from(symbol) + 1) * (twice + 1) * 1024
        + twice
        + u32::from(pattern.prefix)
}

/// Returns reference signal value `m` in a symbol for `blocks` resource blocks, at most 110 (TS 36.211 section
/// 6.10.1.1). `bits` begin the sequence; 2(`m` + 110 - `blocks`) + 2 bits suffice. Components are 90 or -90.
pub fn value_of_width(blocks: u8, bits: &[bool], m: u8) -> Cpx
    requires blocks { blocks ≤ 110 }
    requires bits { 2 * (m + (110 - blocks)) + 1 < length bits.now }
    ensures value { result ≡ value_of_width blocks (λ n. get_or bits.now n false) m }
    ensures full { IsPoint result }
{
    let first = 2 * (m as usize + (110 - blocks as usize));
    point(bits[first], bits[first + 1])
}

// Returns reference signal value `m`, 0 to 11, for six resource blocks, from the first 232 bits of the symbol's
// sequence.
fn value_of(bits: &[bool], m: u8) -> Cpx
    requires bits { length bits.now ≡ 232 }
    requires m { m < 12 }
    ensures { result ≡ value_by (λ n. get_or bits.now n false) m }
{
    value_of_width(6, bits, m)
}

/// Returns the first subcarrier with a reference signal of `pattern` in a symbol; every sixth from there has one (TS
/// 36.211 section 6.10.1.2). `symbol` is 0 or the pattern's later symbol; any other value counts as later.
#[tactic(auto, using(std::proofs::lemmas::Bool::Decides::nat_tests))]
pub fn first_of_pattern(pattern: Pattern, id: CellId, symbol: u8) -> u8
    requires { IsPattern pattern }
    ensures value { result ≡ pattern_first pattern id symbol }
    ensures bound { result < 6 }
{
    let shift = if symbol == 0 {
        pattern.shift
    } else {
        3 - pattern.shift
    };
    ((shift as u16 + id.value()) % 6) as u8
}

/// Returns the pilots of `pattern` in a symbol as subcarriers and values, in order. `slot` is 0 to 19, and `symbol` 0
/// or the pattern's later symbol. Components are 90 or -90.
pub fn pattern_pilots(pattern: Pattern, id: CellId, slot: u8, symbol: u8) -> [(u8, Cpx); 12]
    requires pattern { IsPattern pattern }
    requires slot { slot < 20 }
    requires symbol { symbol < 7 }
    ensures pilots { result ≡ pattern_list pattern id slot symbol }
    ensures full { All (λ pilot. IsPoint pilot.1) result }
{
    let mut bits = [false; 232];
    gold::fill(c_init(pattern, id, slot, symbol), &mut bits);
    let first = first_of_pattern(pattern, id, symbol);
    let mut pilots = [(0, Cpx::ZERO); 12];
    for m in 0..12_u8 {
        pilots[m as usize] = (6 * m + first, value_of(&bits, m));
    }
    pilots
}

/// Returns the pilots of port 0 in a symbol as subcarriers and values, in order. `symbol` is 0 or 4, and `slot` 0 to
/// 19. Components of the values are 90 or -90.
pub fn pilots(id: CellId, slot: u8, symbol: u8) -> [(u8, Cpx); 12]
    requires slot { slot < 20 }
    requires symbol { (symbol ≡ 0) ⊎ (symbol ≡ 4) }
    ensures pilots { result ≡ reference_list id slot symbol }
    ensures full { All (λ pilot. IsPoint pilot.1) result }
{
    pattern_pilots(Pattern::FIRST_PORT, id, slot, symbol)
}

/// A law: the twelve pilots of port 0 in a symbol are at exactly its reference signal positions. In symbols 0 and 4
/// together, the positions are every third subcarrier, from the identity modulo 3.
pub fn reference_places()
    ensures inside { (identity symbol m : ℕ) → m < 12 → subcarrier identity symbol m < subcarriers }
    ensures each { (identity symbol m : ℕ) → (symbol ≡ 0) ⊎ (symbol ≡ 4) →
        IsTrue (is_reference identity symbol (subcarrier identity symbol m)) }
    ensures found { (identity symbol k : ℕ) → IsTrue (is_reference identity symbol k) →
        k ≡ subcarrier identity symbol (k / 6) }
    ensures symbols { (identity symbol k : ℕ) → IsTrue (is_reference identity symbol k) →
        (symbol ≡ 0) ⊎ (symbol ≡ 4) }

    ensures value { (identity slot symbol m : ℕ) →
        reference_at identity slot symbol (subcarrier identity symbol m)
        ≡ reference identity slot symbol m }
    ensures full { (identity slot symbol m : ℕ) →
        IsPoint (reference identity slot symbol m) }

    ensures third { (identity k : ℕ) →
        IsTrue (is_reference identity 0 k || is_reference identity 4 k) ↔ (k % 3 ≡ identity % 3) }
    ensures never_both { (identity k : ℕ) →
        IsTrue (is_reference identity 0 k) → ¬ IsTrue (is_reference identity 4 k) }
{}

/// A law: the reference signals of ports 0 and 1 are disjoint. In symbols 0 and 4 of a slot, both together occupy every
/// third subcarrier, from the identity modulo 3.
pub fn reference_places_of_two()
    ensures both { (identity symbol k : ℕ) →
        (is_reference identity symbol k || is_second_reference identity symbol k)
        ≡ (has_pilots port_0 symbol && nat_eq (k % 3) (identity % 3)) }
    ensures apart { (identity symbol k : ℕ) →
        IsTrue (is_reference identity symbol k) → ¬ IsTrue (is_second_reference identity symbol k) }
{}

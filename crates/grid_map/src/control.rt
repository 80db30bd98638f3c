//! The resource-element groups for PCFICH, PHICH and PDCCH.

ghost use Rattle.std.specs.Prelude.{◌≡◌, ◌+◌, ◌*◌, ◌/◌, ◌%◌, ◌<◌, ◌≤◌, ◌&&◌, ℕ, All, IsTrue, not, slice_index_or, nat_eq, if◌then◌else◌};
ghost use Rattle.arrayvec.specs.ArrayVec.{array_vec_len};
ghost use Rattle.lte_types.specs.declared.duration.Duration.{Duration};
ghost use Rattle.lte_types.specs.declared.resource.Resource.{Resource};
ghost use Rattle.grid_map.specs.declared.Reg.{Reg};
ghost use Rattle.grid_map.specs.declared.Place.{Place};
ghost use Rattle.grid_map.specs.Place.{place, skipping};
ghost use Rattle.grid_map.specs.Group.{group, is_group};
ghost use Rattle.grid_map.specs.Control.{is_group_in, pcfich_group, pcfich_groups, pcfich_places, left_groups, phich_count, phich_symbol, phich_group, phich_group_in, phich_groups};
ghost use Rattle.grid_map.specs.Control.{is_in_region, group_number, numbered, pdcch_groups, group_count, element_count};
ghost use Rattle.grid_map.specs.Order.{AreInOrder};
ghost use Rattle.lte_types.specs.Numerology.{subcarriers};

use crate::{Place, Reg, reg_places, skipping};
use arrayvec::ArrayVec;
use lte_types::{CellId, Cfi, Duration, Mib, Resource};

/// Returns the four resource-element groups of the PCFICH, in the order of use (TS 36.211 section 6.7.4).
pub fn pcfich(id: CellId) -> [Reg; 4]
    ensures groups { result ≡ pcfich_groups id }
    ensures inside { All (λ g. IsTrue (is_group g) × (g.symbol ≡ 0)) result }
{
    [
        pcfich_number(id, 0),
        pcfich_number(id, 1),
        pcfich_number(id, 2),
        pcfich_number(id, 3),
    ]
}

// Returns the PCFICH's resource-element group `i`, 0 to 3.
fn pcfich_number(id: CellId, i: u16) -> Reg
    requires { i < 4 }
    ensures { result ≡ pcfich_group id i }
{
    Reg {
        symbol: 0,
        first: ((6 * (id.value() % 12) + 18 * i) % 72) as u8,
    }
}

// Returns the resource element for PCFICH symbol `i`, 0 to 15; each resource-element group has four.
fn pcfich_point(id: CellId, groups: &[Reg; 4], i: usize) -> Place
    requires groups { groups.now ≡ pcfich_groups id }
    requires inside { All (λ g. IsTrue (is_group g) × (g.symbol ≡ 0)) groups.now }
    requires i { i < 16 }
    ensures place { result ≡ slice_index_or (pcfich_places id) i (place 0 0) }
    ensures symbol { result.symbol ≡ 0 }
    ensures k { result.k < subcarriers }
{
    reg_places(id, groups[i / 4])[i % 4]
}

/// Returns the sixteen PCFICH resource elements, one resource-element group after the other (TS 36.211 section 6.7.4).
pub fn pcfich_places(id: CellId) -> [Place; 16]
    ensures places { result ≡ pcfich_places id }
    ensures inside { All (λ p. (p.symbol < 14) × (p.k < subcarriers)) result }
{
    let groups = pcfich(id);
    let mut places = [Place { symbol: 0, k: 0 }; 16];
    for i in 0..16 {
        places[i] = pcfich_point(id, &groups, i);
    }
    places
}

// Returns the number of resource-element groups in `symbol` that the PCFICH does not use: 8 in symbol 0, otherwise 18.
fn left_in(symbol: u8) -> usize
    ensures { result ≡ (if nat_eq symbol 0 then 8 else 18) }
{
    if symbol == 0 { 8 } else { 18 }
}

// Returns the first subcarrier of group `number` among the resource-element groups in `symbol` that the PCFICH does not
// use: two of every three groups in symbol 0, all groups in later symbols.
fn left_begins(id: CellId, symbol: u8, number: usize) -> usize
    requires { number < 18 }
    ensures value { result ≡ (if nat_eq symbol 0
        then 6 * (3 * (number / 2) + skipping (id % 3) (number % 2)) else 4 * number) }
    ensures bound { result < 256 }
{
    if symbol == 0 {
        6 * (3 * (number / 2) + skipping(number % 2, id.n2() as usize))
    } else {
        4 * number
    }
}

// Returns group `number` among the resource-element groups in `symbol` that the PCFICH does not use.
fn left_group(id: CellId, symbol: u8, number: usize) -> Reg
    requires symbol { symbol < 3 }
    requires number { number < (if nat_eq symbol 0 then 8 else 18) }
    ensures { result ≡ slice_index_or (left_groups id symbol) number (group 0 0) }
{
    Reg {
        symbol,
        first: left_begins(id, symbol, number) as u8,
    }
}

// Returns the resource-element group in `symbol` that carries quadruplet `i` of PHICH group `m`.
fn phich_in(id: CellId, symbol: u8, m: usize, i: usize) -> Reg
    requires symbol { symbol < 3 }
    requires m { m < 2 }
    requires i { i < 3 }
    ensures { result ≡ phich_group_in id symbol m i }
{
    let count = left_in(symbol);
    let number = (id.value() as usize * count / left_in(0) + m + i * count / 3) % count;
    left_group(id, symbol, number)
}

/// Returns the symbol, 0 to 2, that carries quadruplet `i`, 0 to 2, of a PHICH group (TS 36.211 section 6.9.3).
pub fn phich_symbol(duration: Duration, i: usize) -> u8
    requires { i < 3 }
    ensures value { result ≡ phich_symbol duration i }
    ensures bound { result < 3 }
{
    match duration {
        Duration::Normal => 0,
        Duration::Extended => i as u8,
    }
}

// Returns the number of PHICH groups, 1 or 2.
fn count_of(resource: Resource) -> usize
    ensures value { result ≡ phich_count resource }
    ensures bound { result ≤ 2 }
{
    match resource {
        Resource::OneSixth | Resource::Half | Resource::One => 1,
        Resource::Two => 2,
    }
}

// Returns the resource-element group that carries quadruplet `i` of PHICH group `m`.
fn phich_of(id: CellId, duration: Duration, m: usize, i: usize) -> Reg
    requires m { m < 2 }
    requires i { i < 3 }
    ensures { result ≡ phich_group id duration m i }
{
    phich_in(id, phich_symbol(duration, i), m, i)
}

// Returns the resource-element groups of all PHICH groups, three per PHICH group (TS 36.211 section 6.9.3).
fn phich(id: CellId, duration: Duration, resource: Resource) -> ArrayVec<Reg, 6>
    ensures { result.items ≡ phich_groups id duration resource }
{
    let mut groups = ArrayVec::new();
    for m in 0..count_of(resource) {
        groups.push(phich_of(id, duration, m, 0));
        groups.push(phich_of(id, duration, m, 1));
        groups.push(phich_of(id, duration, m, 2));
    }
    groups
}

// Returns whether `reg` is a valid resource-element group in the control region whose last symbol is `last`.
fn is_inside(reg: Reg, last: u8) -> bool
    ensures { result ≡ is_in_region last reg }
{
    let span = if reg.symbol == 0 { 6 } else { 4 };
    reg.symbol < 4 && reg.first < 72 && reg.first % span == 0 && reg.symbol <= last
}

// Returns the resource-element group with number `n`, below 288; groups are numbered by first subcarrier, then by
// symbol.
fn numbered_reg(n: u16) -> Reg
    requires { n < 288 }
    ensures { result ≡ numbered n }
{
    Reg {
        symbol: (n % 4) as u8,
        first: (n / 4) as u8,
    }
}

// Returns whether `reg` is a valid resource-element group in the control region that neither PCFICH nor PHICH uses.
fn is_left(reg: Reg, last: u8, pcfich: &[Reg], phich: &[Reg]) -> bool
    ensures { result ≡ (is_in_region last reg && not (is_group_in pcfich.now reg) && not (is_group_in phich.now reg)) }
{
    is_inside(reg, last) && !pcfich.contains(&reg) && !phich.contains(&reg)
}

/// Returns the PDCCH's resource-element groups: the groups in the control region's `cfi` + 1 symbols that PCFICH and
/// PHICH do not use, ordered by first subcarrier, then by symbol (TS 36.211 section 6.8.5).
pub fn pdcch(id: CellId, cfi: Cfi, mib: Mib) -> ArrayVec<Reg, 66>
    ensures groups { result.items ≡ pdcch_groups id cfi mib.duration mib.resource }
    ensures inside { All (λ g. IsTrue (is_in_region cfi g)) result.items }
    ensures count { array_vec_len result ≡ group_count cfi mib.duration mib.resource }
{
    let last = cfi.value();
    let pcfich = pcfich(id);
    let phich = phich(id, mib.duration, mib.resource);
    let mut groups = ArrayVec::new();
    for n in 0..288_u16 {
        let reg = numbered_reg(n);
        if is_left(reg, last, &pcfich, phich.as_slice()) {
            groups.push(reg);
        }
    }
    groups
}

/// A law: the PCFICH has four resource-element groups. The PDCCH has all other groups in the control region except the
/// PHICH's, each once, in order: two control channel elements with indicator 1, at least four with 2 and 3.
pub fn control_groups()
    ensures pcfich_inside { (identity i : ℕ) → i < 4 → IsTrue (is_group (pcfich_group identity i)) }
    ensures pcfich_apart { (identity i j : ℕ) → i < 4 → j < 4 →
        pcfich_group identity i ≡ pcfich_group identity j → i ≡ j }

    ensures order { (identity cfi : ℕ) (duration : Duration) (resource : Resource) → 1 ≤ cfi → cfi ≤ 3 →
        AreInOrder group_number (pdcch_groups identity cfi duration resource) (group_count cfi duration resource)
        (λ i. slice_index_or (pdcch_groups identity cfi duration resource) i (group 0 0))
        (λ g. is_in_region cfi g && not (is_group_in (pcfich_groups identity) g)
        && not (is_group_in (phich_groups identity duration resource) g)) }

    ensures two_elements { (duration : Duration) (resource : Resource) → element_count 1 duration resource ≡ 2 }
    ensures four_elements { (cfi : ℕ) (duration : Duration) (resource : Resource) → 2 ≤ cfi → cfi ≤ 3 →
        4 ≤ element_count cfi duration resource }
{}

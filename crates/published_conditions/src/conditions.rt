//! Published calls under numeric preconditions. Each function makes one call, so the proof fails if the call's
//! precondition becomes stronger, even where that precondition is a definition of its crate.

ghost use Rattle.std.specs.Prelude.{◌≡◌, ◌⊎◌, ◌+◌, ◌*◌, ◌^◌, ◌<◌, ◌≤◌, false, All, IfSome, IsSome, length, slice_get};
ghost use Rattle.std.specs.Prelude.{negsuc, pos, ◌≤ℤ◌, Some};
ghost use Rattle.turbo_code.specs.Table.{IsRow};
ghost use Rattle.published_conditions.specs.Numbers.{HasDecimalDigits, HasSmallCodes, IsAtMost, IsUpTo, sizes_of};

use cs_bits::Bits;
use cs_num::Cpx;
use dci::Grant;
use grid_map::{Place, Reg};
use lte_types::{CellId, Cfi, Sib1};
use soft_bits::Slot;
use turbo_code::{Coded, Combined, Row};
use turbo_dec::{Block, Work};
use uper::Writer;

/// Calls `grid_map::pdsch` with CFI 2, which leaves 102 resource elements per resource block.
pub fn shared_point_of_two(id: CellId, cfi: Cfi, start: u8, blocks: u8, i: usize) -> Place
    requires cfi { cfi ≡ 2 }
    requires some { 1 ≤ blocks }
    requires inside { start + blocks ≤ 6 }
    requires index { i < 102 * blocks }
{
    grid_map::pdsch(id, cfi, start, blocks, i)
}

/// Calls `grid_map::pdsch` with CFI 3, which leaves 90 resource elements per resource block.
pub fn shared_point_of_three(id: CellId, cfi: Cfi, start: u8, blocks: u8, i: usize) -> Place
    requires cfi { cfi ≡ 3 }
    requires some { 1 ≤ blocks }
    requires inside { start + blocks ≤ 6 }
    requires index { i < 90 * blocks }
{
    grid_map::pdsch(id, cfi, start, blocks, i)
}

/// Calls `grid_map::reg_places` with a resource-element group in symbol 0, six subcarriers wide (TS 36.211 section
/// 6.2.4).
pub fn first_group(id: CellId, n: u8) -> [Place; 4]
    requires { n < 12 }
{
    let first = 6 * n;
    grid_map::reg_places(id, Reg { symbol: 0, first })
}

/// Calls `grid_map::reg_places` with a resource-element group in symbol 1, 2 or 3, four subcarriers wide.
pub fn later_group(id: CellId, symbol: u8, n: u8) -> [Place; 4]
    requires later { 1 ≤ symbol }
    requires control { symbol ≤ 3 }
    requires index { n < 18 }
{
    let first = 4 * n;
    grid_map::reg_places(id, Reg { symbol, first })
}

/// Calls `grid_map::quadruplet` for group `r` of up to 66 resource-element groups.
pub fn carried(id: CellId, count: u8, r: u8) -> u8
    requires inside { r < count }
    requires most { count ≤ 66 }
{
    grid_map::quadruplet(id, count, r)
}

/// Calls `Slot::new` with components of magnitude up to 2^25.
pub fn slot_of(seen: [[Cpx; 72]; 7], number: u8, id: CellId) -> Slot
    requires number { number < 20 }
    requires small { All (All (IsUpTo (2 ^ 25))) seen }
{
    Slot::new(seen, number, id)
}

/// Calls `dci::riv` with 1 to 6 resource blocks, all within the carrier's six.
pub fn indication(start: u8, blocks: u8) -> u8
    requires some { 1 ≤ blocks }
    requires inside { start + blocks ≤ 6 }
{
    dci::riv(start, blocks)
}

/// Calls `dci::write` with any grant whose transport block size is in column 2 or 3.
pub fn written(grant: &Grant) -> Bits<21>
    requires some { 1 ≤ grant.now.blocks }
    requires inside { grant.now.start + grant.now.blocks ≤ 6 }
    requires version { grant.now.rv ≤ 3 }
    requires column { (grant.now.column ≡ 2) ⊎ (grant.now.column ≡ 3) }
    requires size { slice_get (sizes_of grant.now.column) grant.now.mcs ≡ Some grant.now.size }
{
    dci::write(grant)
}

macro_rules! rows {
    ($(($k:literal, $f1:literal, $f2:literal)),*) => {
        [$(Row { k: $k, f1: $f1, f2: $f2 }),*]
    };
}

const ROWS: [Row; 31] = rows![
    (56, 19, 42),
    (80, 11, 20),
    (96, 11, 24),
    (112, 41, 84),
    (128, 15, 32),
    (144, 17, 108),
    (168, 101, 84),
    (200, 13, 50),
    (232, 85, 58),
    (248, 33, 62),
    (280, 103, 210),
    (320, 21, 120),
    (352, 21, 44),
    (400, 151, 40),
    (416, 25, 52),
    (464, 247, 58),
    (480, 89, 180),
    (512, 31, 64),
    (528, 17, 66),
    (576, 65, 96),
    (608, 37, 76),
    (624, 41, 234),
    (656, 185, 82),
    (704, 155, 44),
    (720, 79, 120),
    (768, 217, 48),
    (800, 17, 80),
    (864, 17, 48),
    (928, 15, 58),
    (992, 65, 124),
    (1024, 31, 64)
];

/// Returns row `n` of the 31 interleaver rows used from TS 36.212 table 5.1.3-3.
pub fn row_at(n: usize) -> Row
    requires { n < 31 }
    ensures { IsRow result }
{
    ROWS[n]
}

/// Calls `turbo_code::encode` if `bits` has the block size of row `n`; otherwise returns `None`.
pub fn coded(bits: &[bool], n: usize) -> Option<Coded>
    requires { n < 31 }
{
    let row = row_at(n);
    if bits.len() == row.k as usize {
        Some(turbo_code::encode(bits, row))
    } else {
        None
    }
}

/// Calls `turbo_code::match_out` for output bit `i`, at most 4,096, if `coded` has the block size of row `n`; otherwise
/// returns `None`.
pub fn sent_bit(coded: &Coded, n: usize, rv: u8, i: usize) -> Option<bool>
    requires row { n < 31 }
    requires version { rv ≤ 3 }
    requires index { i ≤ 4096 }
{
    if coded.k == row_at(n).k {
        Some(turbo_code::match_out(coded, rv, i))
    } else {
        None
    }
}

/// Calls `turbo_code::combine` with up to 1,224 soft values.
pub fn combined(values: &[i16], n: usize, rv: u8) -> Combined
    requires values { length values.now ≤ 1224 }
    requires row { n < 31 }
    requires version { rv ≤ 3 }
{
    turbo_code::combine(values, row_at(n), rv)
}

/// Calls `turbo_dec::half` with 1 to 1,024 systematic, parity and prior values of magnitude up to 4,096.
pub fn halved(
    systematic: &[i32],
    parity: &[i32],
    tail: &[i32; 6],
    prior: &[i32],
    out: &mut [i32],
    work: &mut Work,
)
    requires some { 1 ≤ length systematic.now }
    requires most { length systematic.now ≤ 1024 }
    requires parities { length parity.now ≡ length systematic.now }
    requires priors { length prior.now ≡ length systematic.now }
    requires room { length out.old ≡ length systematic.now }
    requires small { All (IsAtMost 4096) systematic.now }
    requires small_parity { All (IsAtMost 4096) parity.now }
    requires small_tail { All (IsAtMost 4096) tail.now }
    requires small_prior { All (IsAtMost 4096) prior.now }
{
    turbo_dec::half(systematic, parity, tail, prior, out, work);
}

/// Calls `turbo_dec::decode` with sums of magnitude up to 2,047 if they have the block size of row `n`; otherwise
/// returns `None`.
pub fn decoded(sums: &Combined, n: usize, work: &mut Work) -> Option<Block>
    requires row { n < 31 }
    requires small { All (All (IsAtMost 2047)) sums.now.d }
{
    let row = row_at(n);
    if sums.k == row.k {
        turbo_dec::decode(sums, row, work)
    } else {
        None
    }
}

/// Calls `erasure::fills` for up to 1,224 sent coded bits if `bits` has the block size of row `n`; otherwise returns
/// `None`.
pub fn resolved(bits: &[bool], n: usize, sent: u16) -> Option<bool>
    requires row { n < 31 }
    requires sent { sent ≤ 1224 }
{
    let row = row_at(n);
    if bits.len() == row.k as usize {
        Some(erasure::fills(bits, row, sent))
    } else {
        None
    }
}

/// Calls `sib1::write` with fields in the ranges of TS 36.331 section 6.2.2.
pub fn information(fields: &Sib1) -> bool
    requires networks { (1 ≤ length fields.now.plmns) × (length fields.now.plmns ≤ 6) }
    requires digits { All HasDecimalDigits fields.now.plmns }
    requires first { IfSome (slice_get fields.now.plmns 0) (λ plmn. IsSome plmn.mcc) }
    requires cell { fields.now.cell < 2 ^ 28 }
    requires csg { IfSome fields.now.csg_identity (λ identity. identity < 2 ^ 27) }
    requires level { (negsuc 69 ≤ℤ fields.now.q_rx) × (fields.now.q_rx ≤ℤ negsuc 21) }
    requires offset { IfSome fields.now.q_offset (λ offset. (1 ≤ offset) × (offset ≤ 8)) }
    requires power { IfSome fields.now.p_max (λ power. (negsuc 29 ≤ℤ power) × (power ≤ℤ pos 33)) }
    requires band { (1 ≤ fields.now.band) × (fields.now.band ≤ 64) }
    requires entries { (1 ≤ length fields.now.scheduling) × (length fields.now.scheduling ≤ 32) }
    requires codes { All HasSmallCodes fields.now.scheduling }
    requires duplex { IfSome fields.now.tdd (λ tdd. (tdd.0 ≤ 6) × (tdd.1 ≤ 8)) }
    requires window { fields.now.window ≤ 6 }
    requires tag { fields.now.tag ≤ 31 }
    requires plain { fields.now.extended ≡ false }
{
    sib1::write(fields, &mut Writer::new())
}

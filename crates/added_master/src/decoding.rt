//! The MIB that added sums decode to.

ghost use Rattle.std.specs.Prelude.{◌≡◌, ◌⊎◌, ◌↔◌, ◌<◌, ◌≤◌, ◌^◌, IsTrue, MatchOption};
ghost use Rattle.finite.specs.Sizes.{RowsWithin};
ghost use Rattle.cs_bits.specs.Numbers.{field};
ghost use Rattle.cs_bits.specs.Checks.{HasCheck16};
ghost use Rattle.pbch.specs.Master.{Carries, mask as mask_of};
ghost use Rattle.added_master.specs.Master.{DecodesAdded, IsCandidate};
ghost use Rattle.added_master.specs.declared.master.AddedMaster.{AddedMaster};

use crate::AddedMaster;
use crate::signs::count_matches;
use cs_bits::{Bits, crc16, number_of};
use lte_types::{Bandwidth, Duration, Mib, Resource};
use tailbite::{Trellis, least};

// How many of 120 signs have to match.
const LEAST_MATCHES: u8 = 102;

/// Decodes the MIB from 120 added sums of magnitude at most 2^20. Returns `None` if fewer than 102 signs match, the CRC
/// fails with the mask for `ports`, or the upper frame number bits are not `upper`.
pub fn decode_added(
    sums: &[[i32; 3]; 40],
    ports: u8,
    phase: u8,
    upper: u8,
    work: &mut Trellis,
) -> Option<AddedMaster>
    requires magnitudes { RowsWithin (2 ^ 20) sums.now }
    requires ports { (ports ≡ 1) ⊎ (ports ≡ 2) ⊎ (ports ≡ 4) }
    ensures { MatchOption result
        ((m : AddedMaster) → IsCandidate ports phase upper m → DecodesAdded sums.now m → ⊥)
        (λ m. IsCandidate ports phase upper m × DecodesAdded sums.now m) }
{
    let (word, _) = least(sums, work);
    let matches = count_matches(sums, &word);
    if matches < LEAST_MATCHES {
        return None;
    }
    if !passes(&word, ports) {
        return None;
    }
    if word.field(6, 8) != upper as u64 {
        return None;
    }
    let mib = mib_of(&word)?;
    Some(AddedMaster {
        ports,
        phase,
        mib,
        matches,
    })
}

// Returns whether the CRC in `word` passes with the mask for `ports` antenna ports.
fn passes(word: &Bits<40>, ports: u8) -> bool
    ensures { IsTrue result ↔ HasCheck16 (mask_of ports) word.now }
{
    let (message, check) = word.slice().split_at(24);
    number_of(check) as u16 == crc16(message) ^ mask(ports)
}

// Returns the CRC mask for an antenna port count (TS 36.212 section 5.3.1.1).
fn mask(ports: u8) -> u16
    ensures { result ≡ mask_of ports }
{
    match ports {
        1 => 0x0000,
        2 => 0xffff,
        _ => 0x5555,
    }
}

// Returns the MIB that `word` carries, or `None` if its bandwidth code is above 5.
fn mib_of(word: &Bits<40>) -> Option<Mib>
    ensures { MatchOption result (5 < field word.now 0 3) (λ mib. (field word.now 0 3 ≤ 5) × Carries word.now mib) }
{
    Mib::new(
        Bandwidth::from_code(word.field(0, 3) as u8)?,
        Duration::from_code(word.field(3, 1) as u8)?,
        Resource::from_code(word.field(4, 2) as u8)?,
        word.field(6, 8) as u8,
        word.field(14, 10) as u16,
    )
}

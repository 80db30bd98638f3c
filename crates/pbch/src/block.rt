//! The antenna port count and the MIB that a 40-bit word carries.

ghost use Rattle.std.specs.Prelude.{◌≡◌, ℕ, ◌<◌, ◌≤◌, ◌^◌, ◌-◌, length, slice_range, bit_xor, MatchOption, nat_eq};
ghost use Rattle.cs_bits.specs.Numbers.{field};
ghost use Rattle.pbch.specs.Master.{PassesWith, Carries};

use cs_bits::{Bits, crc16, number_of};
use lte_types::{Bandwidth, Duration, Mib, Resource};

// The CRC masks for 1, 2 and 4 antenna ports (TS 36.212 section 5.3.1.1).
const ONE_PORT: u16 = 0x0000;

const TWO_PORTS: u16 = 0xffff;

const FOUR_PORTS: u16 = 0x5555;

/// Returns the antenna port count with whose mask the CRC of `word` passes, or `None` if no mask fits.
pub(crate) fn ports_of(word: &Bits<40>) -> Option<u8>
    ensures { MatchOption result ((ports : ℕ) → PassesWith ports word.now → ⊥) (λ ports. PassesWith ports word.now) }
{
    let word = word.slice();
    let (block, check) = word.split_at(word.len() - 16);
    let check = number_of(check) as u16;
    let remainder = crc16(block);
    if check == remainder ^ ONE_PORT {
        Some(1)
    } else if check == remainder ^ TWO_PORTS {
        Some(2)
    } else if check == remainder ^ FOUR_PORTS {
        Some(4)
    } else {
        None
    }
}

/// Returns the MIB that `word` carries, or `None` if its bandwidth code is above 5.
pub(crate) fn mib_of(word: &Bits<40>) -> Option<Mib>
    ensures { MatchOption result (5 < field word.now 0 3) (λ mib. (field word.now 0 3 ≤ 5) × Carries word.now mib) }
{
    Mib::new(
        Bandwidth::from_code(word.field(0, 3) as u8)?,
        Duration::from_code(word.field(3, 1) as u8)?,
        Resource::from_code(word.field(4, 2) as u8)?,
        word.field(6, 8) as u8,
        word.field(14, 10) as u16,
    )
}

//! The downlink control information of the common search space.

ghost use Rattle.std.specs.Prelude.{◌≡◌, ℕ, ◌≤◌, ◌^◌, IfOk, IsTrue, ◌↔◌};
ghost use Rattle.finite.specs.Sizes.{AllWithin, RowsWithin};
ghost use Rattle.grid_map.specs.Control.{element_count};
ghost use Rattle.cs_bits.specs.Checks.{HasCheck16, message_of};
ghost use Rattle.conv_code.specs.Reading.{summed};
ghost use Rattle.dci.specs.Format1A.{IsGrant};
ghost use Rattle.pdcch.specs.Candidate.{candidate_values_by};
ghost use Rattle.dci.specs.Fields.{system_information_rnti};
ghost use Rattle.sib1_reader.specs.Control.{Grants};

use conv_code::combine;
use cs_bits::{Bits, crc16, number_of};
use dci::{Grant, SI_RNTI};
use lte_types::{Cfi, Mib, Sib1Reason};
use pdcch::{candidate, elements};
use soft_bits::ReadSlot;
use tailbite::{Trellis, least};

// The number of information bits in a control message, without the CRC.
const INFORMATION: usize = 21;

/// Returns the grant of subframe 5. Fails if there are fewer than four control channel elements, if the word's CRC does
/// not pass, or with an error of `dci::read`, whichever is first. `first` is slot 10.
pub fn granted<S: ReadSlot>(
    first: &S,
    cfi: Cfi,
    mib: Mib,
    trellis: &mut Trellis,
) -> Result<Grant, Sib1Reason>
    requires { (S.seen_as first.now).number ≡ 10 }
    ensures answer { Grants (element_count cfi mib.duration mib.resource)
        (candidate_values_by S.values_by (S.seen_as first.now) cfi mib.duration mib.resource) result }
    ensures grant { IfOk result IsGrant }
    ensures wide { IfOk result (λ grant. 2 ≤ cfi) }
{
    match candidate(first, cfi, mib) {
        Some(values) => grant_of(&values, trellis),
        None => Err(Sib1Reason::NoSearchSpace(elements(first.cell(), cfi, mib))),
    }
}

/// Returns the grant decoded from the 288 soft values of control channel elements 0 to 3, each from -127 to 127. Fails
/// with `NoControl` if the CRC in the 37-bit word fails, or with an error of `dci::read`.
pub fn grant_of(values: &[i16; 288], trellis: &mut Trellis) -> Result<Grant, Sib1Reason>
    requires { AllWithin 127 values.now }
    ensures answer { (count : ℕ) → 4 ≤ count → Grants count values.now result }
    ensures grant { IfOk result IsGrant }
{
    let (word, _) = least(&sums_of(values), trellis);
    if !is_checked(&word) {
        return Err(Sib1Reason::NoControl);
    }
    dci::read(&information_of(&word))
}

// Returns the 288 soft values combined by coded bit of the 37-bit word.
fn sums_of(values: &[i16; 288]) -> [[i32; 3]; 37]
    requires { AllWithin 127 values.now }
    ensures sums { result ≡ summed 37 values.now }
    ensures magnitudes { RowsWithin (2 ^ 20) result }
{
    combine(values)
}

// Returns whether the last 16 bits of `word` are the CRC of the others, masked with the SI-RNTI (TS 36.212 section
// 5.3.3.2).
fn is_checked(word: &Bits<37>) -> bool
    ensures { IsTrue result ↔ HasCheck16 system_information_rnti word.now }
{
    let (information, check) = word.slice().split_at(INFORMATION);
    number_of(check) as u16 == crc16(information) ^ SI_RNTI
}

// Returns the 21 information bits of `word`, without the CRC.
fn information_of(word: &Bits<37>) -> Bits<21>
    ensures { result ≡ message_of 16 word.now }
{
    let mut bits = [false; INFORMATION];
    bits.copy_from_slice(&word.slice()[..INFORMATION]);
    Bits::new(bits)
}

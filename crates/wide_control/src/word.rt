//! The grant that a PDCCH candidate offers.

ghost use Rattle.std.specs.Prelude.{◌≡◌, ◌+◌, ◌^◌, ◌≤◌, ◌↔◌, IfSome, IsTrue, length};
ghost use Rattle.finite.specs.Sizes.{AllWithin, RowsWithin};
ghost use Rattle.cs_bits.specs.Checks.{HasCheck16};
ghost use Rattle.conv_code.specs.Reading.{summed};
ghost use Rattle.tailbite.specs.LeastWord.{IsLeastWord};
ghost use Rattle.dci.specs.Fields.{system_information_rnti};
ghost use Rattle.wide_control.specs.declared.format.DciFormat.TheVariants.{Format1A, Format1C};
ghost use Rattle.wide_control.specs.Control.{IsBounded};
ghost use Rattle.wide_control.specs.Format.{payload_size as payload_size_of};
ghost use Rattle.wide_control.specs.Offer.{Gives, IsOffer};

use crate::DciFormat;
use crate::format::grant_in;
use conv_code::combine;
use cs_bits::{Bits, crc16, number_of};
use dci::SI_RNTI;
use lte_types::Sfn;
use tailbite::{Trellis, least};
use wide_cell::WideCell;
use wide_grant::WideGrant;

// The number of bits in a CRC.
const CHECK: usize = 16;

/// Returns the grant in the minimum-cost word for a candidate's soft values, at most 576 from -127 to 127, or `None` if
/// the word's CRC fails or its payload has no grant (TS 36.212 section 5.3.3.2).
pub fn offer(
    cell: &WideCell,
    sfn: Sfn,
    format: DciFormat,
    values: &[i16],
    work: &mut Trellis,
) -> Option<WideGrant>
    requires count { length values.now ≤ 576 }
    requires magnitudes { AllWithin 127 values.now }
    ensures offer { IsOffer cell.now.blocks sfn values.now format result }
    ensures bounded { IfSome result IsBounded }
{
    match format {
        DciFormat::Format1A => long_offer(cell, sfn, values, work),
        DciFormat::Format1C => short_offer(cell, sfn, values, work),
    }
}

// Returns the grant that the values offer in format 1A, whose words have 37 to 44 bits.
#[tactic(auto, unfolding(crate::specs::Format::payload_size))]
fn long_offer(cell: &WideCell, sfn: Sfn, values: &[i16], work: &mut Trellis) -> Option<WideGrant>
    requires count { length values.now ≤ 576 }
    requires magnitudes { AllWithin 127 values.now }
    ensures offer { IsOffer cell.now.blocks sfn values.now Format1A result }
    ensures bounded { IfSome result IsBounded }
{
    let format = DciFormat::Format1A;
    match cell.blocks() {
        6 => offer_in::<37>(cell, sfn, format, values, work),
        15 => offer_in::<38>(cell, sfn, format, values, work),
        25 => offer_in::<41>(cell, sfn, format, values, work),
        50 | 75 => offer_in::<43>(cell, sfn, format, values, work),
        _ => offer_in::<44>(cell, sfn, format, values, work),
    }
}

// Returns the grant that the values offer in format 1C, whose words have 24 to 31 bits.
#[tactic(auto, unfolding(crate::specs::Format::payload_size))]
fn short_offer(cell: &WideCell, sfn: Sfn, values: &[i16], work: &mut Trellis) -> Option<WideGrant>
    requires count { length values.now ≤ 576 }
    requires magnitudes { AllWithin 127 values.now }
    ensures offer { IsOffer cell.now.blocks sfn values.now Format1C result }
    ensures bounded { IfSome result IsBounded }
{
    let format = DciFormat::Format1C;
    match cell.blocks() {
        6 => offer_in::<24>(cell, sfn, format, values, work),
        15 => offer_in::<26>(cell, sfn, format, values, work),
        25 => offer_in::<28>(cell, sfn, format, values, work),
        50 => offer_in::<29>(cell, sfn, format, values, work),
        75 => offer_in::<30>(cell, sfn, format, values, work),
        _ => offer_in::<31>(cell, sfn, format, values, work),
    }
}

// Returns the grant that the values offer in a word of `N` bits, 16 more than the format's payload.
fn offer_in<const N: usize>(
    cell: &WideCell,
    sfn: Sfn,
    format: DciFormat,
    values: &[i16],
    work: &mut Trellis,
) -> Option<WideGrant>
    requires size { N ≡ payload_size_of cell.now.blocks format + 16 }
    requires low { 24 ≤ N }
    requires high { N ≤ 64 }
    requires count { length values.now ≤ 576 }
    requires magnitudes { AllWithin 127 values.now }
    ensures offer { IsOffer cell.now.blocks sfn values.now format result }
    ensures bounded { IfSome result IsBounded }
{
    let (word, _) = least(&sums_of::<N>(values), work);
    grant_of(cell, sfn, format, &word)
}

// Returns the soft values combined by coded bit of a word of `N` bits.
fn sums_of<const N: usize>(values: &[i16]) -> [[i32; 3]; N]
    requires low { 24 ≤ N }
    requires high { N ≤ 64 }
    requires count { length values.now ≤ 576 }
    requires magnitudes { AllWithin 127 values.now }
    ensures sums { result ≡ summed N values.now }
    ensures magnitudes { RowsWithin (2 ^ 20) result }
{
    combine(values)
}

// Returns the grant that a word of `N` bits conveys.
fn grant_of<const N: usize>(
    cell: &WideCell,
    sfn: Sfn,
    format: DciFormat,
    word: &Bits<N>,
) -> Option<WideGrant>
    requires size { N ≡ payload_size_of cell.now.blocks format + 16 }
    requires high { N ≤ 64 }
    ensures grant { Gives cell.now.blocks sfn format word.now result }
    ensures bounded { IfSome result IsBounded }
{
    if is_checked(word) {
        grant_in(cell, sfn, format, &word.slice()[..N - CHECK]).ok()
    } else {
        None
    }
}

// Returns whether the last 16 bits of `word` are the CRC of the others, masked with the SI-RNTI.
fn is_checked<const N: usize>(word: &Bits<N>) -> bool
    requires low { 16 ≤ N }
    requires high { N ≤ 64 }
    ensures { IsTrue result ↔ HasCheck16 system_information_rnti word.now }
{
    let (payload, check) = word.slice().split_at(N - CHECK);
    number_of(check) as u16 == crc16(payload) ^ SI_RNTI
}

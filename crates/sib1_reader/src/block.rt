//! The transport block of SystemInformationBlockType1.

ghost use Rattle.std.specs.Prelude.{◌≡◌, ◌+◌, ◌<◌, ◌≤◌, All, IfOk, length};
ghost use Rattle.std.specs.Option.{option_map};
ghost use Rattle.finite.specs.Sizes.{AllWithin};
ghost use Rattle.lte_types.specs.Ranges.{IsValid};
ghost use Rattle.dci.specs.Format1A.{IsGrant};
ghost use Rattle.turbo_code.specs.Table.{IsRow};
ghost use Rattle.turbo_code.specs.Reading.{summed};
ghost use Rattle.turbo_dec.specs.Decoder.{IsSmall};
ghost use Rattle.pdsch.specs.Values.{shared_values_by};
ghost use Rattle.sib1_reader.specs.Block.{IsBlock, Decodes, IsAnswerBlock};

use dci::Grant;
use lte_types::{Cfi, Sib1, Sib1Reason};
use pdsch::MOST_VALUES;
use soft_bits::ReadSlot;
use turbo_code::{Combined, Row, combine, row_of};
use turbo_dec::{Block, Work, decode};

/// Returns what `fields_with_block` does for the transport block that `grant` assigns. `first` and `second` are slots 10
/// and 11 of one cell, and `cfi` is 2 or 3.
pub(crate) fn fields_in<S: ReadSlot>(
    first: &S,
    second: &S,
    cfi: Cfi,
    grant: &Grant,
    turbo: &mut Work,
) -> (Result<Sib1, Sib1Reason>, Block)
    requires first { (S.seen_as first.now).number ≡ 10 }
    requires second { (S.seen_as second.now).number ≡ 11 }
    requires cell { (S.seen_as second.now).identity ≡ (S.seen_as first.now).identity }
    requires cfi { 2 ≤ cfi }
    requires grant { IsGrant grant.now }
    ensures answer { Decodes (shared_values_by S.carrier S.values_by (S.seen_as first.now) (S.seen_as second.now)
        cfi grant.now.start grant.now.blocks) grant.now result.0 }
    ensures block { IsAnswerBlock (shared_values_by S.carrier S.values_by (S.seen_as first.now) (S.seen_as second.now)
        cfi grant.now.start grant.now.blocks) grant.now result.0 result.1.items }
    ensures valid { IfOk result.0 IsValid }
{
    let mut values = [0; MOST_VALUES];
    let count = pdsch::values(first, second, cfi, grant, &mut values);
    fields_with_block(&values[..count], grant, turbo)
}

/// Returns the SIB1 fields decoded from the PDSCH soft values, at most 5,760 from -127 to 127. Fails with `NotDecoded`
/// if no CRC passes, or with the error of `sib1::read`.
pub fn fields_of(values: &[i16], grant: &Grant, turbo: &mut Work) -> Result<Sib1, Sib1Reason>
    requires count { length values.now ≤ 5760 }
    requires magnitudes { AllWithin 127 values.now }
    requires grant { IsGrant grant.now }
    ensures answer { Decodes values.now grant.now result }
    ensures valid { IfOk result IsValid }
{
    fields_with_block(values, grant, turbo).0
}

// Returns the SIB1 fields as `fields_of` does, with the bits of the transport block that carries them; no bits without
// fields.
fn fields_with_block(
    values: &[i16],
    grant: &Grant,
    turbo: &mut Work,
) -> (Result<Sib1, Sib1Reason>, Block)
    requires count { length values.now ≤ 5760 }
    requires magnitudes { AllWithin 127 values.now }
    requires grant { IsGrant grant.now }
    ensures answer { Decodes values.now grant.now result.0 }
    ensures block { IsAnswerBlock values.now grant.now result.0 result.1.items }
    ensures valid { IfOk result.0 IsValid }
{
    match block_of(values, grant, turbo) {
        Some(block) => match sib1::read(block.as_slice()) {
            Ok(fields) => (Ok(fields), block),
            Err(reason) => (Err(reason), Block::new()),
        },
        None => (Err(Sib1Reason::NotDecoded), Block::new()),
    }
}

/// Returns the transport block decoded from the PDSCH soft values, at most 5,760 from -127 to 127, or `None` if no
/// iteration's block passes the CRC. `grant` is one that `dci::read` can return.
pub fn block_of(values: &[i16], grant: &Grant, turbo: &mut Work) -> Option<Block>
    requires count { length values.now ≤ 5760 }
    requires magnitudes { AllWithin 127 values.now }
    requires grant { IsGrant grant.now }
    ensures { IsBlock values.now grant.now (option_map (λ found. found.items) result) }
{
    let row = row_for(grant);
    decode(&sums_of(values, row, grant.rv), row, turbo)
}

// Returns the row of the turbo code's table for the grant's transport block with its CRC.
fn row_for(grant: &Grant) -> Row
    requires { IsGrant grant.now }
    ensures row { IsRow result }
    ensures size { result.k ≡ grant.now.size + 24 }
{
    match row_of(grant.size) {
        Some(row) => row,
        None => unreachable!(),
    }
}

// Returns the soft values combined by coded bit, with rate matching from redundancy version `rv`.
fn sums_of(values: &[i16], row: Row, rv: u8) -> Combined
    requires count { length values.now ≤ 5760 }
    requires magnitudes { AllWithin 127 values.now }
    requires row { IsRow row }
    requires version { rv < 4 }
    ensures sums { result.d ≡ summed row.k rv values.now }
    ensures small { All (All IsSmall) result.d }
{
    combine(values, row, rv)
}

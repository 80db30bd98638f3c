//! The transport block, and the SIB1 fields in it.

ghost use Rattle.std.specs.Prelude.{◌≡◌, All, IfOk, Some};
ghost use Rattle.lte_types.specs.Ranges.{IsValid};
ghost use Rattle.sib1.specs.Message.{Says};
ghost use Rattle.turbo_code.specs.Table.{IsAnyRow};
ghost use Rattle.turbo_dec.specs.Block.{block};
ghost use Rattle.turbo_dec.specs.Decoder.{IsSmall};
ghost use Rattle.wide_block.specs.Block.{Decodes, IsReadFrom, CarriesFields, block_in as block_in_sums};
ghost use Rattle.wide_block.specs.Answer.{fields_in};

use crate::row::row_for;
use crate::table::Table;
use lte_types::{Sib1, Sib1Reason};
use turbo_code::{Combined, Row};
use turbo_dec::{Block, Work, decode};

/// SIB1 fields, and the transport block that carries them. (own)
#[derive(Drop)]
pub struct SystemBlock {
    /// The fields.
    pub fields: Sib1,
    /// The bits of the transport block, at most 1,000, without the CRC.
    pub bits: Block,
}

/// Returns the SIB1 fields without their transport block, or the reason why there are none. (own)
pub fn fields_of(answer: Result<SystemBlock, Sib1Reason>) -> Result<Sib1, Sib1Reason>
    ensures { result ≡ fields_in answer }
{
    match answer {
        Ok(found) => Ok(found.fields),
        Err(reason) => Err(reason),
    }
}

/// Returns the transport block of `size` bits that decodes from `sums`, and the SIB1 fields in it. Fails with
/// `BlockTooLarge` if the size has no row, with `NotDecoded` if no CRC passes, or with an error of `sib1::read`.
pub(crate) fn block_in(sums: &Table, size: u16, turbo: &mut Work) -> Result<SystemBlock, Sib1Reason>
    requires { All (All IsSmall) sums.now }
    ensures answer { Decodes sums.now size (fields_in result) }
    ensures bits { IfOk result (λ found. CarriesFields (block_in_sums sums.now size) found.bits.items) }
    ensures valid { IfOk (fields_in result) IsValid }
{
    match row_for(size) {
        Some(row) => block_by(&Combined { k: row.k, d: *sums }, row, turbo),
        None => Err(Sib1Reason::BlockTooLarge),
    }
}

// Returns the transport block that decodes from `sums` with a row of either table, and the SIB1 fields in it.
fn block_by(sums: &Combined, row: Row, turbo: &mut Work) -> Result<SystemBlock, Sib1Reason>
    requires row { IsAnyRow row }
    requires magnitudes { All (All IsSmall) sums.now.d }
    ensures answer { IsReadFrom (block row sums.now.d) (fields_in result) }
    ensures bits { IfOk result (λ found. CarriesFields (block row sums.now.d) found.bits.items) }
    ensures valid { IfOk (fields_in result) IsValid }
{
    match decode(sums, row, turbo) {
        Some(bits) => read_in(bits),
        None => Err(Sib1Reason::NotDecoded),
    }
}

// Returns the SIB1 fields in the bits of a transport block, with these bits. Fails as `sib1::read` does.
fn read_in(bits: Block) -> Result<SystemBlock, Sib1Reason>
    ensures answer { Says bits.items (fields_in result) }
    ensures bits { IfOk result (λ found. CarriesFields (Some bits.items) found.bits.items) }
    ensures valid { IfOk (fields_in result) IsValid }
{
    match sib1::read(bits.as_slice()) {
        Ok(fields) => Ok(SystemBlock { fields, bits }),
        Err(reason) => Err(reason),
    }
}

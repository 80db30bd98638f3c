//! The sums of a grant's soft values.

ghost use Rattle.std.specs.Prelude.{◌≡◌, ◌+◌, ◌<◌, ◌≤◌, All, IfOk, length};
ghost use Rattle.finite.specs.Sizes.{AllWithin};
ghost use Rattle.lte_types.specs.Ranges.{IsValid};
ghost use Rattle.turbo_code.specs.Table.{IsAnyRow};
ghost use Rattle.turbo_code.specs.Reading.{summed};
ghost use Rattle.turbo_dec.specs.Decoder.{IsSmall};
ghost use Rattle.wide_block.specs.Sums.{offer_of};
ghost use Rattle.wide_block.specs.Block.{OfferSays, CarriesFields, offer_block};
ghost use Rattle.wide_block.specs.Answer.{fields_in};

use crate::block::{SystemBlock, block_in, fields_of};
use crate::row::row_for;
use crate::table::Table;
use crate::values::shared_values;
use lte_types::{Cfi, Sib1, Sib1Reason};
use std::alloc::{AllocError, Global};
use std::marker::Model;
use turbo_code::{Row, combine};
use turbo_dec::Work;
use wide_grant::WideGrant;
use wide_slot::WideSlot;

/// A grant, and the sums of its soft values by coded bit; no sums if the transport block is too large. Contracts see an
/// `Offer`. (own)
#[derive(Drop)]
pub struct GrantSums {
    grant: WideGrant,
    pub(crate) sums: Option<Table>,
}

impl Model for GrantSums {
    ghost use Rattle.std.specs.Prelude.{All, IfSome};
    ghost use Rattle.turbo_dec.specs.Decoder.{IsSmall};
    ghost use Rattle.wide_block.specs.Sums.{Offer};

    ghost Value = { Offer };

    ghost view = { λ s. record { grant = s.grant; sums = s.sums } };

    ghost invariant = { λ s. IfSome s.sums (λ sums. All (All IsSmall) sums) };
}

impl GrantSums {
    /// Returns the grant.
    pub fn grant(&self) -> &WideGrant
        ensures { result.now ≡ self.now.grant }
    {
        &self.grant
    }

    /// Returns the SIB1 fields in the grant's transport block. Fails with `BlockTooLarge` if the block is too large,
    /// with `NotDecoded` if no CRC passes, or with an error of `sib1::read`.
    pub fn fields(&self, turbo: &mut Work) -> Result<Sib1, Sib1Reason>
        ensures answer { OfferSays self.now result }
        ensures valid { IfOk result IsValid }
    {
        fields_of(self.system_block(turbo))
    }

    /// Returns the grant's transport block, and the SIB1 fields in it. Fails as `fields` does.
    pub fn system_block(&self, turbo: &mut Work) -> Result<SystemBlock, Sib1Reason>
        ensures answer { OfferSays self.now (fields_in result) }
        ensures bits { IfOk result (λ found. CarriesFields (offer_block self.now) found.bits.items) }
        ensures valid { IfOk (fields_in result) IsValid }
    {
        match &self.sums {
            Some(sums) => block_in(sums, self.grant.size, turbo),
            None => Err(Sib1Reason::BlockTooLarge),
        }
    }
}

/// Returns a grant of subframe 5 with the sums of its soft values by coded bit. `first` and `second` are slots 10 and
/// 11 of one cell. Fails only if an allocation fails.
pub fn sums_of(
    alloc: Global,
    first: &WideSlot,
    second: &WideSlot,
    cfi: Cfi,
    grant: &WideGrant,
) -> Result<GrantSums, AllocError>
    requires first { first.now.slot.number ≡ 10 }
    requires second { second.now.slot.number ≡ 11 }
    requires same { second.now.cell ≡ first.now.cell }
    requires run { grant.now.run.start + grant.now.run.blocks ≤ 1000 }
    requires rv { grant.now.rv < 4 }
    ensures { IfOk result (λ sums. sums ≡ offer_of first.now second.now cfi grant.now) }
{
    match row_for(grant.size) {
        Some(row) => {
            let values = shared_values(alloc, first, second, cfi, grant)?;
            Ok(GrantSums {
                grant: *grant,
                sums: Some(combined(&values, row, grant.rv)),
            })
        }
        None => Ok(GrantSums {
            grant: *grant,
            sums: None,
        }),
    }
}

// Returns the sums of soft values by coded bit, with rate matching from redundancy version `rv`.
fn combined(values: &[i16], row: Row, rv: u8) -> Table
    requires row { IsAnyRow row }
    requires rv { rv < 4 }
    requires count { length values.now ≤ 5760 }
    requires magnitudes { AllWithin 127 values.now }
    ensures sums { result ≡ summed row.k rv values.now }
    ensures small { All (All IsSmall) result }
{
    combine(values, row, rv).d
}

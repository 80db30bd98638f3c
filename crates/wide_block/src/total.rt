//! Sums over several frames.

ghost use Rattle.std.specs.Prelude.{◌≡◌, ◌+◌, ◌<◌, IfOk};
ghost use Rattle.lte_types.specs.Ranges.{IsValid};
ghost use Rattle.wide_block.specs.Sums.{limited as limited_of, plus_any, zero_sums};
ghost use Rattle.wide_block.specs.Block.{Decodes, CarriesFields, block_in as block_in_sums};
ghost use Rattle.wide_block.specs.Answer.{fields_in};

use crate::GrantSums;
use crate::block::{SystemBlock, block_in, fields_of};
use crate::table::{Table, limited, plus};
use lte_types::{Sib1, Sib1Reason};
use std::marker::Model;
use turbo_dec::Work;

/// The sums of up to eight offers, added. Contracts see the number of offers, and the sums before clamping. (own)
#[derive(Drop)]
pub struct Total {
    count: u8,
    sums: Table,
}

impl Model for Total {
    ghost use Rattle.std.specs.Prelude.{◌*◌, ◌≤◌};
    ghost use Rattle.finite.specs.Sizes.{RowsWithin};
    ghost use Rattle.wide_block.specs.Sums.{Adding};

    ghost Value = { Adding };

    ghost view = { λ t. record { count = t.count; sums = t.sums } };

    ghost invariant = { λ t. (t.count ≤ 8) × RowsWithin (t.count * 4096) t.sums };
}

impl Total {
    /// Returns the sums of no offers, all 0.
    pub fn new() -> Total
        ensures count { result.count ≡ 0 }
        ensures sums { result.sums ≡ zero_sums }
    {
        Total {
            count: 0,
            sums: [[0; 1028]; 3],
        }
    }

    /// Adds the sums of an offer. An offer without sums adds nothing.
    pub fn add(&mut self, offer: &GrantSums)
        requires { self.old.count < 8 }
        ensures count { self.new.count ≡ self.old.count + 1 }
        ensures sums { self.new.sums ≡ plus_any self.old.sums offer.now.sums }
    {
        if let Some(sums) = &offer.sums {
            self.sums = plus(&self.sums, sums);
        }
        self.count += 1;
    }

    /// Returns the SIB1 fields in the transport block of `size` bits that decodes from the sums, clamped to -4,096 to
    /// 4,096. Fails as `GrantSums::fields` does.
    pub fn fields(&self, size: u16, turbo: &mut Work) -> Result<Sib1, Sib1Reason>
        ensures answer { Decodes (limited_of self.now.sums) size result }
        ensures valid { IfOk result IsValid }
    {
        fields_of(self.system_block(size, turbo))
    }

    /// Returns the transport block of `size` bits that decodes from the sums, clamped to -4,096 to 4,096, and the SIB1
    /// fields in it. Fails as `GrantSums::fields` does.
    pub fn system_block(&self, size: u16, turbo: &mut Work) -> Result<SystemBlock, Sib1Reason>
        ensures answer { Decodes (limited_of self.now.sums) size (fields_in result) }
        ensures bits { IfOk result (λ found. CarriesFields (block_in_sums (limited_of self.now.sums) size)
            found.bits.items) }
        ensures valid { IfOk (fields_in result) IsValid }
    {
        block_in(&limited(&self.sums), size, turbo)
    }
}

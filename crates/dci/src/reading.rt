//! Decoding a grant.

ghost use Rattle.std.specs.Prelude.{◌≡◌, IfOk};
ghost use Rattle.dci.specs.Format1A.{Says, IsGrant, column_of};

use crate::assignment::blocks_of;
use crate::{Grant, size};
use cs_bits::Bits;
use lte_types::Sib1Reason;

// Bit offsets of the fields (TS 36.212 section 5.3.3.1.3).
const FORMAT_1A: usize = 0;

const DISTRIBUTED: usize = 1;

const ASSIGNMENT: usize = 2;

const MCS: usize = 7;

const RV: usize = 16;

const TPC_LOW: usize = 19;

/// Decodes a grant, or returns the first reason to refuse it: a format other than 1A, distributed blocks, a resource
/// indication value above 20, an MCS above 26, or no transport block size. Other fields are ignored.
pub fn read(word: &Bits<21>) -> Result<Grant, Sib1Reason>
    ensures answer { Says word.now result }
    ensures grant { IfOk result IsGrant }
{
    if !word.get(FORMAT_1A) {
        return Err(Sib1Reason::NotFormat1A);
    }
    if word.get(DISTRIBUTED) {
        return Err(Sib1Reason::Distributed);
    }
    let riv = word.field(ASSIGNMENT, 5) as u8;
    if riv > 20 {
        return Err(Sib1Reason::BadRiv(riv));
    }
    let mcs = word.field(MCS, 5) as u8;
    if mcs > 26 {
        return Err(Sib1Reason::ReservedMcs(mcs));
    }
    let column = column_by(word.get(TPC_LOW));
    let Some(size) = size(mcs, column) else {
        return Err(Sib1Reason::BlockTooLarge);
    };
    let (start, blocks) = blocks_of(riv);
    let rv = word.field(RV, 2) as u8;
    Ok(Grant {
        start,
        blocks,
        mcs,
        column,
        rv,
        size,
    })
}

// Returns the column, 2 or 3, of the table of transport block sizes that the power control command's low bit selects.
fn column_by(low: bool) -> u8
    ensures { result ≡ column_of low }
{
    if low { 3 } else { 2 }
}

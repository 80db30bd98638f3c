//! System information, read from one frame.

ghost use Rattle.std.specs.Prelude.{◌≡◌, IfOk, IfSome};
ghost use Rattle.lte_types.specs.Ranges.{IsValid};
ghost use Rattle.dci.specs.Format1A.{IsGrant};
ghost use Rattle.sib1_reader.specs.Subframe.{subframe_by};
ghost use Rattle.sib1_reader.specs.Attempt.{IsAttempt, IsAttemptBlock, Reads, granted_by};

use crate::Decoders;
use crate::block::fields_in;
use crate::control::granted;
use dci::Grant;
use lte_types::{Cfi, Mib, Sib1, Sib1Reason};
use pcfich::cfi;
use soft_bits::ReadSlot;
use turbo_dec::Block;

/// An attempt to read SystemInformationBlockType1 in one frame: the intermediate results and the answer. (own)
#[derive(Debug, Drop)]
pub struct Attempt {
    /// The control format indicator.
    pub cfi: Cfi,
    /// The grant, if one was read.
    pub grant: Option<Grant>,
    /// The fields, each in its range, or the first reason that applies:
    ///
    /// - `NoSearchSpace` with the count of control channel elements, if there are fewer than four;
    /// - `NoControl`, if the control information's CRC fails;
    /// - `NotFormat1A`, `Distributed`, `BadRiv`, `ReservedMcs` or `BlockTooLarge`, as returned by `dci::read`;
    /// - `NotDecoded`, if no transport block passes its CRC;
    /// - `NotSib1` or `BadFields`, as returned by `sib1::read`.
    pub answer: Result<Sib1, Sib1Reason>,
}

impl Attempt {
    /// Returns the control format indicator and the grant with which the fields were read, or `None` if no fields were
    /// read.
    pub fn granted(&self) -> Option<(Cfi, Grant)>
        ensures { result ≡ granted_by self.now }
    {
        match (&self.grant, &self.answer) {
            (Some(grant), Ok(_)) => Some((self.cfi, *grant)),
            (Some(_), Err(_)) => None,
            (None, _) => None,
        }
    }
}

/// An attempt to read SystemInformationBlockType1, and the transport block that carried the fields. (own)
#[derive(Drop)]
pub struct Decoded {
    /// The attempt.
    pub attempt: Attempt,
    /// The bits of the transport block, at most 1,000, without the CRC; no bits if no fields were read.
    pub block: Block,
}

/// Returns the attempt to read SystemInformationBlockType1 in subframe 5. `first` and `second` are slots 10 and 11 of
/// one cell. Only the PHICH duration and resource of `mib` are used.
pub fn attempt_in<S: ReadSlot>(first: &S, second: &S, mib: Mib, work: &mut Decoders) -> Attempt
    requires first { (S.seen_as first.now).number ≡ 10 }
    requires second { (S.seen_as second.now).number ≡ 11 }
    requires cell { (S.seen_as second.now).identity ≡ (S.seen_as first.now).identity }
    ensures attempt { IsAttempt (subframe_by S.carrier S.values_by
        (S.seen_as first.now) (S.seen_as second.now) mib.duration mib.resource) result }
    ensures grant { IfSome result.grant IsGrant }
    ensures valid { IfOk result.answer IsValid }
{
    decoded_in(first, second, mib, work).attempt
}

/// Returns the attempt to read SystemInformationBlockType1 in subframe 5, and the transport block that carried the
/// fields. The arguments are those of `attempt_in`. (own)
pub fn decoded_in<S: ReadSlot>(first: &S, second: &S, mib: Mib, work: &mut Decoders) -> Decoded
    requires first { (S.seen_as first.now).number ≡ 10 }
    requires second { (S.seen_as second.now).number ≡ 11 }
    requires cell { (S.seen_as second.now).identity ≡ (S.seen_as first.now).identity }
    ensures attempt { IsAttempt (subframe_by S.carrier S.values_by
        (S.seen_as first.now) (S.seen_as second.now) mib.duration mib.resource) result.attempt }
    ensures block { IsAttemptBlock (subframe_by S.carrier S.values_by
        (S.seen_as first.now) (S.seen_as second.now) mib.duration mib.resource) result.attempt result.block.items }
    ensures grant { IfSome result.attempt.grant IsGrant }
    ensures valid { IfOk result.attempt.answer IsValid }
{
    let cfi = cfi(first);
    match granted(first, cfi, mib, &mut work.trellis) {
        Ok(grant) => {
            let (answer, block) = fields_in(first, second, cfi, &grant, &mut work.turbo);
            let attempt = Attempt {
                cfi,
                grant: Some(grant),
                answer,
            };
            Decoded { attempt, block }
        }
        Err(reason) => {
            let attempt = Attempt {
                cfi,
                grant: None,
                answer: Err(reason),
            };
            Decoded {
                attempt,
                block: Block::new(),
            }
        }
    }
}

/// Returns the SIB1 fields in subframe 5, or the reason why they were not read. The arguments are those of
/// `attempt_in`.
pub fn read<S: ReadSlot>(
    first: &S,
    second: &S,
    mib: Mib,
    work: &mut Decoders,
) -> Result<Sib1, Sib1Reason>
    requires first { (S.seen_as first.now).number ≡ 10 }
    requires second { (S.seen_as second.now).number ≡ 11 }
    requires cell { (S.seen_as second.now).identity ≡ (S.seen_as first.now).identity }
    ensures answer { Reads (subframe_by S.carrier S.values_by
        (S.seen_as first.now) (S.seen_as second.now) mib.duration mib.resource) result }
    ensures valid { IfOk result IsValid }
{
    attempt_in(first, second, mib, work).answer
}

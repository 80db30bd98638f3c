//! The list of a wide recording: the list of the recording at 1.92 million samples per second, where SIB1 comes from the
//! wide samples if it is missing.
//!
//! An entry stays as it is if it has SIB1, with the extended prefix, with a port count other than 1, 2 and 4, and if the
//! rate does not contain all subcarriers of its cell.

ghost use Rattle.std.specs.Prelude.{◌≡◌, ◌<◌, All, IfOk, OnOk, length};
ghost use Rattle.std.specs.List.{AllZip, HoldsAt};
ghost use Rattle.lte_types.specs.Ranges.{IsValid};
ghost use Rattle.halving.specs.Wide.{narrowed};
ghost use Rattle.explain.specs.Entries.{IsListFor};
ghost use Rattle.explain.specs.Receiver.{Receiver};
ghost use Rattle.wide_block.specs.Answer.{bits_in};
ghost use Rattle.wide_list.specs.List.{IsInformed, InformsAt, IsWideListFor};
ghost use Rattle.wide_list.specs.Bits.{AreWideBits};

use crate::WideWork;
use crate::found::found_in;
use crate::system::system_block_in;
use explain::EntryList;
use halving::WideRecording;
use lte_types::{Carrier, Sib1Reason};
use std::alloc::{AllocError, Global};
use wide_block::{SystemBlock, fields_of};

/// Changes the list at 1.92 million samples per second to that of the wide recording, by the rules at the head of this
/// file. Fails only if an allocation fails; the list then has no meaning. (own)
pub fn inform(
    alloc: Global,
    wide: &WideRecording,
    carrier: Carrier,
    list: &mut EntryList,
    work: &mut WideWork,
) -> Result<(), AllocError>
    requires early { All (λ entry. entry.start < 19200) list.old }
    ensures informed { OnOk result (AllZip (IsInformed carrier wide.now) list.old list.new) }
    ensures list { (receiver : Receiver) → receiver.carrier ≡ carrier →
        IsListFor receiver (narrowed wide.now) list.old → OnOk result (IsWideListFor receiver wide.now list.new) }
    ensures valid { All (λ entry. IfOk entry.sib1 IsValid) list.old → OnOk result
        (All (λ entry. IfOk entry.sib1 IsValid) list.new) }
{
    inform_with_blocks(alloc, wide, carrier, list, work)?;
    Ok(())
}

/// Changes the list as `inform` does. Returns for each entry the bits of the transport block that carried its SIB1 in
/// the wide samples, without the CRC; empty if there is none. Fails as `inform` does. (own)
pub fn inform_with_blocks(
    alloc: Global,
    wide: &WideRecording,
    carrier: Carrier,
    list: &mut EntryList,
    work: &mut WideWork,
) -> Result<Vec<Vec<bool>>, AllocError>
    requires early { All (λ entry. entry.start < 19200) list.old }
    ensures informed { OnOk result (AllZip (IsInformed carrier wide.now) list.old list.new) }
    ensures blocks { IfOk result (λ blocks. AllZip (λ before block. AreWideBits carrier wide.now before block.items)
        list.old blocks.items) }
    ensures list { (receiver : Receiver) → receiver.carrier ≡ carrier →
        IsListFor receiver (narrowed wide.now) list.old → OnOk result (IsWideListFor receiver wide.now list.new) }
    ensures valid { All (λ entry. IfOk entry.sib1 IsValid) list.old → OnOk result
        (All (λ entry. IfOk entry.sib1 IsValid) list.new) }
{
    inform_each(alloc, wide, carrier, list, work)
}

// Gives each entry whose SIB1 is missing the SIB1 in the wide samples, or the reason why it is missing there. Returns
// the bits of the transport blocks.
fn inform_each(
    alloc: Global,
    wide: &WideRecording,
    carrier: Carrier,
    list: &mut EntryList,
    work: &mut WideWork,
) -> Result<Vec<Vec<bool>>, AllocError>
    requires early { All (λ entry. entry.start < 19200) list.old }
    ensures informed { OnOk result (AllZip (IsInformed carrier wide.now) list.old list.new) }
    ensures blocks { IfOk result (λ blocks. AllZip (λ before block. AreWideBits carrier wide.now before block.items)
        list.old blocks.items) }
{
    let mut blocks = Vec::with_capacity(alloc, list.slice().len())?;
    for at in 0..list.slice().len() {
        let block = inform_at(alloc, wide, carrier, at, list, work)?;
        blocks.push(block)?;
    }
    Ok(blocks)
}

// Gives the entry at index `at` the SIB1 in the wide samples, if it is read there. Returns the bits of its transport
// block.
fn inform_at(
    alloc: Global,
    wide: &WideRecording,
    carrier: Carrier,
    at: usize,
    list: &mut EntryList,
    work: &mut WideWork,
) -> Result<Vec<bool>, AllocError>
    requires at { at < length list.old }
    requires early { HoldsAt (λ entry. entry.start < 19200) list.old at }
    ensures informed { OnOk result (InformsAt carrier wide.now at list.old list.new) }
    ensures bits { IfOk result (λ bits.
        HoldsAt (λ before. AreWideBits carrier wide.now before bits.items) list.old at) }
{
    match found_in(carrier, wide.rate(), &list.slice()[at]) {
        Some(found) => {
            let answer = system_block_in(alloc, wide, &found, work)?;
            let bits = bits_of(alloc, &answer)?;
            list.set_system(at, fields_of(answer));
            Ok(bits)
        }
        None => Ok(Vec::new(alloc)),
    }
}

// Returns the bits of the transport block in an answer, or no bits if it has none.
fn bits_of(alloc: Global, answer: &Result<SystemBlock, Sib1Reason>) -> Result<Vec<bool>, AllocError>
    ensures { IfOk result (λ bits. bits.items ≡ bits_in answer.now) }
{
    let mut bits = Vec::new(alloc);
    if let Ok(found) = answer {
        bits.extend_from_slice(found.bits.as_slice())?;
    }
    Ok(bits)
}

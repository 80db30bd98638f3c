//! Measurements of an entry and its slot, with the bits of its MIB and its SIB1.

ghost use Rattle.std.specs.Prelude.{◌≡◌, ◌≤◌, IfOk, length, map};
ghost use Rattle.std.specs.List.{AllZip};
ghost use Rattle.explain.specs.Entries.{IsEntryFor, IsListFor};
ghost use Rattle.explain.specs.Laws.{IsEntryOfSome};
ghost use Rattle.explain.specs.Readings.{IsReadingFor};
ghost use Rattle.explain.specs.Receiver.{Receiver, hits_by};
ghost use Rattle.evidence.specs.Blocks.{master_number, master_bits};
ghost use Rattle.evidence.specs.Shown.{Shown, IsShownFor, with_bits, with_blocks};

use crate::measured::measured_and_slot;
use crate::{Measured, SlotShown};
use cs_bits::Bits;
use explain::Reading;
use lte_types::{Carrier, Entry, Mib};
use sample_file::Recording;
use std::alloc::{AllocError, Global};
use std::marker::Model;
use tailbite::Trellis;
use turbo_dec::Block;

/// Measurements of an entry and its slot, with the bits of its MIB and of its SIB1's transport block. (own)
#[derive(Drop)]
pub struct Support {
    measured: Measured,
    slot: SlotShown,
    mib: Mib,
    block: Vec<bool>,
}

impl Model for Support {
    ghost Value = { Shown };

    ghost view = { λ s. record {
      measured = s.measured;
      slot = s.slot;
      master = master_bits s.mib;
      block = s.block.items;
    } };
}

impl Support {
    /// Returns the measurements that support the entry, with the room of its MIB's codeword.
    pub fn measured(&self) -> &Measured
        ensures { result.now ≡ self.now.measured }
    {
        &self.measured
    }

    /// Returns the measurements of the entry's PBCH slot.
    pub fn slot(&self) -> &SlotShown
        ensures { result.now ≡ self.now.slot }
    {
        &self.slot
    }

    /// Returns the MIB's 24 bits (TS 36.331 section 6.2.2).
    pub fn master(&self) -> Bits<24>
        ensures bits { result ≡ self.now.master }
        ensures count { length result ≡ 24 }
    {
        bits_of(&self.mib)
    }

    /// Returns the bits of the transport block that carried SIB1, without its CRC; empty if the entry has no SIB1.
    pub fn block(&self) -> &[bool]
        ensures { result.now ≡ self.now.block }
    {
        &self.block
    }

    // Replaces the bits of the transport block that carried SIB1 by `bits`, if there are any.
    fn set_block(&mut self, bits: Vec<bool>)
        ensures { self.new ≡ with_bits self.old bits.items }
    {
        if !bits.is_empty() {
            self.block = bits;
        }
    }
}

// Returns a transport block's bits as a list.
fn list_of(alloc: Global, block: &Block) -> Result<Vec<bool>, AllocError>
    ensures { IfOk result (λ list. list.items ≡ block.now.items) }
{
    let mut list = Vec::new(alloc);
    list.extend_from_slice(block.as_slice())?;
    Ok(list)
}

// Returns the 24 bits of a MIB.
fn bits_of(mib: &Mib) -> Bits<24>
    ensures bits { result ≡ master_bits mib.now }
    ensures count { length result ≡ 24 }
{
    Bits::of_number(number_of(mib))
}

// Returns the 24 bits of a MIB as a number.
fn number_of(mib: &Mib) -> u64
    ensures { result ≡ master_number mib.now }
{
    let head = mib.bandwidth.code() as u64 * 2 + mib.duration.code() as u64;
    ((head * 4 + mib.resource.code() as u64) * 256 + mib.upper as u64) * 1024 + mib.spare as u64
}

/// Returns, for each entry, its measurements as in `evidence_of_list`, its slot's measurements, and the bits of its MIB
/// and its SIB1. Fails only if an allocation fails. (own)
pub fn support_of_list(
    alloc: Global,
    recording: &Recording,
    carrier: Carrier,
    entries: &[Entry],
    readings: &[Reading],
) -> Result<Vec<Support>, AllocError>
    ghost receiver: { Receiver }
    requires carrier { carrier ≡ receiver.carrier }
    requires list { IsListFor receiver recording.now entries.now }
    requires readings { AllZip (IsReadingFor receiver recording.now) entries.now readings.now }
    ensures { IfOk result (λ list. AllZip (IsShownFor receiver recording.now) entries.now list.items) }
{
    let mut work = Trellis::new(alloc)?;
    let mut list = Vec::with_capacity(alloc, entries.len())?;
    for (i, entry) in entries.iter().enumerate() {
        let support = support_of(alloc, recording, carrier, entry, &readings[i], &mut work)?;
        list.push(support)?;
    }
    Ok(list)
}

// Returns an entry's measurements and bits. The transport block is that of its reading.
fn support_of(
    alloc: Global,
    recording: &Recording,
    carrier: Carrier,
    entry: &Entry,
    reading: &Reading,
    work: &mut Trellis,
) -> Result<Support, AllocError>
    ghost receiver: { Receiver }
    requires carrier { carrier ≡ receiver.carrier }
    requires entry { IsEntryOfSome (IsEntryFor receiver recording.now)
        (hits_by receiver.carrier recording.now) entry.now }
    requires reading { IsReadingFor receiver recording.now entry.now reading.now }
    ensures { IfOk result (IsShownFor receiver recording.now entry.now) }
{
    let block = list_of(alloc, &reading.block)?;
    let (measured, slot) = measured_and_slot(recording, carrier, entry, reading, work);
    Ok(Support {
        measured,
        slot,
        mib: entry.mib,
        block,
    })
}

/// Replaces the bits of SIB1's transport block in each of `supports` by the bits at the same index in `blocks`, if there
/// are any. (own)
pub fn set_blocks(supports: &mut [Support], mut blocks: Vec<Vec<bool>>)
    requires { length blocks.items ≤ length supports.old }
    ensures { supports.new ≡ with_blocks supports.old (map (λ bits. bits.items) blocks.items) }
{
    while let Some(bits) = blocks.pop() {
        supports[blocks.len()].set_block(bits);
    }
}

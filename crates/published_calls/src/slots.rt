// Calls into `soft_bits`, `pbch`, `pcfich`, `pdcch` and `pdsch`.
ghost use Rattle.std.specs.Prelude.{◌≡◌, ◌+◌, ◌^◌, ◌<◌, ◌≤◌, All, length};
ghost use Rattle.cs_num.specs.Complex.{IsWithin};
ghost use Rattle.soft_bits.specs.Soft.{AreSmall};
ghost use Rattle.pbch.specs.Values.{identity_of};
ghost use Rattle.dci.specs.Format1A.{IsGrant};

use crate::grants::word_of;
use cs_num::Cpx;
use dci::Grant;
use lte_types::{Bandwidth, CellId, Cfi, Duration, Mib, Resource};
use observe::symbol;
use pbch::Master;
use soft_bits::{Slot, soft};
use std::process::Abort;
use std::test::Fail;
use tailbite::Trellis;
use test_support::silent_recording;

// Returns the soft values at a resource element of a slot, or `None` if the slot does not have the given number and
// cell identity.
fn values_at(seen: [[Cpx; 72]; 7], number: u8, id: CellId, symbol: u8, k: u8) -> Option<[i16; 2]>
    requires number { number < 20 }
    requires small { AreSmall seen }
    requires symbol { symbol < 7 }
    requires k { k < 72 }
{
    let slot: Slot = Slot::new(seen, number, id);
    let cell: CellId = slot.id();
    let kept: u8 = slot.number();
    let values: [i16; 2] = soft(&slot, symbol, k);
    if cell == id && kept == number {
        Some(values)
    } else {
        None
    }
}

// Returns the MIB in `slots`, if there is one, and the first sum of the soft values.
fn master_of(slots: &[Slot], phase: u8, work: &mut Trellis) -> (Option<Master>, i32)
    requires some { 0 < length slots.now }
    requires period { phase + length slots.now ≤ 4 }
    requires number { All (λ slot. slot.number ≡ 1) slots.now }
    requires cell { All (λ slot. slot.identity ≡ identity_of slots.now) slots.now }
{
    let sums: [[i32; 3]; 40] = pbch::values(slots, phase);
    let master: Option<Master> = pbch::explain_slots(slots, phase, work);
    (master, sums[0][0])
}

// Builds a decoded MIB from all its fields.
fn master_with(mib: Mib) -> Master {
    Master {
        ports: 1u8,
        mib,
        cost: 0u32,
    }
}

// Returns the CFI in `slot`, the number of control channel elements, and whether there is a PDCCH candidate.
fn control_of(slot: &Slot, cfi: Cfi, mib: Mib) -> (u8, u8, bool)
    requires { slot.now.number ≡ 10 }
{
    let indicator: Cfi = pcfich::cfi(slot);
    let count: u8 = pdcch::elements(slot.id(), cfi, mib);
    let candidate: Option<[i16; 288]> = pdcch::candidate(slot, cfi, mib);
    (indicator.value(), count, candidate.is_some())
}

// Counts the PDSCH soft values for a grant.
fn count_of(first: &Slot, second: &Slot, cfi: Cfi, grant: &Grant, out: &mut [i16; 1224]) -> usize
    requires first { first.now.number ≡ 10 }
    requires second { second.now.number ≡ 11 }
    requires cell { second.now.identity ≡ first.now.identity }
    requires cfi { 2 ≤ cfi }
    requires grant { IsGrant grant.now }
{
    let count: usize = pdsch::values(first, second, cfi, grant, out);
    count
}

// Builds a slot whose symbols are all `seen`.
pub(crate) fn slot_of(seen: [Cpx; 72], number: u8, id: CellId) -> Slot
    requires number { number < 20 }
    requires small { All (IsWithin (2 ^ 25)) seen }
    ensures number { result.number ≡ number }
    ensures cell { result.identity ≡ id }
{
    Slot::new([seen, seen, seen, seen, seen, seen, seen], number, id)
}

fn cfi_of(rt: &impl Abort, value: u8) -> Cfi
    ensures { result ≡ value }
{
    Cfi::new(value).expect(rt, "in range")
}

fn mib_of(rt: &impl Abort) -> Mib {
    Mib::new(Bandwidth::N6, Duration::Normal, Resource::OneSixth, 0, 0).expect(rt, "in range")
}

pub(crate) fn identity_zero(rt: &impl Abort) -> CellId {
    CellId::new(0).expect(rt, "in range")
}

#[test]
fn soft_values_and_master_blocks_are_called(rt: HostRuntime) -> Result<(), Fail> {
    let id = identity_zero(&rt);
    let recording = silent_recording(rt.alloc())?;
    let seen = symbol(&recording, 0);
    let all = [seen, seen, seen, seen, seen, seen, seen];
    assert!(rt; values_at(all, 19, id, 6, 71) == Some([0, 0]));
    let mut work = Trellis::new(rt.alloc())?;
    let slots = [slot_of(seen, 1, id)];
    let (master, sum) = master_of(&slots, 3, &mut work);
    assert!(rt; master.is_none() && sum == 0);
    let made: Master = master_with(mib_of(&rt));
    assert!(rt; made.ports == 1 && made.cost == 0);
    Ok(())
}

#[test]
fn control_and_shared_channels_are_called(rt: HostRuntime) -> Result<(), Fail> {
    let id = identity_zero(&rt);
    let recording = silent_recording(rt.alloc())?;
    let seen = symbol(&recording, 0);
    let first = slot_of(seen, 10, id);
    let second = slot_of(seen, 11, id);
    assert!(rt; control_of(&first, cfi_of(&rt, 1), mib_of(&rt)) == (1, 2, false));
    let grant = dci::read(&word_of(b"100101100100000000000"))
        .ok()
        .expect(&rt, "a grant");
    let mut out = [7; 1224];
    assert!(rt; count_of(&first, &second, cfi_of(&rt, 2), &grant, &mut out) == 1224);
    Ok(())
}

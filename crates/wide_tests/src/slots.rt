// Checksums are from the reference implementation, `python/lte_reference/wide_rows.py`.
ghost use Rattle.std.specs.Prelude.{◌≡◌, ◌<◌, ◌≤◌, IfOk, IfSome};

use crate::cells::cell_of;
use crate::checksum::{after_large, after_signed};
use crate::samples::subframe;
use cs_num::Cpx;
use halving::WideRecording;
use lte_types::Bandwidth;
use std::alloc::{AllocError, Global};
use std::test::Fail;
use tones::{Tones, wide_start};
use wide_cell::{WideCell, fits_rate, points};
use wide_slot::{Weights, WideSlot};

// Returns the least rate that carries a bandwidth.
pub(crate) fn rate_of(bandwidth: Bandwidth) -> u8
    ensures { result ≤ 4 }
{
    match bandwidth {
        Bandwidth::N6 => 0,
        Bandwidth::N15 => 1,
        Bandwidth::N25 => 2,
        Bandwidth::N50 | Bandwidth::N75 => 3,
        Bandwidth::N100 => 4,
    }
}

// Returns slot `number` of the frame that begins at sample `frame` at 1.92 million samples per second.
#[tactic(auto, unfolding(wide_slot::specs::Slot::seen_slot))]
pub(crate) fn received_in(
    alloc: Global,
    tones: &Tones,
    wide: &WideRecording,
    cell: &WideCell,
    frame: usize,
    number: u8,
) -> Result<Option<WideSlot>, AllocError>
    requires frame { frame < 100000 }
    requires number { number < 20 }
    ensures cell { IfOk result (λ found. IfSome found (λ slot. slot.cell ≡ cell.now)) }
    ensures number { IfOk result (λ found. IfSome found (λ slot. slot.slot.number ≡ number)) }
{
    let rate = wide.rate();
    let last = wide_start(rate, frame, number, 6);
    let length = wide.as_slice().len();
    if fits_rate(cell, rate) && last <= length && points(rate) <= length - last {
        let slot = WideSlot::receive(alloc, tones, wide, cell, frame, number, Weights::SMOOTHING)?;
        Ok(Some(slot))
    } else {
        Ok(None)
    }
}

// Returns slot `number` of the frame with which a recording begins.
pub(crate) fn received(
    alloc: Global,
    tones: &Tones,
    wide: &WideRecording,
    cell: &WideCell,
    number: u8,
) -> Result<Option<WideSlot>, AllocError>
    requires { number < 20 }
    ensures { IfOk result (λ found. IfSome found (λ slot. slot.cell ≡ cell.now)) }
{
    received_in(alloc, tones, wide, cell, 0, number)
}

fn after_number(sum: u64, number: Cpx) -> u64 {
    after_signed(after_signed(sum, number.re), number.im)
}

// Returns the checksum after all values received in a slot.
fn after_seen(sum: u64, slot: &WideSlot) -> u64 {
    let mut sum = sum;
    for symbol in 0..7 {
        for k in 0..slot.cell().subcarriers() {
            sum = after_number(sum, slot.seen(symbol, k));
        }
    }
    sum
}

// Returns the checksum of all channels in a slot.
fn channels(slot: &WideSlot) -> u64 {
    let mut sum = 0;
    for port in 0..slot.cell().ports() {
        for k in 0..slot.cell().subcarriers() {
            sum = after_number(sum, slot.channel(port, k));
        }
    }
    sum
}

// Returns the checksum after a slot's energy and the checksum of its channels.
fn after_slot(sum: u64, slot: &WideSlot) -> u64 {
    after_large(after_large(sum, slot.energy()), channels(slot))
}

// Returns two checksums of a cell's slots: of the received values, and `sum` after energy and channels.
fn after_cell(
    alloc: Global,
    tones: &Tones,
    wide: &WideRecording,
    cell: &WideCell,
    sum: u64,
) -> Result<Option<(u64, u64)>, AllocError> {
    let first = received(alloc, tones, wide, cell, 10)?;
    let second = received(alloc, tones, wide, cell, 11)?;
    match (first, second) {
        (Some(first), Some(second)) => Ok(Some((
            after_seen(after_seen(0, &first), &second),
            after_slot(after_slot(sum, &first), &second),
        ))),
        _ => Ok(None),
    }
}

// The checksums for each bandwidth: one of the received values, and three of energies and channels, for cells with one,
// two and four antenna ports.
const SLOTS: [(Bandwidth, u64, [u64; 3]); 6] = [
    (
        Bandwidth::N6,
        3_596_136_854,
        [2_564_465_656, 17_503_374, 3_372_067_007],
    ),
    (
        Bandwidth::N15,
        3_365_118_140,
        [865_882_894, 4_193_824_241, 2_787_974_036],
    ),
    (
        Bandwidth::N25,
        1_922_470_289,
        [2_577_348_736, 2_087_426_708, 1_912_084_814],
    ),
    (
        Bandwidth::N50,
        194_869_464,
        [3_155_680_999, 3_953_209_902, 885_383_035],
    ),
    (
        Bandwidth::N75,
        3_713_111_910,
        [1_158_123_100, 2_783_750_074, 1_291_593_936],
    ),
    (
        Bandwidth::N100,
        2_433_909_808,
        [80_117_743, 1_748_634_126, 1_355_224_047],
    ),
];

const PORTS: [u8; 3] = [1, 2, 4];

#[test]
fn received_slots_are_the_references(rt: HostRuntime) -> Result<(), Fail> {
    let tones = Tones::new(rt.alloc())?;
    for (bandwidth, seen, expected) in SLOTS {
        let wide = subframe(rt.alloc(), rate_of(bandwidth))?.ok_or("a recording")?;
        for (ports, expected) in PORTS.iter().zip(&expected) {
            let mut sum = 0;
            for i in [5, 14, 23] {
                let cell = cell_of(bandwidth, *ports, i).ok_or("a cell")?;
                let sums = after_cell(rt.alloc(), &tones, &wide, &cell, sum)?.ok_or("slots")?;
                assert!(rt; sums.0 == seen, "{bandwidth}");
                sum = sums.1;
            }
            assert!(rt; sum == *expected, "{bandwidth}, {ports} ports");
        }
    }
    Ok(())
}

//! Soft values of a channel's resource elements.

ghost use Rattle.std.specs.Prelude.{◌≡◌, ◌+◌, ◌*◌, ◌/◌, ◌<◌, ◌≤◌, IfOk, length};
ghost use Rattle.finite.specs.Lists.{joined_below};
ghost use Rattle.finite.specs.Sizes.{AllWithin};
ghost use Rattle.wide_slot.specs.Values.{IsSeveral, place_values as values_at, pair_values as values_of_pair, lower_port as lower_by, upper_port as upper_by, single_at, paired_at, placed_values};

use crate::WideSlot;
use crate::amplitude::Amplitude;
use crate::value::soft_pair;
use soft_bits::slot_of;
use std::alloc::{AllocError, Global};
use wide_cell::WidePlace;

/// Returns two soft values for each of `places`, -127 to 127, positive for bit 0. With several ports, elements 2i and
/// 2i + 1 are a pair (TS 36.211 section 6.3.4.3). Fails only if an allocation fails. (own)
pub fn soft_values(
    alloc: Global,
    first: &WideSlot,
    second: &WideSlot,
    places: &[WidePlace],
) -> Result<Vec<i16>, AllocError>
    requires same { second.now.cell ≡ first.now.cell }
    ensures values { IfOk result (λ values. values.items ≡ placed_values first.now second.now places.now) }
    ensures magnitudes { IfOk result (λ values. AllWithin 127 values.items) }
    ensures few { IfOk result (λ values. length values.items ≤ 2 * length places.now) }
{
    if first.cell().ports() == 1 {
        let values = single_values(alloc, first, second, places)?;
        Ok(values)
    } else {
        let values = paired_values(alloc, first, second, places)?;
        Ok(values)
    }
}

// Returns the soft values of elements that one antenna port sends.
fn single_values(
    alloc: Global,
    first: &WideSlot,
    second: &WideSlot,
    places: &[WidePlace],
) -> Result<Vec<i16>, AllocError>
    requires first { 0 < first.now.cell.ports }
    requires second { 0 < second.now.cell.ports }
    ensures { IfOk result (λ values. values.items
        ≡ joined_below (length places.now) (single_at first.now second.now places.now)) }
{
    let mut values = Vec::with_capacity(alloc, 2 * places.len())?;
    for i in 0..places.len() {
        let place = &places[i];
        let two = place_values(slot_of(first, second, place.symbol), place);
        values.extend_from_slice(&two)?;
    }
    Ok(values)
}

// Returns an element's two soft values.
fn place_values(slot: &WideSlot, place: &WidePlace) -> [i16; 2]
    requires { 0 < slot.now.cell.ports }
    ensures { result ≡ values_at slot.now place.now }
{
    let seen = slot.seen(place.symbol % 7, place.k);
    let amplitude = Amplitude::of_one(slot.channel(0, place.k), seen);
    soft_pair(slot, &amplitude)
}

// Returns the soft values of elements that pairs of antenna ports send.
fn paired_values(
    alloc: Global,
    first: &WideSlot,
    second: &WideSlot,
    places: &[WidePlace],
) -> Result<Vec<i16>, AllocError>
    requires first { IsSeveral first.now.cell.ports }
    requires second { IsSeveral second.now.cell.ports }
    ensures { IfOk result (λ values. values.items
        ≡ joined_below (length places.now / 2) (paired_at first.now second.now places.now)) }
{
    let count = places.len() / 2;
    let mut values = Vec::with_capacity(alloc, 4 * count)?;
    for i in 0..count {
        let p = &places[2 * i];
        let four = pair_values(slot_of(first, second, p.symbol), i, p, &places[2 * i + 1]);
        values.extend_from_slice(&four)?;
    }
    Ok(values)
}

// Returns the four soft values of pair `i`, sent at the elements `p` and `q`.
fn pair_values(slot: &WideSlot, i: usize, p: &WidePlace, q: &WidePlace) -> [i16; 4]
    requires { IsSeveral slot.now.cell.ports }
    ensures { result ≡ values_of_pair slot.now i p.now q.now }
{
    let ports = slot.cell().ports();
    let h = slot.channel(lower_port(ports, i), p.k);
    let g = slot.channel(upper_port(ports, i), p.k);
    let a = slot.seen(p.symbol % 7, p.k);
    let b = slot.seen(q.symbol % 7, q.k);
    let first = soft_pair(slot, &Amplitude::first_of_pair(h, g, a, b));
    let second = soft_pair(slot, &Amplitude::second_of_pair(h, g, a, b));
    [first[0], first[1], second[0], second[1]]
}

// Returns the port that sends a pair's first symbol at its first element.
fn lower_port(ports: u8, i: usize) -> u8
    requires { IsSeveral ports }
    ensures value { result ≡ lower_by ports i }
    ensures valid { result < ports }
{
    if ports == 4 { (i % 2) as u8 } else { 0 }
}

// Returns the port that sends a pair's second symbol at its first element.
fn upper_port(ports: u8, i: usize) -> u8
    requires { IsSeveral ports }
    ensures value { result ≡ upper_by ports i }
    ensures valid { result < ports }
{
    if ports == 4 { 2 + (i % 2) as u8 } else { 1 }
}

//! The measurements of a cell list's entries.
//!
//! Each entry has the earliest PSS detection with its identity and start, and the fraction of the energy that the PSS
//! explains there; the total magnitude of its MIB's soft values, and their room (`measured.rt`); and, over all antenna ports, the energy of its slot's
//! pilots and a noise estimate from the differences between pilots in one symbol.

ghost use Rattle.std.specs.Prelude.{◌≡◌, ◌/◌, ◌*◌, ◌<◌, ◌≤◌, All, IfOk};
ghost use Rattle.std.specs.List.{AllZip};
ghost use Rattle.pss_search.specs.Correlation.{wave_power};
ghost use Rattle.explain.specs.Entries.{place_of, IsEntryFor, IsListFor};
ghost use Rattle.explain.specs.Laws.{IsEntryOfSome};
ghost use Rattle.explain.specs.Readings.{IsReadingFor};
ghost use Rattle.explain.specs.Receiver.{Receiver, hits_by};
ghost use Rattle.evidence.specs.Evidence.{shown_in as shown_in_of, IsEvidenceFor, IsMeasuredFor, IsInRange};
ghost use Rattle.evidence.specs.Evidence.{HasFraction, numbers_by};

use crate::measured::measured_and_slot;
use crate::noise::noise_of;
use crate::receivers::shown_in;
use crate::{Measured, SlotShown};
use explain::{Reading, place_in};
use lte_types::{Carrier, Entry, Evidence, Hit};
use pbch::total_of;
use pss_search::signal_power;
use sample_file::Recording;
use std::alloc::{AllocError, Global};
use tailbite::Trellis;

/// Returns each entry's measurements and room, in order. `entries` is the cell list of `recording` by the receiver for
/// `carrier`, and `readings` are the readings of its entries. Fails only if an allocation fails. (own)
pub fn evidence_of_list(
    alloc: Global,
    recording: &Recording,
    carrier: Carrier,
    entries: &[Entry],
    readings: &[Reading],
) -> Result<Vec<Measured>, AllocError>
    ghost receiver: { Receiver }
    requires carrier { carrier ≡ receiver.carrier }
    requires list { IsListFor receiver recording.now entries.now }
    requires readings { AllZip (IsReadingFor receiver recording.now) entries.now readings.now }
    ensures each { IfOk result (λ list. AllZip (IsMeasuredFor receiver recording.now) entries.now list.items) }
    ensures ranges { IfOk result (λ list. All (λ measured. IsInRange measured.numbers) list.items) }
{
    let mut work = Trellis::new(alloc)?;
    let mut list = Vec::with_capacity(alloc, entries.len())?;
    for (i, entry) in entries.iter().enumerate() {
        let (measured, _slot) = measured_and_slot(
            recording,
            carrier,
            entry,
            &readings[i],
            &mut work,
        );
        list.push(measured)?;
    }
    Ok(list)
}

// Returns an entry's measurements and the measurements of its slot.
pub(crate) fn numbers_and_slot(
    recording: &Recording,
    carrier: Carrier,
    entry: &Entry,
    reading: &Reading,
) -> (Evidence, SlotShown)
    ghost receiver: { Receiver }
    requires carrier { carrier ≡ receiver.carrier }
    requires entry { IsEntryOfSome (IsEntryFor receiver recording.now)
        (hits_by receiver.carrier recording.now) entry.now }
    requires reading { IsReadingFor receiver recording.now entry.now reading.now }
    ensures evidence { IsEvidenceFor receiver recording.now entry.now result.0 }
    ensures range { IsInRange result.0 }
    ensures slot { result.1 ≡ shown_in_of receiver.carrier recording.now (place_of entry.now) entry.now.frame }
{
    let slot = shown_in(recording, carrier, place_in(entry), entry.frame);
    let numbers = numbers_of(entry, reading, &slot);
    (numbers, slot)
}

// Returns an entry's measurements, given its reading and the measurements of its slot.
fn numbers_of(entry: &Entry, reading: &Reading, slot: &SlotShown) -> Evidence
    requires { HasFraction reading.now.hit }
    ensures { result ≡ numbers_by entry.now reading.now slot.now }
{
    Evidence {
        id: entry.id,
        start: entry.start,
        sfn: entry.sfn,
        t: reading.hit.t,
        peak: thousandths(&reading.hit),
        cost: entry.cost,
        total: total_of(&reading.sums.rows()),
        frames: entry.frames,
        frame: entry.frame,
        phase: entry.phase,
        power: slot.power(),
        noise: noise_of(slot.differences()),
    }
}

// Returns the fraction of the energy that the PSS explains at a detection, in thousandths, rounded down.
fn thousandths(hit: &Hit) -> u16
    requires { HasFraction hit.now }
    ensures value { result ≡ 1000 * hit.now.peak / (hit.now.energy * wave_power hit.now.n2) }
    ensures whole { result ≤ 1000 }
{
    let whole = hit.energy as u128 * signal_power(hit.n2) as u128;
    (1000 * hit.peak / whole) as u16
}

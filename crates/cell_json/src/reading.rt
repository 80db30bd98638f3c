//! Descriptions as bytes, and the emissions that they describe.

ghost use Rattle.std.specs.Prelude.{◌≡◌, ◌+◌, ◌<◌, nat_lt, nat_le, if◌then◌else◌, pos};
ghost use Rattle.std.specs.Prelude.{IsTrue, IsFalse, IfSome, MatchOption, MatchResult};
ghost use Rattle.serde_json.specs.View.{view};
ghost use Rattle.cs_num.specs.Complex.{square, value_at};
ghost use Rattle.lte_types.specs.Carrier.{ports_of};
ghost use Rattle.lte_types.specs.Ranges.{IsValid};
ghost use Rattle.cell_json.specs.Kinds.{is_between};
ghost use Rattle.cell_json.specs.Description.{in_field, are_gains, sib1_at, plan_of as described_plan};
ghost use Rattle.cell_json.specs.Reading.{IsValueOf, IsRefusedFor, DescribesBy, IsRefusedBy, Describes, IsRefused};

use crate::JsonError;
use crate::description::{Description, description_of};
use crate::information::sib1_in;
use crate::kinds::within;
use cell_plan::{Cell, CellError, CellPlan, Emission, Transmission};
use cs_num::Cpx;
use lte_types::{Carrier, LEAST_SAMPLES, MOST_SAMPLES, Sfn, Sib1, Timing};
use serde_json::Value;
use std::alloc::Global;

// The minimum and the maximum sample count of an emission.
const LEAST: u32 = LEAST_SAMPLES as u32;

const MOST: u32 = MOST_SAMPLES as u32;

/// Reads the emission, without load, that `bytes` describe in JSON for transmission scheme `carrier`. Returns the first
/// failed condition, in the crate's order, or `OutOfMemory`, which is possible for any bytes.
pub fn read_by(alloc: Global, carrier: Carrier, bytes: &[u8]) -> Result<Emission, JsonError>
    ensures { MatchResult result (DescribesBy carrier bytes.now) (IsRefusedBy carrier bytes.now) }
{
    let value = match Value::from_slice(alloc, bytes) {
        Ok(value) => value,
        Err(error) if error.is_memory() => return Err(JsonError::OutOfMemory),
        Err(_) => return Err(JsonError::Cell(CellError::Form)),
    };
    let Some(description) = description_of(carrier, &value) else {
        return Err(JsonError::Cell(CellError::Form));
    };
    match emission_of(&description) {
        Ok(emission) => Ok(emission),
        Err(cause) => Err(JsonError::Cell(cause)),
    }
}

/// Reads the transmission that `bytes` describe, as `read_by` does for one antenna port and the normal cyclic prefix.
pub fn read(alloc: Global, bytes: &[u8]) -> Result<Transmission, JsonError>
    ensures { MatchResult result (Describes bytes.now) (IsRefused bytes.now) }
{
    match read_by(alloc, Carrier::OnePort, bytes) {
        Ok(emission) => Ok(Transmission::of(emission)),
        Err(error) => Err(error),
    }
}

// Returns the frame number if it is from 0 to 1023.
fn sfn_of(number: &i64) -> Option<Sfn>
    ensures { MatchOption result (IsFalse (is_between (pos 0) (pos 1023) number.now))
        (λ sfn. IsTrue (is_between (pos 0) (pos 1023) number.now) × (pos sfn ≡ number.now)) }
{
    Sfn::new(within(number, 0, 1023)? as u16)
}

// Returns `number` in a 16-bit field. A number that does not fit becomes 65,535, which no condition accepts.
fn in_16_bits(number: &i64) -> u16
    ensures { result ≡ in_field 65535 number.now }
{
    match within(number, 0, 65_535) {
        Some(small) => small as u16,
        None => u16::MAX,
    }
}

// Returns `number` in an 8-bit field. A number that does not fit becomes 255, which no condition accepts.
fn in_8_bits(number: &i64) -> u8
    ensures { result ≡ in_field 255 number.now }
{
    match within(number, 0, 255) {
        Some(small) => small as u8,
        None => u8::MAX,
    }
}

// Returns the plan that the description gives, with `sib1`. Numbers that do not fit their field fail a later condition.
fn plan_of(description: &Description<'_>, sib1: Sib1) -> CellPlan
    ensures { result ≡ described_plan (view description.now.value.now) sib1 }
{
    let numbers = &description.numbers;
    CellPlan {
        identity: in_16_bits(&numbers.identity),
        duration: description.duration,
        resource: description.resource,
        spare: in_16_bits(&numbers.spare),
        cfi: in_8_bits(&numbers.cfi),
        start: in_8_bits(&numbers.start),
        blocks: in_8_bits(&numbers.blocks),
        mcs: in_8_bits(&numbers.mcs),
        column: in_8_bits(&numbers.column),
        sib1,
    }
}

// Returns a description's SystemInformationBlockType1, or `None` if a value is missing or out of range.
fn information_of(value: &Value) -> Option<Sib1>
    ensures value { result ≡ sib1_at (view value.now) }
    ensures valid { IfSome result IsValid }
{
    sib1_in(value.get("sib1")?)
}

// Returns the squared magnitude of the gain of `port`, or 0 for ports beyond the transmission scheme's port count.
fn power(carrier: Carrier, gains: &[Cpx; 4], port: u8) -> u128
    requires { port < 4 }
    ensures { result ≡ (if nat_lt port (ports_of carrier) then square (value_at gains.now port) else 0) }
{
    if port < carrier.ports() {
        gains[port as usize].norm()
    } else {
        0
    }
}

// Returns whether the sum of four numbers is at most `most`, without overflow.
fn are_together(one: u128, two: u128, three: u128, four: u128, most: u128) -> bool
    ensures { result ≡ nat_le (one + two + three + four) most }
{
    one <= most
        && two <= most - one
        && three <= most - one - two
        && four <= most - one - two - three
}

// Returns whether the gains are a clean recording's: port 0's gain is not 0, and the power is at most 784 divided by
// the port count.
fn are_gains(carrier: Carrier, gains: &[Cpx; 4]) -> bool
    ensures { result ≡ are_gains carrier gains.now }
{
    let first = gains[0].norm();
    let second = power(carrier, gains, 1);
    let third = power(carrier, gains, 2);
    let fourth = power(carrier, gains, 3);
    1 <= first && are_together(first, second, third, fourth, 784 / carrier.ports() as u128)
}

// Returns `gains` if they are those of a clean recording.
fn clean_gains(carrier: Carrier, gains: &[Cpx; 4]) -> Option<[Cpx; 4]>
    ensures { MatchOption result (IsFalse (are_gains carrier gains.now))
        (λ clean. IsTrue (are_gains carrier gains.now) × (clean ≡ gains.now)) }
{
    if are_gains(carrier, gains) {
        Some(*gains)
    } else {
        None
    }
}

// Returns the emission that a description gives, or its first failed condition, which is not `Form`.
fn emission_of(description: &Description<'_>) -> Result<Emission, CellError>
    ensures { MatchResult result (IsValueOf description.now.carrier (view description.now.value.now))
        (IsRefusedFor description.now.carrier (view description.now.value.now)) }
{
    let carrier = description.carrier;
    let sending = &description.sending;
    let sfn = sfn_of(&sending.sfn).ok_or(CellError::Sfn)?;
    let offset = within(&sending.offset, 0, 19_199).ok_or(CellError::Offset)?;
    let samples = within(&sending.samples, LEAST, MOST).ok_or(CellError::Samples)?;
    let gains = clean_gains(carrier, &description.gains).ok_or(CellError::Gain)?;
    let sib1 = information_of(description.value).ok_or(CellError::Sib1Range)?;
    let cell = Cell::of(carrier, plan_of(description, sib1))?;
    Ok(Emission {
        cell,
        carrier,
        timing: Timing { sfn, offset },
        samples,
        gains,
        load: None,
    })
}

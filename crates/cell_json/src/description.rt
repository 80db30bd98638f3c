//! The values in a cell description.

ghost use Rattle.std.specs.Prelude.{◌≡◌, nat_lt, if◌then◌else◌, IsTrue, IsFalse, Some, MatchOption, codes, length};
ghost use Rattle.serde_json.specs.View.{view};
ghost use Rattle.cs_num.specs.Complex.{nothing};
ghost use Rattle.lte_types.specs.Carrier.{ports_of};
ghost use Rattle.cell_json.specs.Kinds.{at_key, has, has_all, object_of};
ghost use Rattle.cell_json.specs.Description.{pair_of, duration_of, duration_at, resource_of, resource_at, sib1_keys};
ghost use Rattle.cell_json.specs.Description.{sending_keys, number_keys, gain_keys, keys, has_form, gains_at};
ghost use Rattle.cell_json.specs.Parts.{HasSending, HasNumbers};

use crate::form::is_sib1;
use crate::kinds::{count_keys, whole};
use cs_num::Cpx;
use lte_types::{Carrier, Duration, Resource};
use serde_json::Value;

/// The frame number, offset in samples and sample count of a transmission, whose ranges have not been checked.
#[derive(Clone, Copy)]
pub(crate) struct Sending {
    pub sfn: i64,
    pub offset: i64,
    pub samples: i64,
}

/// The numbers of a cell's plan, whose ranges have not been checked.
#[derive(Clone, Copy)]
pub(crate) struct Numbers {
    pub identity: i64,
    pub spare: i64,
    pub cfi: i64,
    pub start: i64,
    pub blocks: i64,
    pub mcs: i64,
    pub column: i64,
}

/// A JSON value that has the form of a description, and its values except SystemInformationBlockType1. No range has
/// been checked yet.
#[derive(Clone, Copy)]
pub(crate) struct Description<'a> {
    pub value: &'a Value,
    pub carrier: Carrier,
    pub sending: Sending,
    pub numbers: Numbers,
    pub duration: Duration,
    pub resource: Resource,
    /// One gain per antenna port, and 0 for ports beyond the transmission scheme's port count.
    pub gains: [Cpx; 4],
    pub ghost has_form: { IsTrue (has_form carrier (view value.now)) },
    pub ghost has_sending: { HasSending sending (view value.now) },
    pub ghost has_numbers: { HasNumbers numbers (view value.now) },
    pub ghost has_duration: { duration ≡ duration_at (view value.now) },
    pub ghost has_resource: { resource ≡ resource_at (view value.now) },
    pub ghost has_gains: { gains ≡ gains_at carrier (view value.now) },
}

// Returns the complex number that an array of exactly two integers gives, real part first.
fn pair_in(value: &Value) -> Option<Cpx>
    ensures { result ≡ pair_of (view value.now) }
{
    let items = value.as_array()?;
    if items.len() != 2 {
        return None;
    }
    Some(Cpx {
        re: items[0].as_i64()?,
        im: items[1].as_i64()?,
    })
}

// Returns the complex number at `key`, or `None` if the key has no array of two integers.
fn pair(value: &Value, key: &str) -> Option<Cpx>
    ensures { result ≡ at_key pair_of key.now (view value.now) }
{
    pair_in(value.get(key)?)
}

// Returns the phich-Duration that the string at `key` names, or `None` if there is no such name.
fn duration(value: &Value, key: &str) -> Option<Duration>
    ensures { result ≡ at_key duration_of key.now (view value.now) }
{
    Duration::from_name(value.get(key)?.as_str()?)
}

// Returns the phich-Resource that the string at `key` names, or `None` if there is no such name.
fn resource(value: &Value, key: &str) -> Option<Resource>
    ensures { result ≡ at_key resource_of key.now (view value.now) }
{
    Resource::from_name(value.get(key)?.as_str()?)
}

// Returns the frame number, offset and sample count, or `None` if one of the keys has no integer.
#[tactic(auto, unfolding(crate::specs::Description::sending_keys))]
fn sending_of(value: &Value) -> Option<Sending>
    ensures { MatchOption result (IsFalse (has_all sending_keys (view value.now)))
        (λ d. IsTrue (has_all sending_keys (view value.now)) × HasSending d (view value.now)) }
{
    Some(Sending {
        sfn: whole(value, "sfn")?,
        offset: whole(value, "offset")?,
        samples: whole(value, "samples")?,
    })
}

// Returns the numbers of the cell's plan, or `None` if one of the keys has no integer.
#[tactic(auto, unfolding(crate::specs::Description::number_keys))]
fn numbers_of(value: &Value) -> Option<Numbers>
    ensures { MatchOption result (IsFalse (has_all number_keys (view value.now)))
        (λ d. IsTrue (has_all number_keys (view value.now)) × HasNumbers d (view value.now)) }
{
    Some(Numbers {
        identity: whole(value, "identity")?,
        spare: whole(value, "spare")?,
        cfi: whole(value, "cfi")?,
        start: whole(value, "start")?,
        blocks: whole(value, "blocks")?,
        mcs: whole(value, "mcs")?,
        column: whole(value, "column")?,
    })
}

// Returns whether the key `sib1` has a value with the form of SystemInformationBlockType1.
fn has_sib1(value: &Value) -> bool
    ensures { result ≡ has (codes "sib1") (object_of sib1_keys) (view value.now) }
{
    match value.get("sib1") {
        Some(inner) => is_sib1(inner),
        None => false,
    }
}

// Returns the number of keys in a description: 13, plus one gain for each antenna port.
#[tactic(auto, using(crate::proofs::Tables::count_by_ports))]
fn key_count(carrier: Carrier) -> usize
    ensures { result ≡ length (keys carrier) }
{
    13 + carrier.ports() as usize
}

// Returns the gain of `port` at `key`, or 0 for ports beyond the transmission scheme's port count. `None` means that
// the key has no pair of integers.
fn gain_of(carrier: Carrier, port: u8, value: &Value, key: &str) -> Option<Cpx>
    ensures { result ≡ (if nat_lt port (ports_of carrier) then at_key pair_of key.now (view value.now)
        else Some nothing) }
{
    if port < carrier.ports() {
        pair(value, key)
    } else {
        Some(Cpx::ZERO)
    }
}

// Returns the gains of the transmission scheme's ports, padded with zeros to four, or `None` if a port's key has no
// pair of integers.
fn gains_of(carrier: Carrier, value: &Value) -> Option<[Cpx; 4]>
    ensures { MatchOption result (IsFalse (has_all (gain_keys carrier) (view value.now)))
        (λ gains. IsTrue (has_all (gain_keys carrier) (view value.now))
        × (gains ≡ gains_at carrier (view value.now))) }
{
    Some([
        pair(value, "gain")?,
        gain_of(carrier, 1, value, "gain2")?,
        gain_of(carrier, 2, value, "gain3")?,
        gain_of(carrier, 3, value, "gain4")?,
    ])
}

/// Returns the description in `value` for transmission scheme `carrier`, or `None` if `value` does not have the form of
/// a description.
#[tactic(auto, using(crate::proofs::Tables::form_parts))]
pub(crate) fn description_of(carrier: Carrier, value: &Value) -> Option<Description<'_>>
    ensures { MatchOption result (IsFalse (has_form carrier (view value.now)))
        (λ d. (d.value.now ≡ value.now) × (d.carrier ≡ carrier)) }
{
    if count_keys(value) != key_count(carrier) || !has_sib1(value) {
        return None;
    }
    Some(Description {
        value,
        carrier,
        sending: sending_of(value)?,
        numbers: numbers_of(value)?,
        duration: duration(value, "duration")?,
        resource: resource(value, "resource")?,
        gains: gains_of(carrier, value)?,
    })
}

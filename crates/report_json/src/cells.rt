//! The cell list as JSON.

ghost use Rattle.std.specs.Prelude.{◌≡◌, IfOk, OnOk, string_bytes};
ghost use Rattle.serde_json.specs.Data.{string};
ghost use Rattle.serde_json.specs.View.{view, members_view};
ghost use Rattle.report_parts.specs.Words.{digits_word as digits_of};
ghost use Rattle.report_json.specs.Values.{or_null};
ghost use Rattle.report_json.specs.Cells.{plmn_value as plmn_of, message_value as message_of, tdd_value as tdd_of};
ghost use Rattle.report_json.specs.Cells.{cell_members, block_members, identity_members, access_members, schedule_members};
ghost use Rattle.report_json.specs.Cells.{sib1_value as sib1_of, system_value as system_of, entry_members};
ghost use Rattle.report_json.specs.Cells.{entry_value as entry_of, json_text};

use crate::values::{ToJson, list_text, list_value};
use lte_types::{Entry, Mib, Plmn, SiMessage, Sib1, Sib1Reason, period, window};
use report_parts::{digits_word, mnc_word};
use serde_json::{Map, ToValue, Value, json, put};
use std::alloc::{AllocError, Global};
use std::fmt::Write;

/// Returns a cell list as JSON in one line, without a line feed: an array with one object for each cell, whose keys are
/// in byte order. Fails only if an allocation fails. (own)
pub fn json(alloc: Global, entries: &[Entry]) -> Result<String, AllocError>
    ensures { IfOk result (λ text. string_bytes text ≡ json_text entries.now) }
{
    list_text(alloc, entries)
}

// The object for a cell.
impl ToJson for Entry {
    ghost json_of = { entry_of };

    fn to_json(&self, alloc: Global) -> Result<Value, AllocError> {
        let members = members_of(alloc, self)?;
        Ok(Value::from(members))
    }
}

/// Returns the members of a cell's object.
pub(crate) fn members_of(alloc: Global, entry: &Entry) -> Result<Map<String, Value>, AllocError>
    ensures { IfOk result (λ members. members_view members.entries ≡ entry_members entry.now) }
{
    let mut members = Map::new(alloc);
    put_cell(alloc, entry, &mut members)?;
    put_block(alloc, &entry.mib, &mut members)?;
    let system = system_value(alloc, &entry.sib1)?;
    put(&mut members, alloc, "sib1", system)?;
    Ok(members)
}

// Adds a cell's identity, frame start, frame number and antenna port count.
fn put_cell(
    alloc: Global,
    entry: &Entry,
    members: &mut Map<String, Value>,
) -> Result<(), AllocError>
    ensures { OnOk result (members_view members.new.entries
        ≡ cell_members entry.now (members_view members.old.entries)) }
{
    put(members, alloc, "identity", Value::from(entry.id.value()))?;
    put(members, alloc, "at", Value::from(entry.start))?;
    put(members, alloc, "sfn", Value::from(entry.sfn.value()))?;
    put(members, alloc, "ports", Value::from(entry.ports))
}

// Adds the fields of a cell's MIB.
fn put_block(alloc: Global, mib: &Mib, members: &mut Map<String, Value>) -> Result<(), AllocError>
    ensures { OnOk result (members_view members.new.entries
        ≡ block_members mib.now (members_view members.old.entries)) }
{
    put(
        members,
        alloc,
        "bandwidth",
        mib.bandwidth.name().to_value(alloc)?,
    )?;
    put(
        members,
        alloc,
        "duration",
        mib.duration.name().to_value(alloc)?,
    )?;
    put(
        members,
        alloc,
        "resource",
        mib.resource.name().to_value(alloc)?,
    )?;
    put(members, alloc, "br", Value::from(mib.br()))?;
    put(members, alloc, "spare", Value::from(mib.rest()))
}

// Returns the object with all fields of SIB1, or with the reason why SIB1 was not read.
fn system_value(alloc: Global, sib1: &Result<Sib1, Sib1Reason>) -> Result<Value, AllocError>
    ensures { IfOk result (λ value. view value ≡ system_of sib1.now) }
{
    match sib1 {
        Ok(sib1) => sib1_value(alloc, sib1),
        Err(reason) => {
            let reason = format!(in alloc; "{}", *reason)?;
            json!(in alloc; {"none": reason})
        }
    }
}

// Returns the object with all fields of SIB1.
fn sib1_value(alloc: Global, sib1: &Sib1) -> Result<Value, AllocError>
    ensures { IfOk result (λ value. view value ≡ sib1_of sib1.now) }
{
    let mut members = Map::new(alloc);
    put_identities(alloc, sib1, &mut members)?;
    put_access(alloc, sib1, &mut members)?;
    put_schedule(alloc, sib1, &mut members)?;
    Ok(Value::from(members))
}

// Adds a cell's networks, tracking area code, identity and closed subscriber group.
fn put_identities(
    alloc: Global,
    sib1: &Sib1,
    members: &mut Map<String, Value>,
) -> Result<(), AllocError>
    ensures { OnOk result (members_view members.new.entries
        ≡ identity_members sib1.now (members_view members.old.entries)) }
{
    let plmns = list_value(alloc, sib1.plmns.slice())?;
    put(members, alloc, "plmns", plmns)?;
    put(members, alloc, "tac", Value::from(sib1.tac))?;
    put(members, alloc, "cell", Value::from(sib1.cell))?;
    put(members, alloc, "csg", Value::from(sib1.csg))?;
    put(
        members,
        alloc,
        "csg_identity",
        Value::from(sib1.csg_identity),
    )
}

// Adds the access fields, the levels for cell selection and the band.
fn put_access(
    alloc: Global,
    sib1: &Sib1,
    members: &mut Map<String, Value>,
) -> Result<(), AllocError>
    ensures { OnOk result (members_view members.new.entries
        ≡ access_members sib1.now (members_view members.old.entries)) }
{
    put(members, alloc, "barred", Value::from(sib1.barred))?;
    put(members, alloc, "intra", Value::from(sib1.intra))?;
    put(members, alloc, "q_rx", Value::from(sib1.q_rx))?;
    put(members, alloc, "q_offset", Value::from(sib1.q_offset))?;
    put(members, alloc, "p_max", Value::from(sib1.p_max))?;
    put(members, alloc, "band", Value::from(sib1.band))
}

// Adds the schedule for system information, the window in milliseconds, systemInfoValueTag, the TDD configuration and
// the extension flag.
fn put_schedule(
    alloc: Global,
    sib1: &Sib1,
    members: &mut Map<String, Value>,
) -> Result<(), AllocError>
    ensures { OnOk result (members_view members.new.entries
        ≡ schedule_members sib1.now (members_view members.old.entries)) }
{
    let scheduling = list_value(alloc, sib1.scheduling.slice())?;
    put(members, alloc, "scheduling", scheduling)?;
    put(
        members,
        alloc,
        "window",
        Value::from(window::milliseconds(sib1.window)),
    )?;
    put(members, alloc, "tag", Value::from(sib1.tag))?;
    let tdd = tdd_value(alloc, sib1.tdd)?;
    put(members, alloc, "tdd", tdd)?;
    put(members, alloc, "extension", Value::from(sib1.extended))
}

// The object for a network identity (PLMN).
impl ToJson for Plmn {
    ghost json_of = { plmn_of };

    fn to_json(&self, alloc: Global) -> Result<Value, AllocError> {
        let mcc = mcc_value(alloc, &self.mcc)?;
        let mnc = mnc_word(alloc, &self.mnc)?;
        json!(in alloc; {"mcc": mcc, "mnc": mnc, "reserved": self.reserved})
    }
}

// Returns the three digits of a mobile country code as a string, or null if it is absent.
fn mcc_value(alloc: Global, mcc: &Option<[u8; 3]>) -> Result<Value, AllocError>
    ensures { IfOk result (λ value. view value ≡ or_null (λ digits. string (digits_of digits)) mcc.now) }
{
    match mcc {
        Some(digits) => Ok(Value::String(digits_word(alloc, digits)?)),
        None => Ok(Value::Null),
    }
}

// The object for a schedule entry.
impl ToJson for SiMessage {
    ghost json_of = { message_of };

    fn to_json(&self, alloc: Global) -> Result<Value, AllocError> {
        let sibs = list_value(alloc, self.sibs.slice())?;
        json!(in alloc; {"period": period::frames(self.period), "sibs": sibs})
    }
}

// Returns the array with the two numbers of a TDD configuration, or null if it is absent.
fn tdd_value(alloc: Global, tdd: Option<(u8, u8)>) -> Result<Value, AllocError>
    ensures { IfOk result (λ value. view value ≡ or_null tdd_of tdd) }
{
    match tdd {
        Some((first, second)) => json!(in alloc; [first, second]),
        None => Ok(Value::Null),
    }
}

//! The SystemInformationBlockType1 of a description, with each value checked against its range (TS 36.331 section
//! 6.2.2).

ghost use Rattle.std.specs.Prelude.{◌≡◌, ◌≤◌, ◌<◌, pos, negsuc, length};
ghost use Rattle.serde_json.specs.View.{view, items_view};
ghost use Rattle.cell_json.specs.Kinds.{natural_within as natural_of, whole_within as whole_of, null_or, each};
ghost use Rattle.cell_json.specs.Kinds.{list_within, at_key};
ghost use Rattle.cell_json.specs.Information.{mcc_of, mnc_in, mnc_of as network_code_of, network_of, networks_of};
ghost use Rattle.cell_json.specs.Information.{period_in, window_in};
ghost use Rattle.cell_json.specs.Information.{digit_of as digit_in, two_digits as two_in, three_digits as three_in};
ghost use Rattle.cell_json.specs.Information.{message_of as entry_of, first_has_mcc as first_of};
ghost use Rattle.cell_json.specs.Information.{access_in as described_access, selection_in as described_selection};
ghost use Rattle.cell_json.specs.Information.{sib1_in as described_sib1};

use crate::kinds::{
    items_within, natural_at, natural_or_null_at, natural_within, small_within, truth,
};
use lte_types::{
    CellAccessRelatedInfo, CellSelectionInfo, Mnc, Plmn, Plmns, Schedule, SiMessage, Sib1, Sibs,
    period, window,
};
use serde_json::Value;

// Returns the digit with character code `code`, or `None` if `code` is not the code of a digit.
fn digit_of(code: u8) -> Option<u8>
    ensures { result ≡ digit_in code }
{
    if code.is_ascii_digit() {
        Some(code - b'0')
    } else {
        None
    }
}

fn two_digits(text: &str) -> Option<[u8; 2]>
    ensures { result ≡ two_in text.now }
{
    match text.as_bytes() {
        [a, b] => Some([digit_of(*a)?, digit_of(*b)?]),
        _ => None,
    }
}

fn three_digits(text: &str) -> Option<[u8; 3]>
    ensures { result ≡ three_in text.now }
{
    match text.as_bytes() {
        [a, b, c] => Some([digit_of(*a)?, digit_of(*b)?, digit_of(*c)?]),
        _ => None,
    }
}

// Returns a mobile country code of three digits, or null. `None` means that the value is neither.
fn mcc_or_null(value: &Value) -> Option<Option<[u8; 3]>>
    ensures { result ≡ null_or mcc_of (view value.now) }
{
    if value.is_null() {
        return Some(None);
    }
    Some(Some(three_digits(value.as_str()?)?))
}

// Returns the mobile network code in `text`, which must have two or three digits.
fn mnc_in_text(text: &str) -> Option<Mnc>
    ensures { result ≡ mnc_in text.now }
{
    if text.len() == 2 {
        Some(Mnc::Two(two_digits(text)?))
    } else {
        Some(Mnc::Three(three_digits(text)?))
    }
}

fn mnc_of(value: &Value) -> Option<Mnc>
    ensures { result ≡ network_code_of (view value.now) }
{
    mnc_in_text(value.as_str()?)
}

// Returns the network identity (PLMN) that `value` describes, or `None` if a field is out of range.
fn plmn_of(value: &Value) -> Option<Plmn>
    ensures { result ≡ network_of (view value.now) }
{
    Some(Plmn {
        mcc: mcc_or_null(value.get("mcc")?)?,
        mnc: mnc_of(value.get("mnc")?)?,
        reserved: truth(value, "reserved")?,
    })
}

// Returns the code of a period, given as 8 to 512 frames.
fn period_of(value: &Value) -> Option<u8>
    ensures { result ≡ period_in (view value.now) }
{
    period::code_of(natural_within(value, 8, 512)? as u16)
}

// Returns the code of a system information window, given as 1 to 40 milliseconds.
fn window_of(value: &Value) -> Option<u8>
    ensures { result ≡ window_in (view value.now) }
{
    window::code_of(natural_within(value, 1, 40)? as u8)
}

// Returns 1 to 6 network identities. The first must have a country code.
fn plmns_of(value: &Value) -> Option<Plmns>
    ensures { result ≡ networks_of (view value.now) }
{
    let plmns = plmns_in(items_within(value, 1, 6)?)?;
    if !first_has_mcc(&plmns) {
        return None;
    }
    Some(plmns)
}

fn first_has_mcc(plmns: &Plmns) -> bool
    ensures { result ≡ first_of plmns.now }
{
    match plmns.slice() {
        [first, ..] => first.mcc.is_some(),
        [] => false,
    }
}

// Returns the network identities that the items describe, or `None` if one item does not describe a network identity.
fn plmns_in(items: &[Value]) -> Option<Plmns>
    requires { length items.now ≤ 6 }
    ensures { result ≡ each network_of (items_view items.now) }
{
    let mut plmns = Plmns::new();
    for item in items {
        plmns.push(plmn_of(item)?);
    }
    Some(plmns)
}

// Returns the SIB codes (0 to 79) in the items, or `None` if one item is out of range.
fn sibs_in(items: &[Value]) -> Option<Sibs>
    requires { length items.now ≤ 31 }
    ensures { result ≡ each (natural_of 0 79) (items_view items.now) }
{
    let mut sibs = Sibs::new();
    for item in items {
        sibs.push(natural_within(item, 0, 79)? as u8);
    }
    Some(sibs)
}

// Returns the SIB codes in an array of at most 31 items.
fn sibs_of(value: &Value) -> Option<Sibs>
    ensures { result ≡ list_within 0 31 (natural_of 0 79) (view value.now) }
{
    sibs_in(items_within(value, 0, 31)?)
}

// Returns the schedule entry that `value` describes, or `None` if a field is out of range.
fn message_of(value: &Value) -> Option<SiMessage>
    ensures { result ≡ entry_of (view value.now) }
{
    Some(SiMessage {
        period: period_of(value.get("period")?)?,
        sibs: sibs_of(value.get("sibs")?)?,
    })
}

// Returns the schedule entries that the items describe, or `None` if one item is out of range.
fn schedule_in(items: &[Value]) -> Option<Schedule>
    requires { length items.now ≤ 32 }
    ensures { result ≡ each entry_of (items_view items.now) }
{
    let mut schedule = Schedule::new();
    for item in items {
        schedule.push(message_of(item)?);
    }
    Some(schedule)
}

// Returns a schedule of 1 to 32 entries.
fn schedule_of(value: &Value) -> Option<Schedule>
    ensures { result ≡ list_within 1 32 entry_of (view value.now) }
{
    schedule_in(items_within(value, 1, 32)?)
}

// Returns the p-Max at `key`, -30 to 33 dBm, or null. `None` means that the value is out of range.
fn p_max_at(value: &Value, key: &str) -> Option<Option<i8>>
    ensures { result ≡ at_key (null_or (whole_of (negsuc 29) (pos 33))) key.now (view value.now) }
{
    let inner = value.get(key)?;
    if inner.is_null() {
        return Some(None);
    }
    Some(Some(small_within(inner, -30, 33)?))
}

// Returns the q-RxLevMinOffset at `key`, 1 to 8 in steps of 2 dB, or null. `None` means that the value is out of range.
fn q_offset_at(value: &Value, key: &str) -> Option<Option<u8>>
    ensures { result ≡ at_key (null_or (natural_of 1 8)) key.now (view value.now) }
{
    let inner = value.get(key)?;
    if inner.is_null() {
        return Some(None);
    }
    Some(Some(natural_within(inner, 1, 8)? as u8))
}

// Returns the fields of cellAccessRelatedInfo, or `None` if a value is missing or out of range.
fn access_in(value: &Value) -> Option<CellAccessRelatedInfo>
    ensures { result ≡ described_access (view value.now) }
{
    Some(CellAccessRelatedInfo {
        plmns: plmns_of(value.get("plmns")?)?,
        tac: natural_at(value, "tac", 0, 65_535)? as u16,
        cell: natural_at(value, "cell", 0, 268_435_455)?,
        barred: truth(value, "barred")?,
        intra: truth(value, "intra")?,
        csg: truth(value, "csg")?,
        csg_identity: natural_or_null_at(value, "csg_identity", 0, 134_217_727)?,
    })
}

// Returns the fields of cellSelectionInfo, q-RxLevMin and q-RxLevMinOffset, or `None` if a value is missing or out of
// range.
fn selection_in(value: &Value) -> Option<CellSelectionInfo>
    ensures { result ≡ described_selection (view value.now) }
{
    Some(CellSelectionInfo {
        q_rx: small_within(value.get("q_rx")?, -70, -22)?,
        q_offset: q_offset_at(value, "q_offset")?,
    })
}

/// Returns the SystemInformationBlockType1 that `value` describes, or `None` if a value in it is missing or out of
/// range.
#[tactic(auto, unfolding(crate::specs::Information::sib1_in))]
pub(crate) fn sib1_in(value: &Value) -> Option<Sib1>
    ensures { result ≡ described_sib1 (view value.now) }
{
    let access = access_in(value)?;
    let selection = selection_in(value)?;
    Some(Sib1 {
        plmns: access.plmns,
        tac: access.tac,
        cell: access.cell,
        barred: access.barred,
        intra: access.intra,
        csg: access.csg,
        csg_identity: access.csg_identity,
        q_rx: selection.q_rx,
        q_offset: selection.q_offset,
        p_max: p_max_at(value, "p_max")?,
        band: natural_at(value, "band", 1, 64)? as u8,
        scheduling: schedule_of(value.get("scheduling")?)?,
        tdd: None,
        window: window_of(value.get("window")?)?,
        tag: natural_at(value, "tag", 0, 31)? as u8,
        extended: false,
    })
}

//! A recording's cell lists for all transmission schemes, as JSON.

ghost use Rattle.std.specs.Prelude.{◌≡◌, ◌++◌, IfOk, OnOk, List, length, map, string_bytes};
ghost use Rattle.serde_json.specs.View.{view, members_view};
ghost use Rattle.lte_types.specs.Carrier.{carriers};
ghost use Rattle.report_json.specs.All.{ruled_members as members_by, ruled_value as value_of, ruled_values};
ghost use Rattle.report_json.specs.All.{all_value, all_json};

use crate::cells::members_of;
use explain::EntryList;
use lte_types::{Carrier, Entry};
use report_parts::rule_word;
use serde_json::{Map, ToValue, Value, put};
use std::alloc::{AllocError, Global};

/// Returns the cell `lists` for all transmission schemes, in the order of `Carrier::ALL`, as one JSON array of cell
/// objects as in `json`, with a key for the rule. Fails only if an allocation fails. (own)
pub fn json_of_all(alloc: Global, lists: &[EntryList]) -> Result<String, AllocError>
    requires { length lists.now ≡ length carriers }
    ensures { (of : Carrier → List Entry) → lists.now ≡ map of carriers →
        IfOk result (λ text. string_bytes text ≡ all_json of) }
{
    let all = value_of_all(alloc, lists)?;
    all.to_string(alloc)
}

// Returns the array of the cells in the lists for all transmission schemes.
fn value_of_all(alloc: Global, lists: &[EntryList]) -> Result<Value, AllocError>
    ensures { (of : Carrier → List Entry) → lists.now ≡ map of carriers →
        IfOk result (λ value. view value ≡ all_value of) }
{
    let mut values = Vec::new(alloc);
    for (carrier, list) in Carrier::ALL.iter().zip(lists) {
        add_ruled(alloc, *carrier, list.slice(), &mut values)?;
    }
    Ok(Value::from(values))
}

// Appends to `list` the objects for the cells in `entries`, each with `rule`.
fn add_ruled(
    alloc: Global,
    rule: Carrier,
    entries: &[Entry],
    list: &mut Vec<Value>,
) -> Result<(), AllocError>
    ensures { OnOk result (map view list.new.items ≡ map view list.old.items ++ ruled_values rule entries.now) }
{
    for entry in entries {
        list.push(ruled_value(alloc, rule, entry)?)?;
    }
    Ok(())
}

// Returns the object for a cell, with the rule of its list.
fn ruled_value(alloc: Global, rule: Carrier, entry: &Entry) -> Result<Value, AllocError>
    ensures { IfOk result (λ value. view value ≡ value_of rule entry.now) }
{
    let members = ruled_members(alloc, rule, entry)?;
    Ok(Value::from(members))
}

/// Returns the members of a cell's object, with the rule of its list.
pub(crate) fn ruled_members(
    alloc: Global,
    rule: Carrier,
    entry: &Entry,
) -> Result<Map<String, Value>, AllocError>
    ensures { IfOk result (λ members. members_view members.entries ≡ members_by rule entry.now) }
{
    let mut members = members_of(alloc, entry)?;
    let word = rule_word(rule).to_value(alloc)?;
    put(&mut members, alloc, "rule", word)?;
    Ok(members)
}

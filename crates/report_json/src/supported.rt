//! The evidence for the cell lists for all transmission schemes as JSON: an array with one object for each cell. The
//! object has the keys of the cell's object in `json_of_all` and in `json_of_evidence`.

ghost use Rattle.std.specs.Prelude.{◌≡◌, ◌++◌, IfOk, OnOk, List, length, map, string_bytes};
ghost use Rattle.lte_types.specs.Carrier.{carriers};
ghost use Rattle.report_json.specs.Supported.{Supported, cell_value, supported_values, all_supported, supported_json};

use crate::all::ruled_members;
use crate::supports::put_shown;
use crate::values::{ToJson, list_text};
use evidence::Support;
use explain::EntryList;
use lte_types::{Carrier, Entry};
use serde_json::Value;
use std::alloc::{AllocError, Global};
use std::marker::Model;

/// A cell list, with what supports each of its entries. Contracts see it as the lists of both. (own)
#[derive(Drop)]
pub struct SupportedList {
    list: EntryList,
    supports: Vec<Support>,
}

impl Model for SupportedList {
    ghost Value = { Supported };

    ghost view = { λ s. record {
      entries = s.list;
      shown = s.supports.items;
    } };
}

impl SupportedList {
    /// Returns a cell list, with what supports each of its entries, in the same order.
    pub fn new(list: EntryList, supports: Vec<Support>) -> Self
        ensures entries { result.entries ≡ list }
        ensures shown { result.shown ≡ supports.items }
    {
        SupportedList { list, supports }
    }

    /// Returns what supports each entry.
    pub fn supports(&self) -> &[Support]
        ensures { result.now ≡ self.now.shown }
    {
        &self.supports
    }

    // Returns the entries.
    fn entries(&self) -> &[Entry]
        ensures { result.now ≡ self.now.entries }
    {
        self.list.slice()
    }
}

/// Returns the evidence for the `lists` for all transmission schemes, in the order of `Carrier::ALL`, as JSON in one
/// line, without a line feed: an array with one object for each cell. Fails only if an allocation fails. (own)
pub fn json_of_supported(alloc: Global, lists: &[SupportedList]) -> Result<String, AllocError>
    requires { length lists.now ≡ length carriers }
    ensures { (of : Carrier → Supported) → lists.now ≡ map of carriers →
        IfOk result (λ text. string_bytes text ≡ supported_json of) }
{
    let cells = cells_of(alloc, lists)?;
    list_text(alloc, &cells)
}

// A cell of one of the lists, with its list's rule.
#[derive(Drop)]
struct SupportedCell<'a> {
    rule: Carrier,
    entry: &'a Entry,
    support: &'a Support,
}

impl<'a> ToJson for SupportedCell<'a> {
    ghost json_of = { cell_value };

    fn to_json(&self, alloc: Global) -> Result<Value, AllocError> {
        let mut members = ruled_members(alloc, self.rule, self.entry)?;
        put_shown(alloc, self.support, &mut members)?;
        Ok(Value::from(members))
    }
}

// Returns the cells in the lists for all transmission schemes.
fn cells_of<'a>(
    alloc: Global,
    lists: &'a [SupportedList],
) -> Result<Vec<SupportedCell<'a>>, AllocError>
    ensures { (of : Carrier → Supported) → lists.now ≡ map of carriers →
        IfOk result (λ cells. map cell_value cells.items ≡ all_supported of) }
{
    let mut cells = Vec::new(alloc);
    for (carrier, list) in Carrier::ALL.iter().zip(lists) {
        add_cells(*carrier, list, &mut cells)?;
    }
    Ok(cells)
}

// Appends the cells in a list to `cells`.
fn add_cells<'a>(
    rule: Carrier,
    list: &'a SupportedList,
    cells: &mut Vec<SupportedCell<'a>>,
) -> Result<(), AllocError>
    ensures { OnOk result (map cell_value cells.new.items
        ≡ map cell_value cells.old.items ++ supported_values rule list.now) }
{
    for (entry, support) in list.entries().iter().zip(list.supports()) {
        cells.push(SupportedCell {
            rule,
            entry,
            support,
        })?;
    }
    Ok(())
}

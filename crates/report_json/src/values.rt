//! Values in JSON, and lists of them.

ghost use Rattle.std.specs.Prelude.{◌≡◌, ◌∷◌, ◌++◌, IfOk, OnOk, string_bytes};
ghost use Rattle.std.specs.List.{flat_map};
ghost use Rattle.serde_json.specs.Data.{Data, array, item, no_items};
ghost use Rattle.serde_json.specs.View.{view};
ghost use Rattle.serde_json.specs.Written.{compact_text};
ghost use Rattle.report_parts.specs.Fields.{natural, list_of};
ghost use Rattle.report_json.specs.Values.{HasNoFloat, after_comma};

use serde_json::{Value, json};
use std::alloc::{AllocError, Global};

/// A type whose values have a JSON form. (own)
pub(crate) trait ToJson {
    ghost json_of: { Self → Data };

    /// Returns the JSON value. Fails only if an allocation fails.
    fn to_json(&self, alloc: Global) -> Result<Value, AllocError>
        ensures { IfOk result (λ value. view value ≡ json_of self.now) };
}

/// Returns the JSON array of a list's items. Fails only if an allocation fails. (own)
pub(crate) fn list_value<T: ToJson>(alloc: Global, items: &[T]) -> Result<Value, AllocError>
    ensures { IfOk result (λ value. view value ≡ list_of T.json_of items.now) }
{
    let mut list = Vec::new(alloc);
    for item in items {
        list.push(item.to_json(alloc)?)?;
    }
    Ok(Value::from(list))
}

/// Returns the JSON text of a list, without spaces. Only one item's JSON value is in memory at a time. Fails only if an
/// allocation fails. (own)
pub(crate) fn list_text<T: ToJson>(alloc: Global, items: &[T]) -> Result<String, AllocError>
    ensures { HasNoFloat T.json_of →
        IfOk result (λ text. string_bytes text ≡ compact_text (list_of T.json_of items.now)) }
{
    match items {
        [] => String::from_str(alloc, "[]"),
        [first, rest @ ..] => some_text(alloc, first, rest),
    }
}

// Returns the JSON text of the list with the items `first` and `rest`.
fn some_text<T: ToJson>(alloc: Global, first: &T, rest: &[T]) -> Result<String, AllocError>
    ensures { HasNoFloat T.json_of →
        IfOk result (λ text. string_bytes text ≡ compact_text (list_of T.json_of (first.now ∷ rest.now))) }
{
    let mut text = String::from_str(alloc, "[")?;
    add_text(alloc, first, &mut text)?;
    add_rest(alloc, rest, &mut text)?;
    text.push_str("]")?;
    Ok(text)
}

// Appends the JSON text of each item, preceded by a comma.
fn add_rest<T: ToJson>(alloc: Global, items: &[T], text: &mut String) -> Result<(), AllocError>
    ensures { HasNoFloat T.json_of →
        OnOk result (string_bytes text.new ≡ string_bytes text.old ++ flat_map (after_comma T.json_of) items.now) }
{
    for item in items {
        text.push_str(",")?;
        add_text(alloc, item, text)?;
    }
    Ok(())
}

// Appends the JSON text of an item.
fn add_text<T: ToJson>(alloc: Global, item: &T, text: &mut String) -> Result<(), AllocError>
    ensures { HasNoFloat T.json_of →
        OnOk result (string_bytes text.new ≡ string_bytes text.old ++ compact_text (T.json_of item.now)) }
{
    let value = item.to_json(alloc)?;
    let json = value.to_string(alloc)?;
    text.push_str(&json)
}

/// Returns the JSON array with two values. Fails only if an allocation fails. (own)
pub(crate) fn pair_value(alloc: Global, first: Value, second: Value) -> Result<Value, AllocError>
    ensures { IfOk result (λ value. view value ≡ array (item (view first) (item (view second) no_items))) }
{
    json!(in alloc; [first, second])
}

// The JSON number for a system information block code.
impl ToJson for u8 {
    ghost json_of = { natural };

    fn to_json(&self, alloc: Global) -> Result<Value, AllocError> {
        Ok(Value::from(*self))
    }
}

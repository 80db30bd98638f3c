//! The types of JSON values: integers, Booleans, strings and arrays, read with a range.

ghost use Rattle.std.specs.Prelude.{◌≡◌, ℕ, ◌≤◌, ◌≤ℤ◌, pos, IsTrue, IsFalse, IfSome, MatchOption, option_map, length};
ghost use Rattle.serde_json.specs.Find.{as_bool};
ghost use Rattle.serde_json.specs.View.{view, items_view};
ghost use Rattle.cell_json.specs.Kinds.{is_between, whole_of, null_or, at_key, key_count};
ghost use Rattle.cell_json.specs.Kinds.{natural_within as natural_of, whole_within as small_of};
ghost use Rattle.cell_json.specs.Kinds.{items_within as items_of};

use serde_json::Value;

/// Returns the number of keys of `value`, or 0 if `value` is not an object.
pub(crate) fn count_keys(value: &Value) -> usize
    ensures { result ≡ key_count (view value.now) }
{
    match value.as_object() {
        Some(members) => members.len(),
        None => 0,
    }
}

/// Returns the integer at `key`, or `None` if the key has no integer.
pub(crate) fn whole(value: &Value, key: &str) -> Option<i64>
    ensures { result ≡ at_key whole_of key.now (view value.now) }
{
    value.get(key)?.as_i64()
}

/// Returns the Boolean at `key`, or `None` if the key has no Boolean.
pub(crate) fn truth(value: &Value, key: &str) -> Option<bool>
    ensures { result ≡ at_key as_bool key.now (view value.now) }
{
    value.get(key)?.as_bool()
}

/// Returns `number` if it is from `least` to `most`, or `None` otherwise.
pub(crate) fn within(number: &i64, least: u32, most: u32) -> Option<u32>
    ensures found { MatchOption result (IsFalse (is_between (pos least) (pos most) number.now))
        (λ _. IsTrue (is_between (pos least) (pos most) number.now)) }
    ensures value { IfSome result (λ n. pos n ≡ number.now) }
    ensures range { IfSome result (λ n. (least ≤ n) × (n ≤ most)) }
{
    if least as i64 <= *number && *number <= most as i64 {
        Some(*number as u32)
    } else {
        None
    }
}

/// Returns the integer in `value` if it is from `least` to `most`, or `None` otherwise.
pub(crate) fn natural_within(value: &Value, least: u32, most: u32) -> Option<u32>
    ensures value { result ≡ natural_of least most (view value.now) }
    ensures range { IfSome result (λ n. (least ≤ n) × (n ≤ most)) }
{
    let number = value.as_i64()?;
    within(&number, least, most)
}

/// Returns the integer at `key` if it is from `least` to `most`, or `None` otherwise.
pub(crate) fn natural_at(value: &Value, key: &str, least: u32, most: u32) -> Option<u32>
    ensures value { result ≡ at_key (natural_of least most) key.now (view value.now) }
    ensures range { IfSome result (λ n. (least ≤ n) × (n ≤ most)) }
{
    natural_within(value.get(key)?, least, most)
}

/// Returns the integer at `key` if it is from `least` to `most`, `Some(None)` for null, or `None` otherwise.
pub(crate) fn natural_or_null_at(
    value: &Value,
    key: &str,
    least: u32,
    most: u32,
) -> Option<Option<u32>>
    ensures { result ≡ at_key (null_or (natural_of least most)) key.now (view value.now) }
{
    let inner = value.get(key)?;
    if inner.is_null() {
        return Some(None);
    }
    Some(Some(natural_within(inner, least, most)?))
}

/// Returns the integer in `value` if it is from `least` to `most`, or `None` otherwise.
pub(crate) fn small_within(value: &Value, least: i8, most: i8) -> Option<i8>
    ensures { result ≡ small_of least most (view value.now) }
{
    let number = value.as_i64()?;
    if least as i64 <= number && number <= most as i64 {
        Some(number as i8)
    } else {
        None
    }
}

/// Returns the items of an array with `least` to `most` items, or `None` for other values.
pub(crate) fn items_within(value: &Value, least: usize, most: usize) -> Option<&[Value]>
    ensures value { option_map (λ items. items_view items.now) result ≡ items_of least most (view value.now) }
    ensures count { IfSome result (λ items. (least ≤ length items.now) × (length items.now ≤ most)) }
{
    let items = value.as_array()?.as_slice();
    if least <= items.len() && items.len() <= most {
        Some(items)
    } else {
        None
    }
}

//! The form of the JSON values in a description: which keys are there, and which types their values have.

ghost use Rattle.std.specs.Prelude.{◌≡◌, codes, is_some, Bool};
ghost use Rattle.serde_json.specs.Find.{as_str, as_bool};
ghost use Rattle.serde_json.specs.View.{view};
ghost use Rattle.cell_json.specs.Kinds.{whole_of, null_or, list_of, has, has_all, has_exactly, object_of};
ghost use Rattle.cell_json.specs.Description.{network_keys, message_keys, access_keys, selection_keys};
ghost use Rattle.cell_json.specs.Description.{schedule_keys, sib1_keys};

use crate::kinds::{count_keys, truth, whole};
use serde_json::Value;

// Returns whether `key` has an integer.
fn has_whole(value: &Value, key: &str) -> bool
    ensures { result ≡ has key.now whole_of (view value.now) }
{
    whole(value, key).is_some()
}

// Returns whether `key` has a Boolean.
fn has_truth(value: &Value, key: &str) -> bool
    ensures { result ≡ has key.now as_bool (view value.now) }
{
    truth(value, key).is_some()
}

// Returns whether `key` has an integer or null.
fn has_whole_or_null(value: &Value, key: &str) -> bool
    ensures { result ≡ has key.now (null_or whole_of) (view value.now) }
{
    match value.get(key) {
        Some(inner) => inner.is_null() || inner.is_i64(),
        None => false,
    }
}

// Returns whether `key` has a string.
fn has_text(value: &Value, key: &str) -> bool
    ensures { result ≡ has key.now as_str (view value.now) }
{
    match value.get(key) {
        Some(inner) => inner.is_string(),
        None => false,
    }
}

// Returns whether `key` has a string or null.
fn has_text_or_null(value: &Value, key: &str) -> bool
    ensures { result ≡ has key.now (null_or as_str) (view value.now) }
{
    match value.get(key) {
        Some(inner) => inner.is_null() || inner.is_string(),
        None => false,
    }
}

// Returns whether `value` has exactly the keys of a network identity (PLMN), each with a value of its type.
fn is_network(value: &Value) -> bool
    ensures { result ≡ has_exactly network_keys (view value.now) }
{
    count_keys(value) == 3
        && has_text_or_null(value, "mcc")
        && has_text(value, "mnc")
        && has_truth(value, "reserved")
}

// Returns whether `key` has an array of network identities.
fn has_networks(value: &Value, key: &str) -> bool
    ensures { result ≡ has key.now (list_of (object_of network_keys)) (view value.now) }
{
    match value.get(key) {
        Some(inner) => are_networks(inner),
        None => false,
    }
}

fn are_networks(value: &Value) -> bool
    ensures { result ≡ is_some (list_of (object_of network_keys) (view value.now)) }
{
    match value.as_array() {
        Some(items) => items.iter().all(is_network),
        None => false,
    }
}

// Returns whether `key` has an array of integers.
fn has_wholes(value: &Value, key: &str) -> bool
    ensures { result ≡ has key.now (list_of whole_of) (view value.now) }
{
    match value.get(key) {
        Some(inner) => are_wholes(inner),
        None => false,
    }
}

fn are_wholes(value: &Value) -> bool
    ensures { result ≡ is_some (list_of whole_of (view value.now)) }
{
    match value.as_array() {
        Some(items) => items.iter().all(Value::is_i64),
        None => false,
    }
}

// Returns whether `value` has exactly the keys of a schedule entry, each with a value of its type.
fn is_message(value: &Value) -> bool
    ensures { result ≡ has_exactly message_keys (view value.now) }
{
    count_keys(value) == 2 && has_whole(value, "period") && has_wholes(value, "sibs")
}

// Returns whether `key` has an array of schedule entries.
fn has_messages(value: &Value, key: &str) -> bool
    ensures { result ≡ has key.now (list_of (object_of message_keys)) (view value.now) }
{
    match value.get(key) {
        Some(inner) => are_messages(inner),
        None => false,
    }
}

fn are_messages(value: &Value) -> bool
    ensures { result ≡ is_some (list_of (object_of message_keys) (view value.now)) }
{
    match value.as_array() {
        Some(items) => items.iter().all(is_message),
        None => false,
    }
}

// Returns whether `value` has the keys of cellAccessRelatedInfo, each with a value of its type.
#[tactic(auto, unfolding(crate::specs::Description::access_keys))]
fn has_access(value: &Value) -> bool
    ensures { result ≡ has_all access_keys (view value.now) }
{
    has_networks(value, "plmns")
        && has_whole(value, "tac")
        && has_whole(value, "cell")
        && has_truth(value, "barred")
        && has_truth(value, "intra")
        && has_truth(value, "csg")
        && has_whole_or_null(value, "csg_identity")
}

// Returns whether `value` has the keys of cellSelectionInfo, p-Max and freqBandIndicator, each with a value of its
// type.
#[tactic(auto, unfolding(crate::specs::Description::selection_keys))]
fn has_selection(value: &Value) -> bool
    ensures { result ≡ has_all selection_keys (view value.now) }
{
    has_whole(value, "q_rx")
        && has_whole_or_null(value, "q_offset")
        && has_whole_or_null(value, "p_max")
        && has_whole(value, "band")
}

// Returns whether `value` has the keys of the schedule and systemInfoValueTag, each with a value of its type.
#[tactic(auto, unfolding(crate::specs::Description::schedule_keys))]
fn has_schedule(value: &Value) -> bool
    ensures { result ≡ has_all schedule_keys (view value.now) }
{
    has_messages(value, "scheduling") && has_whole(value, "window") && has_whole(value, "tag")
}

/// Returns whether `value` has the form of SystemInformationBlockType1: exactly its 14 keys, each with a value of its
/// type.
#[tactic(auto, using(crate::proofs::Tables::sib1_parts))]
pub(crate) fn is_sib1(value: &Value) -> bool
    ensures { result ≡ has_exactly sib1_keys (view value.now) }
{
    count_keys(value) == 14 && has_access(value) && has_selection(value) && has_schedule(value)
}

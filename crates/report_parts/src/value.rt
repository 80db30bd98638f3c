//! JSON values without floating-point numbers.

ghost use Rattle.std.specs.Prelude.{◌≡◌, IfOk, false, string_bytes};
ghost use Rattle.serde_json.specs.Data.{string, object};
ghost use Rattle.serde_json.specs.View.{view as view_of, members_view};
ghost use Rattle.serde_json.specs.Written.{compact_text, has_float, members_have_float};
ghost use Rattle.report_parts.specs.Fields.{natural as natural_of, integer as integer_of};
ghost use Rattle.report_parts.specs.Fields.{value_word as word_of, list_of};

use serde_json::Map;
use std::alloc::{AllocError, Global};

/// A JSON value without floating-point numbers. (own)
#[derive(Drop)]
pub struct Value {
    json: serde_json::Value,
    ghost no_float: { has_float (view_of json) ≡ false },
}

impl Value {
    /// Creates a natural number.
    pub fn natural(number: u64) -> Value
        ensures { view_of result.json ≡ natural_of number }
    {
        Value {
            json: serde_json::Value::from(number),
        }
    }

    /// Creates an integer.
    pub fn integer(integer: i64) -> Value
        ensures { view_of result.json ≡ integer_of integer }
    {
        Value {
            json: serde_json::Value::from(integer),
        }
    }

    /// Creates a string. Fails only if an allocation fails.
    pub fn word(alloc: Global, word: &str) -> Result<Value, AllocError>
        ensures { IfOk result (λ value. view_of value.json ≡ string word.now) }
    {
        let json = serde_json::Value::try_from_str(alloc, word)?;
        Ok(Value { json })
    }

    /// Creates an object with `members`, none of which may have a floating-point number.
    pub(crate) fn from_members(members: Map<String, serde_json::Value>) -> Value
        requires { members_have_float (members_view members.entries) ≡ false }
        ensures { view_of result.json ≡ object (members_view members.entries) }
    {
        Value {
            json: serde_json::Value::from(members),
        }
    }

    /// Creates an array. Fails only if an allocation fails.
    pub fn list(alloc: Global, items: Vec<Value>) -> Result<Value, AllocError>
        ensures { IfOk result (λ value. view_of value.json ≡ list_of (λ item. view_of item.json) items.items) }
    {
        let mut list = Vec::new(alloc);
        for item in items {
            list.push(item.json)?;
        }
        Ok(Value {
            json: serde_json::Value::from(list),
        })
    }

    /// Returns a copy of the JSON value. Fails only if an allocation fails.
    pub(crate) fn json(&self) -> Result<serde_json::Value, AllocError>
        ensures view { IfOk result (λ json. view_of json ≡ view_of self.now.json) }
        ensures no_float { IfOk result (λ json. has_float (view_of json) ≡ false) }
    {
        self.json.clone()
    }

    /// Returns the value in a line of text: a string as it is, any other value as its JSON. Fails only if an allocation
    /// fails.
    pub fn text(&self, alloc: Global) -> Result<String, AllocError>
        ensures { IfOk result (λ text. string_bytes text ≡ word_of (view_of self.now.json)) }
    {
        match self.json.as_str() {
            Some(word) => String::from_str(alloc, word),
            None => self.json.to_string(alloc),
        }
    }

    /// Returns the value's JSON, without spaces. Fails only if an allocation fails.
    pub fn to_json(&self, alloc: Global) -> Result<String, AllocError>
        ensures { IfOk result (λ text. string_bytes text ≡ compact_text (view_of self.now.json)) }
    {
        self.json.to_string(alloc)
    }
}

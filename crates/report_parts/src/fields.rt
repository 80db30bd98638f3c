//! Named values in reports, from which both a line of text and a JSON object are built.

ghost use Rattle.std.specs.Prelude.{◌≡◌, ◌++◌, IfOk, OnOk, codes, false, string_bytes};
ghost use Rattle.serde_json.specs.Data.{string};
ghost use Rattle.serde_json.specs.View.{members_view};
ghost use Rattle.serde_json.specs.Written.{members_have_float};
ghost use Rattle.report_parts.specs.Fields.{natural as natural_of, integer as integer_of};
ghost use Rattle.report_parts.specs.Fields.{put_fields as put_of, object_of, json_of_fields as json_of};
ghost use Rattle.report_parts.specs.Fields.{text_of_fields as text_of, line_of_fields as line_of};
ghost use Rattle.report_parts.specs.Fields.{field_part as part_of};
ghost use Rattle.report_parts.specs.Values.{data_of, named_of, fields_of};

use crate::value::Value;
use serde_json::{Map, put};
use std::alloc::{AllocError, Global};
use std::fmt::Write;

/// A value with its name in reports. (own)
#[derive(Drop)]
pub struct Field {
    name: &'static str,
    value: Value,
}

impl Field {
    /// Creates a field with `name` and `value`.
    pub fn new(name: &'static str, value: Value) -> Field
        ensures { named_of result ≡ (name.now, data_of value) }
    {
        Field { name, value }
    }

    /// Creates a field whose value is a natural number.
    pub fn natural(name: &'static str, number: u64) -> Field
        ensures { named_of result ≡ (name.now, natural_of number) }
    {
        Field::new(name, Value::natural(number))
    }

    /// Creates a field whose value is an integer.
    pub fn integer(name: &'static str, number: i64) -> Field
        ensures { named_of result ≡ (name.now, integer_of number) }
    {
        Field::new(name, Value::integer(number))
    }

    /// Creates a field whose value is a string. Fails only if an allocation fails.
    pub fn word(alloc: Global, name: &'static str, word: &str) -> Result<Field, AllocError>
        ensures { IfOk result (λ field. named_of field ≡ (name.now, string word.now)) }
    {
        let value = Value::word(alloc, word)?;
        Ok(Field::new(name, value))
    }
}

/// Returns the object with the value of each field under its name, in byte order of the names. Fails only if an
/// allocation fails. (own)
pub fn object(alloc: Global, fields: &[Field]) -> Result<Value, AllocError>
    ensures { IfOk result (λ value. data_of value ≡ object_of (fields_of fields.now)) }
{
    let mut members = Map::new(alloc);
    put_fields(alloc, fields, &mut members)?;
    Ok(Value::from_members(members))
}

// Adds the value of each field to `members`, under its name.
fn put_fields(
    alloc: Global,
    fields: &[Field],
    members: &mut Map<String, serde_json::Value>,
) -> Result<(), AllocError>
    ensures put { OnOk result (members_view members.new.entries
        ≡ put_of (fields_of fields.now) (members_view members.old.entries)) }
    ensures no_float { OnOk result (members_have_float (members_view members.old.entries) ≡ false →
        members_have_float (members_view members.new.entries) ≡ false) }
{
    for field in fields {
        let json = field.value.json()?;
        put(members, alloc, field.name, json)?;
    }
    Ok(())
}

/// Returns the JSON object of `fields` in one line, without spaces and without a line feed. Fails only if an allocation
/// fails. (own)
pub fn json_of_fields(alloc: Global, fields: &[Field]) -> Result<String, AllocError>
    ensures { IfOk result (λ text. string_bytes text ≡ json_of (fields_of fields.now)) }
{
    let value = object(alloc, fields)?;
    value.to_json(alloc)
}

/// Returns the line that begins with `head`, followed by each field's name and value, in order. Fails only if an
/// allocation fails. (own)
pub fn line_of_fields(alloc: Global, head: &str, fields: &[Field]) -> Result<String, AllocError>
    ensures { IfOk result (λ line. string_bytes line ≡ line_of head.now (fields_of fields.now)) }
{
    let mut line = String::from_str(alloc, head)?;
    add_fields(alloc, fields, &mut line)?;
    line.push_str("\n")?;
    Ok(line)
}

// Appends each field's name and value, in order.
fn add_fields(alloc: Global, fields: &[Field], line: &mut String) -> Result<(), AllocError>
    ensures { OnOk result (string_bytes line.new ≡ string_bytes line.old ++ text_of (fields_of fields.now)) }
{
    for field in fields {
        let part = field_part(alloc, field)?;
        line.push_str(&part)?;
    }
    Ok(())
}

// Returns a space, the field's name, a space and its value.
fn field_part(alloc: Global, field: &Field) -> Result<String, AllocError>
    ensures { IfOk result (λ part. string_bytes part ≡ part_of (named_of field.now)) }
{
    let value = field.value.text(alloc)?;
    after_name(alloc, field.name, &value)
}

fn after_name(alloc: Global, name: &str, value: &str) -> Result<String, AllocError>
    ensures { IfOk result (λ part. string_bytes part ≡ codes " " ++ name.now ++ codes " " ++ value.now) }
{
    format!(in alloc; " {name} {value}")
}

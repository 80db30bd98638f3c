//! Named numbers as members of an object.

ghost use Rattle.std.specs.Prelude.{◌≡◌, OnOk};
ghost use Rattle.serde_json.specs.View.{members_view};
ghost use Rattle.report_json.specs.Values.{put_each};

use report_parts::Named;
use serde_json::{Map, Value, put};
use std::alloc::{AllocError, Global};

/// Adds each of `numbers` to `members` under its name. Fails only if an allocation fails. (own)
pub(crate) fn put_numbers(
    alloc: Global,
    numbers: &[Named],
    members: &mut Map<String, Value>,
) -> Result<(), AllocError>
    ensures { OnOk result (members_view members.new.entries
        ≡ put_each numbers.now (members_view members.old.entries)) }
{
    for number in numbers {
        put(members, alloc, number.name(), Value::from(number.value()))?;
    }
    Ok(())
}

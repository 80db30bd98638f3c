//! The lines for the items of a list.

ghost use Rattle.std.specs.Prelude.{◌≡◌, ◌++◌, ℕ, List, IfOk, OnOk, string_bytes};
ghost use Rattle.std.specs.List.{flat_map};

use std::alloc::{AllocError, Global};

/// A type whose values have text in a report. (own)
pub(crate) trait ToLines {
    ghost lines_of: { Self → List ℕ };

    /// Returns the text of the value. Fails only if an allocation fails.
    fn to_lines(&self, alloc: Global) -> Result<String, AllocError>
        ensures { IfOk result (λ text. string_bytes text ≡ lines_of self.now) };
}

/// Appends the text of each of `items` to `text`. Fails only if an allocation fails. (own)
pub(crate) fn add_lines<T: ToLines>(
    alloc: Global,
    items: &[T],
    text: &mut String,
) -> Result<(), AllocError>
    ensures { OnOk result (string_bytes text.new ≡ string_bytes text.old ++ flat_map T.lines_of items.now) }
{
    for item in items {
        let lines = item.to_lines(alloc)?;
        text.push_str(&lines)?;
    }
    Ok(())
}

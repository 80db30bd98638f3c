//! The line for a synthetic recording.

ghost use Rattle.std.specs.Prelude.{◌≡◌, IfOk, string_bytes};
ghost use Rattle.report_text.specs.Lines.{made_line};

use std::alloc::{AllocError, Global};
use std::fmt::Write;

/// Returns a synthetic recording's line: the sent cell's identity, its first frame's start and number, and `held`, the
/// number of list entries that match it. Fails only if an allocation fails. (own)
pub fn line_of_made(
    alloc: Global,
    id: u16,
    start: u32,
    sfn: u16,
    held: usize,
) -> Result<String, AllocError>
    ensures { IfOk result (λ line. string_bytes line ≡ made_line id start sfn held) }
{
    format!(in alloc; "made {id} at {start} sfn {sfn} held {held}\n")
}

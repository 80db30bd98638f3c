//! DCI formats.

ghost use Rattle.std.specs.Prelude.{◌≡◌, ◌≤◌, IfOk, length};
ghost use Rattle.wide_control.specs.Control.{IsBounded};
ghost use Rattle.wide_control.specs.Format.{payload_size as payload_size_of, grant_in as grant_of};

use lte_types::Sfn;
use wide_cell::WideCell;
use wide_grant::{Refusal, WideGrant, grant_1a, grant_1c};

/// A DCI format that can grant SystemInformationBlockType1 (TS 36.212 section 5.3.3.1).
#[derive(Clone, Copy, Debug, PartialEq, Eq)]
pub enum DciFormat {
    /// Format 1A.
    Format1A,
    /// Format 1C.
    Format1C,
}

// Returns the grant in a payload of a format in frame `sfn`, or the reason to refuse the payload.
#[tactic(auto, unfolding(crate::specs::Format::payload_size, crate::specs::Format::grant_in))]
pub(crate) fn grant_in(
    cell: &WideCell,
    sfn: Sfn,
    format: DciFormat,
    bits: &[bool],
) -> Result<WideGrant, Refusal>
    requires { length bits.now ≡ payload_size_of cell.now.blocks format }
    ensures answer { result ≡ grant_of cell.now.blocks sfn format bits.now }
    ensures bounded { IfOk result IsBounded }
{
    match format {
        DciFormat::Format1A => grant_1a(cell, bits),
        DciFormat::Format1C => grant_1c(cell, sfn, bits),
    }
}

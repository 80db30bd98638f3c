//! The conditions that a cell description must meet.

ghost use Rattle.std.specs.Prelude.{◌≡◌, Some};
ghost use Rattle.cell_plan.specs.Words.{condition_word};

use std::fmt;
use thiserror::Error;

/// The first failed condition of a cell description, in the order in which the conditions are checked. An error is
/// printed as its name in lower case. (own)
#[derive(Clone, Copy, Debug, PartialEq, Eq, Error)]
pub enum CellError {
    /// The description is malformed: a key is missing or unknown, or has a value of another type.
    Form,
    /// The first frame number is above 1023.
    Sfn,
    /// The offset is above 19,199 samples.
    Offset,
    /// The sample count is not 57,600 to 1,920,000.
    Samples,
    /// The gains are not those of a clean recording: port 0's gain is 0, or the squared magnitudes add up to more than
    /// 784 divided by the port count.
    Gain,
    /// A field of SIB1 is out of range.
    Sib1Range,
    /// The identity is above 503.
    Identity,
    /// The spare bits are above 1023.
    Spare,
    /// The control format indicator is not 2 or 3.
    Cfi,
    /// `blocks` is 0, or `start` plus `blocks` is above 6.
    Assignment,
    /// `column` is not 2 or 3, or the table has no transport block size for `mcs` in this column (TS 36.213 section
    /// 7.1.7.2).
    Mcs,
    /// The resource blocks do not carry every coded bit, and either the cell has two antenna ports, or the carried bits
    /// do not resolve the transport block for each redundancy version (`erasure::fills`). A resource block carries 204
    /// bits with `cfi` 2 and 180 with `cfi` 3, or 192 and 168 with two antenna ports. A transport block of n bits and
    /// its CRC have 3 (n + 24) + 12 coded bits. A block can be resolved only in a plan without the next three errors.
    Punctured,
    /// SIB1 has a TDD-Config (TS 36.331 section 6.2.2), but cells are FDD.
    Duplex,
    /// SIB1 has an extension.
    Extension,
    /// The encoded SIB1 does not fit in the transport block.
    Sib1Long,
}

impl fmt::Display for CellError {
    ghost output = { λ cause. Some (condition_word cause) };

    fn fmt<W: fmt::Write>(&self, f: &mut fmt::Formatter<W>) -> fmt::Result {
        f.write_str(self.word())
    }
}

impl CellError {
    // Returns the name of the condition in lower case, as `refusal_text` prints it.
    fn word(&self) -> &'static str
        ensures { result.now ≡ condition_word self.now }
    {
        match self {
            CellError::Form => "form",
            CellError::Sfn => "sfn",
            CellError::Offset => "offset",
            CellError::Samples => "samples",
            CellError::Gain => "gain",
            CellError::Sib1Range => "sib1range",
            CellError::Identity => "identity",
            CellError::Spare => "spare",
            CellError::Cfi => "cfi",
            CellError::Assignment => "assignment",
            CellError::Mcs => "mcs",
            CellError::Punctured => "punctured",
            CellError::Duplex => "duplex",
            CellError::Extension => "extension",
            CellError::Sib1Long => "sib1long",
        }
    }
}

//! The errors for a description that cannot be read as an emission.

ghost use Rattle.std.specs.Prelude.{Some};
ghost use Rattle.cell_json.specs.Words.{error_text};

use cell_plan::CellError;
use std::fmt;
use thiserror::Error;

/// The error for a description that cannot be read as an emission. (own)
#[derive(Clone, Copy, Debug, PartialEq, Eq, Error)]
pub enum JsonError {
    /// The first condition, in the crate's order, that the description fails.
    Cell(CellError),
    /// An allocation failed.
    OutOfMemory,
}

impl fmt::Display for JsonError {
    ghost output = { λ error. Some (error_text error) };

    fn fmt<W: fmt::Write>(&self, f: &mut fmt::Formatter<W>) -> fmt::Result {
        match self {
            JsonError::Cell(cause) => write!(f, "bad cell: {cause}"),
            JsonError::OutOfMemory => f.write_str("out of memory"),
        }
    }
}

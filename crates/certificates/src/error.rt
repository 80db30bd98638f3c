//! The reasons why the certificates in a source could not all be checked.

ghost use Rattle.std.specs.Prelude.{◌≡◌, Some};
ghost use Rattle.certificates.specs.Words.{error_text};
ghost use Rattle.certificates.specs.declared.error.StreamError.TheVariants.{OutOfMemory};

use std::alloc::AllocError;
use std::fmt;
use thiserror::Error;

/// The reason why the certificates in a source could not all be checked. (own)
#[derive(Clone, Copy, Debug, PartialEq, Eq, Error)]
pub enum StreamError {
    /// A certificate's format is broken at this byte offset in the input, counted from 0. If the input ends within a
    /// certificate, the offset is the input's length.
    Broken(u64),
    /// The input is longer than 67,108,864 bytes, and none of the first 67,108,864 breaks the format.
    TooLong,
    /// Reading from the source failed before any byte that breaks the format was read.
    ReadFault,
    /// An allocation failed.
    OutOfMemory,
}

impl From<AllocError> for StreamError {
    ghost from_gives = { λ _ error. error ≡ OutOfMemory };

    fn from(_error: AllocError) -> StreamError {
        StreamError::OutOfMemory
    }
}

impl fmt::Display for StreamError {
    ghost output = { λ error. Some (error_text error) };

    fn fmt<W: fmt::Write>(&self, f: &mut fmt::Formatter<W>) -> fmt::Result {
        match self {
            StreamError::Broken(place) => write!(f, "bad certificate at byte {place}"),
            StreamError::TooLong => f.write_str("too long"),
            StreamError::ReadFault => f.write_str("read fault"),
            StreamError::OutOfMemory => f.write_str("out of memory"),
        }
    }
}

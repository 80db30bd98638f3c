//! The published order of variants, which callers see if they cast with `as`. Enums with data (`Status`, `Sib1Reason`,
//! `Mnc`, `JsonError`) have no visible order.

ghost use Rattle.std.specs.Prelude.{◌≡◌, [], ◌∷◌};

use cell_plan::CellError;
use lte_types::{Bandwidth, Duration, Half, Resource};
use sample_file::FileError;

/// Returns `Half`'s discriminants in published order.
pub fn halves() -> [u8; 2]
    ensures { result ≡ 0 ∷ 1 ∷ [] }
{
    [Half::Zero as u8, Half::Five as u8]
}

/// Returns `Bandwidth`'s discriminants in published order.
pub fn bandwidths() -> [u8; 6]
    ensures { result ≡ 0 ∷ 1 ∷ 2 ∷ 3 ∷ 4 ∷ 5 ∷ [] }
{
    [
        Bandwidth::N6 as u8,
        Bandwidth::N15 as u8,
        Bandwidth::N25 as u8,
        Bandwidth::N50 as u8,
        Bandwidth::N75 as u8,
        Bandwidth::N100 as u8,
    ]
}

/// Returns `Duration`'s discriminants in published order.
pub fn durations() -> [u8; 2]
    ensures { result ≡ 0 ∷ 1 ∷ [] }
{
    [Duration::Normal as u8, Duration::Extended as u8]
}

/// Returns `Resource`'s discriminants in published order.
pub fn resources() -> [u8; 4]
    ensures { result ≡ 0 ∷ 1 ∷ 2 ∷ 3 ∷ [] }
{
    [
        Resource::OneSixth as u8,
        Resource::Half as u8,
        Resource::One as u8,
        Resource::Two as u8,
    ]
}

/// Returns `FileError`'s discriminants in published order.
pub fn file_errors() -> [u8; 5]
    ensures { result ≡ 0 ∷ 1 ∷ 2 ∷ 3 ∷ 4 ∷ [] }
{
    [
        FileError::Ragged as u8,
        FileError::TooShort as u8,
        FileError::TooLong as u8,
        FileError::ReadFault as u8,
        FileError::OutOfMemory as u8,
    ]
}

/// Returns `CellError`'s discriminants in published order, which is the order in which the conditions are
/// checked.
pub fn cell_errors() -> [u8; 15]
    ensures { result ≡ 0 ∷ 1 ∷ 2 ∷ 3 ∷ 4 ∷ 5 ∷ 6 ∷ 7 ∷ 8 ∷ 9 ∷ 10 ∷ 11 ∷ 12 ∷ 13 ∷ 14 ∷ [] }
{
    [
        CellError::Form as u8,
        CellError::Sfn as u8,
        CellError::Offset as u8,
        CellError::Samples as u8,
        CellError::Gain as u8,
        CellError::Sib1Range as u8,
        CellError::Identity as u8,
        CellError::Spare as u8,
        CellError::Cfi as u8,
        CellError::Assignment as u8,
        CellError::Mcs as u8,
        CellError::Punctured as u8,
        CellError::Duplex as u8,
        CellError::Extension as u8,
        CellError::Sib1Long as u8,
    ]
}

//! The turbo code's row for a transport block.

ghost use Rattle.std.specs.Prelude.{◌≡◌, ◌+◌, IfSome};
ghost use Rattle.turbo_code.specs.Table.{IsAnyRow};
ghost use Rattle.wide_block.specs.Sums.{row_for as row_for_size};

use turbo_code::{Row, further_row_of, row_of};

/// Returns the row of either table for a transport block of `size` bits and its CRC, or `None` if neither has one.
pub(crate) fn row_for(size: u16) -> Option<Row>
    ensures value { result ≡ row_for_size size }
    ensures valid { IfSome result IsAnyRow }
{
    match row_of(size) {
        Some(row) => Some(row),
        None => further_row_of(size),
    }
}

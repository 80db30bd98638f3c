//! Recording rates.

ghost use Rattle.std.specs.Prelude.{◌≡◌, ◌≤◌};
ghost use Rattle.wide_cell.specs.Cell.{points as points_at, fits_rate as fits_rate_at};

use crate::WideCell;

/// Returns the length of a symbol's useful part, 128 to 2,048 samples, at 2^`rate` times 1.92 million samples per
/// second. `rate` is at most 4. (own)
pub fn points(rate: u8) -> usize
    requires { rate ≤ 4 }
    ensures value { result ≡ points_at rate }
    ensures bounds { (128 ≤ result) × (result ≤ 2048) }
{
    128 << rate
}

/// Returns whether a recording at 2^`rate` times 1.92 million samples per second contains all subcarriers of the cell.
/// `rate` is at most 4. (own)
pub fn fits_rate(cell: &WideCell, rate: u8) -> bool
    requires { rate ≤ 4 }
    ensures { result ≡ fits_rate_at cell.now.blocks rate }
{
    (cell.subcarriers() as usize) < points(rate)
}

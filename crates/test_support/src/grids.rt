//! Grids of 72 subcarriers. A string of digits gives a symbol: a digit is 2 for a negative real part, plus 1 for a
//! negative imaginary part. Any other character is an empty resource element.

ghost use Rattle.std.specs.Prelude.{ℕ, ◌≤◌, ◌≡◌, All};
ghost use Rattle.cs_num.specs.Complex.{IsWithin};

use cs_num::{Cpx, clamp_div};
use lte_types::Half;
use sync_seq::{pss, sss};

/// Symbols 0 to 4 of a slot, subcarrier by subcarrier.
pub type Rows = [&'static [u8; 72]; 5];

/// An empty symbol.
pub const EMPTY: &[u8; 72] =
    b"........................................................................";

/// Symbols 0 to 4 of slot 1 for identity 0, from the reference implementation: bandwidth n50, PHICH duration normal and
/// resource one, upper frame number bits 0, spare bits 0, one antenna port, phase 0.
pub const WIDE: Rows = [
    b"321.22230.20323.23211.31000.11321.11110.03230.33021.11103.21202.21130.33",
    b".02.03.31.20.13.22.31.02.32.01.13.02.02.11.01.13.11.22.10.12.23.32.21.30",
    b"111313100331221332010132013322213222112220011211303301332003202213012031",
    b"231230121011012021222231221202100100000120233032121320210002020020330313",
    b"...0.....3.....3.....3.....2.....2.....0.....1.....3.....3.....0.....0..",
];

/// Returns the QPSK constellation point for `digit`, or 0 for any other character.
pub fn point_of(digit: u8) -> Cpx
    ensures { IsWithin 90 result }
{
    match digit {
        b'0' => Cpx { re: 90, im: 90 },
        b'1' => Cpx { re: 90, im: -90 },
        b'2' => Cpx { re: -90, im: 90 },
        b'3' => Cpx { re: -90, im: -90 },
        _ => Cpx::ZERO,
    }
}

/// Returns `value` on every subcarrier.
pub fn level(value: Cpx) -> [Cpx; 72]
    ensures { (n : ℕ) → IsWithin n value → All (IsWithin n) result }
{
    [value; 72]
}

/// Returns the grid for a string of digits.
pub fn grid_of(row: &[u8; 72]) -> [Cpx; 72]
    ensures { All (IsWithin 127) result }
{
    let mut grid = empty();
    for k in 0..72 {
        grid[k] = bounded(point_of(row[k]));
    }
    grid
}

/// Returns the PSS grid for N_ID(2) = `n2`.
pub fn primary_grid(n2: u8) -> [Cpx; 72]
    requires { n2 ≤ 2 }
    ensures { All (IsWithin 127) result }
{
    middle(&pss(n2))
}

/// Returns the SSS grid for identity 0 in subframe 0.
pub fn secondary_grid() -> [Cpx; 72]
    ensures { All (IsWithin 127) result }
{
    let signs = sss(0, 0, Half::Zero);
    let mut values = [Cpx::ZERO; 62];
    for n in 0..62 {
        values[n].re = if signs[n] > 0 { 127 } else { -127 };
    }
    middle(&values)
}

// Returns a grid with `values`, clamped to magnitude 127, on the middle 62 subcarriers.
fn middle(values: &[Cpx; 62]) -> [Cpx; 72]
    ensures { All (IsWithin 127) result }
{
    let mut grid = empty();
    for n in 0..62 {
        grid[n + 5] = bounded(values[n]);
    }
    grid
}

// Returns an empty grid.
fn empty() -> [Cpx; 72]
    ensures { All (IsWithin 127) result }
{
    level(bounded(Cpx::ZERO))
}

// Clamps both components to magnitude 127.
fn bounded(value: Cpx) -> Cpx
    ensures { IsWithin 127 result }
{
    Cpx {
        re: clamp_div(value.re, 1, 127) as i64,
        im: clamp_div(value.im, 1, 127) as i64,
    }
}

//! The interleaver matrix.

ghost use Rattle.std.specs.Prelude.{◌≡◌, ◌*◌, ◌<◌, ◌≤◌, slice_index_or};
ghost use Rattle.sub_block.specs.Matrix.{cell, columns};

use crate::Code;

/// The turbo code's column permutation (TS 36.212 table 5.1.4-1).
const COLUMNS: [usize; 32] = [
    0, 16, 8, 24, 4, 20, 12, 28, 2, 18, 10, 26, 6, 22, 14, 30, 1, 17, 9, 25, 5, 21, 13, 29, 3, 19,
    11, 27, 7, 23, 15, 31,
];

/// Returns the matrix column, 0 to 31, that is read after `c` other columns.
fn column_at(code: Code, c: usize) -> usize
    requires { c < 32 }
    ensures column { result ≡ slice_index_or (columns code) c 0 }
    ensures inside { result < 32 }
{
    match code {
        // The second half of the turbo code's columns comes first (table 5.1.4-2).
        Code::Convolutional => COLUMNS[(c + 16) % 32],
        Code::Turbo => COLUMNS[c],
    }
}

/// Returns the matrix cell that is read after `m` other cells; cells are numbered row by row. `rows` is at most 193,
/// enough for the largest code block. `m` and the result are below 32 `rows`.
pub fn cell_at(code: Code, rows: usize, m: usize) -> usize
    requires rows { rows ≤ 193 }
    requires inside { m < 32 * rows }
    ensures cell { result ≡ cell code rows m }
    ensures inside { result < 32 * rows }
{
    32 * (m % rows) + column_at(code, m / rows)
}

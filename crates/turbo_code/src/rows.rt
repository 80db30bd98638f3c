//! The table of block sizes and interleaver coefficients.

ghost use Rattle.std.specs.Prelude.{◌≡◌, ◌+◌, MatchOption};
ghost use Rattle.std.specs.List.{Contains};
ghost use Rattle.turbo_code.specs.declared.rows.Row.{Row};
ghost use Rattle.turbo_code.specs.Table.{IsFurtherRow, IsFurtherSize, IsRow, IsSize};

/// A row in a table: the block size K, which is the number of information bits, and the interleaver coefficients f1 and
/// f2.
#[derive(Clone, Copy, Debug, PartialEq, Eq, Drop)]
pub struct Row {
    pub k: u16,
    pub f1: u16,
    pub f2: u16,
}

macro_rules! table {
    ($(($k:literal, $f1:literal, $f2:literal)),*) => {
        [$(Row { k: $k, f1: $f1, f2: $f2 }),*]
    };
}

// K, f1 and f2 for the sizes in use (TS 36.212 table 5.1.3-3).
const ROWS: [Row; 31] = table![
    (56, 19, 42),
    (80, 11, 20),
    (96, 11, 24),
    (112, 41, 84),
    (128, 15, 32),
    (144, 17, 108),
    (168, 101, 84),
    (200, 13, 50),
    (232, 85, 58),
    (248, 33, 62),
    (280, 103, 210),
    (320, 21, 120),
    (352, 21, 44),
    (400, 151, 40),
    (416, 25, 52),
    (464, 247, 58),
    (480, 89, 180),
    (512, 31, 64),
    (528, 17, 66),
    (576, 65, 96),
    (608, 37, 76),
    (624, 41, 234),
    (656, 185, 82),
    (704, 155, 44),
    (720, 79, 120),
    (768, 217, 48),
    (800, 17, 80),
    (864, 17, 48),
    (928, 15, 58),
    (992, 65, 124),
    (1024, 31, 64)
];

// K, f1 and f2 for the sizes that format 1C adds (TS 36.212 table 5.1.3-3).
const FURTHER_ROWS: [Row; 4] = table![(64, 7, 16), (160, 21, 120), (304, 37, 76), (360, 133, 90)];

// Returns the row for a transport block of `size` bits and its CRC24A, or `None` if `rows` has none.
fn row_in(rows: &[Row], size: u16) -> Option<Row>
    ensures { MatchOption result ((r : Row) × Contains rows.now r × (r.k ≡ size + 24) → ⊥)
        (λ row. Contains rows.now row × (row.k ≡ size + 24)) }
{
    for row in rows {
        if row.k as u32 == size as u32 + 24 {
            return Some(*row);
        }
    }
    None
}

/// Returns the row in use for a transport block of `size` bits and its CRC24A, or `None` if no such row has K equal to
/// `size` plus 24.
pub fn row_of(size: u16) -> Option<Row>
    ensures { MatchOption result (IsSize (size + 24) → ⊥) (λ row. IsRow row × (row.k ≡ size + 24)) }
{
    row_in(&ROWS, size)
}

/// Returns the further row for a transport block of `size` bits, 40, 136, 280 or 336, and its CRC24A (TS 36.213 table
/// 7.1.7.2.3-1). For any other `size`, returns `None`.
pub fn further_row_of(size: u16) -> Option<Row>
    ensures { MatchOption result (IsFurtherSize (size + 24) → ⊥) (λ row. IsFurtherRow row × (row.k ≡ size + 24)) }
{
    row_in(&FURTHER_ROWS, size)
}

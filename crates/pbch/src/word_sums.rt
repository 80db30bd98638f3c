//! The combined soft values from which a 40-bit word is decoded.

ghost use Rattle.std.specs.Prelude.{◌≡◌, List, ℤ, length};
ghost use Rattle.finite.specs.Sizes.{AllWithin, RowsWithin};

use std::marker::Model;

// The combined soft values at one index of the word, one per stream, at most 2,032 in magnitude. Contracts see them as
// a list.
#[derive(Clone, Copy)]
struct SumRow {
    sums: [i16; 3],
}

impl Model for SumRow {
    ghost Value = { List ℤ };

    ghost view = { λ r. r.sums };

    ghost invariant = { λ r. AllWithin 2032 r.sums };

    ghost inverse = { λ sums. record { sums = sums } };
}

impl SumRow {
    fn new(place: &[i32; 3]) -> SumRow
        requires { AllWithin 2032 place.now }
        ensures { result ≡ place.now }
    {
        SumRow {
            sums: [place[0] as i16, place[1] as i16, place[2] as i16],
        }
    }

    fn values(&self) -> [i32; 3]
        ensures values { result ≡ self.now }
        ensures magnitudes { AllWithin 2032 result }
    {
        [
            self.sums[0] as i32,
            self.sums[1] as i32,
            self.sums[2] as i32,
        ]
    }
}

/// The combined soft values from which a 40-bit word is decoded: three per index, one for each stream, at most 2,032 in
/// magnitude. Contracts see them as a list of lists. (own)
#[derive(Clone, Copy)]
pub struct WordSums {
    rows: [SumRow; 40],
}

impl Model for WordSums {
    ghost Value = { List (List ℤ) };

    ghost view = { λ s. s.rows };

    ghost invariant = { λ s. length s.rows ≡ 40 };

    ghost inverse = { λ rows. record { rows = rows } };
}

impl WordSums {
    /// Returns the combined soft values in `rows`, by index and stream. Their magnitude is at most 2,032.
    pub fn new(rows: &[[i32; 3]; 40]) -> WordSums
        requires { RowsWithin 2032 rows.now }
        ensures { result ≡ rows.now }
    {
        let mut kept = [SumRow { sums: [0; 3] }; 40];
        for k in 0..40 {
            kept[k] = SumRow::new(&rows[k]);
        }
        WordSums { rows: kept }
    }

    /// Returns the combined soft values by index and stream. Their magnitude is at most 2,032.
    pub fn rows(&self) -> [[i32; 3]; 40]
        ensures rows { result ≡ self.now }
        ensures magnitudes { RowsWithin 2032 result }
    {
        let mut rows = [[0; 3]; 40];
        for k in 0..40 {
            rows[k] = self.rows[k].values();
        }
        rows
    }
}

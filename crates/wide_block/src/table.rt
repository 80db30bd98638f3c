//! Tables of sums by coded bit.

ghost use Rattle.std.specs.Prelude.{◌≡◌, ℕ, ◌+◌, ◌^◌, ◌≤◌, ◌+ℤ◌, All, nat_abs, pos, slice_index_or};
ghost use Rattle.finite.specs.Lists.{values_below};
ghost use Rattle.finite.specs.Sizes.{AllWithin, RowsWithin};
ghost use Rattle.cs_num.specs.Rounding.{clamped};
ghost use Rattle.turbo_dec.specs.Decoder.{IsSmall};
ghost use Rattle.wide_block.specs.Sums.{plus as plus_of, limited as limited_of};

/// One sum for each index in each of the three streams, as in `turbo_code::Combined`.
pub(crate) type Table = [[i32; 1028]; 3];

/// Returns the sums of two tables, which have magnitudes up to 2^20.
pub(crate) fn plus(a: &Table, b: &Table) -> Table
    requires a { RowsWithin (2 ^ 20) a.now }
    requires b { RowsWithin (2 ^ 20) b.now }
    ensures value { result ≡ plus_of a.now b.now }
    ensures magnitudes { (m n : ℕ) → RowsWithin m a.now → RowsWithin n b.now → RowsWithin (m + n) result }
{
    [
        row_sums(&a[0], &b[0]),
        row_sums(&a[1], &b[1]),
        row_sums(&a[2], &b[2]),
    ]
}

// Returns the sums of two rows.
fn row_sums(a: &[i32; 1028], b: &[i32; 1028]) -> [i32; 1028]
    requires a { AllWithin (2 ^ 20) a.now }
    requires b { AllWithin (2 ^ 20) b.now }
    ensures { result ≡ values_below 1028 (λ i. slice_index_or a.now i (pos 0) +ℤ slice_index_or b.now i (pos 0)) }
{
    let mut sums = [0; 1028];
    for i in 0..1028 {
        sums[i] = sum_of(&a[i], &b[i]);
    }
    sums
}

// Returns the sum of two numbers.
fn sum_of(a: &i32, b: &i32) -> i32
    requires a { nat_abs a.now ≤ 2 ^ 20 }
    requires b { nat_abs b.now ≤ 2 ^ 20 }
    ensures value { result ≡ a.now +ℤ b.now }
    ensures magnitude { nat_abs result ≤ 2 ^ 21 }
{
    a + b
}

/// Returns a table, clamped to -4,096 to 4,096.
pub(crate) fn limited(sums: &Table) -> Table
    ensures value { result ≡ limited_of sums.now }
    ensures small { All (All IsSmall) result }
{
    [
        limited_row(&sums[0]),
        limited_row(&sums[1]),
        limited_row(&sums[2]),
    ]
}

// Returns a row, clamped to -4,096 to 4,096.
fn limited_row(row: &[i32; 1028]) -> [i32; 1028]
    ensures value { result ≡ values_below 1028 (λ i. clamped (slice_index_or row.now i (pos 0)) 4096) }
    ensures small { All IsSmall result }
{
    let mut sums = [0; 1028];
    for i in 0..1028 {
        sums[i] = limited_value(&row[i]);
    }
    sums
}

// Returns a number, clamped to -4,096 to 4,096.
fn limited_value(sum: &i32) -> i32
    ensures value { result ≡ clamped sum.now 4096 }
    ensures small { IsSmall result }
{
    (*sum).clamp(-4096, 4096)
}

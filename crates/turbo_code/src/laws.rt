//! Laws of the interleaver and of rate matching.

ghost use Rattle.turbo_code.specs.Laws.{ReadingIsWhole, RowsPermute};

/// A law: for each row of either table, the interleaver permutes the indices 0 to K - 1.
pub fn rows_permute()
    ensures { RowsPermute }
{}

/// A law: for each K in either table and each redundancy version, one round of the circular buffer, without its NULL
/// bits, contains each of the 3(K + 4) coded bits once.
pub fn reading_is_whole()
    ensures { ReadingIsWhole }
{}

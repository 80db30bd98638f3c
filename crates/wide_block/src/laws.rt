//! Laws of transport blocks and their answers.

ghost use Rattle.wide_block.specs.Laws.{RowsAreFound, LargeIsOver1000, IsOneAnswer, IsSomeAnswer, IsOneSaying, IsSomeSaying, IsReadValid};

/// A law: a transport block has at most one row in the turbo code's tables. A grant's block has none, and is too large,
/// exactly if it has more than 1,000 bits.
pub fn blocks_have_rows()
    ensures rows { RowsAreFound }
    ensures large { LargeIsOver1000 }
{}

/// A law: any sums with a size have exactly one answer, as has any offer, and decoded fields are within their ranges.
pub fn one_answer()
    ensures answer { IsOneAnswer }
    ensures some_answer { IsSomeAnswer }
    ensures saying { IsOneSaying }
    ensures some_saying { IsSomeSaying }
    ensures valid { IsReadValid }
{}

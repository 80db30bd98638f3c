//! Laws of the attempts to read system information.

ghost use Rattle.sib1_reader.specs.Laws.{IsOneAttempt, IsOneAnswer, IsSomeAttempt, IsSomeAnswer, IsReadValid};

/// A law: for the soft values of any subframe, there are exactly one attempt and one answer, and fields that are read
/// are within their ranges.
pub fn one_answer()
    ensures attempt { IsOneAttempt }
    ensures answer { IsOneAnswer }
    ensures some_attempt { IsSomeAttempt }
    ensures some_answer { IsSomeAnswer }
    ensures valid { IsReadValid }
{}

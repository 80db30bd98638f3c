//! Laws of the code's minimum distance, and of the words that soft values determine.

ghost use Rattle.code_distance.specs.Distance.{IsFifteenApart, OthersCostMore, OutweighingIsLeast, OutweighingIsClear};

/// A law: two different words of equal length, at least 22 bits, differ in at least 15 coded bits.
pub fn least_distance()
    ensures { IsFifteenApart }
{}

/// A law: if soft values fall short of some level by less than 15 times this level in all, every other word costs more,
/// and the word costs at most a quarter of the sum of the magnitudes.
pub fn balance()
    ensures more { OthersCostMore }
    ensures least { OutweighingIsLeast }
    ensures clear { OutweighingIsClear }
{}

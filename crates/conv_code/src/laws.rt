//! Laws on the code and rate matching.

ghost use Rattle.conv_code.specs.Laws.{IsOneToOne, IsPermuting};

/// A law: different words of equal length, at least 6, have different codewords.
pub fn codewords_determine_words()
    ensures { IsOneToOne }
{}

/// A law: for N from 6 to 64, the first 3N rate-matched bits are all 3N coded bits, each once.
pub fn reading_permutes()
    ensures { IsPermuting }
{}

//! The word that soft values determine if each has its coded bit's sign.
//!
//! The sums of the soft values by coded bit have the bits' signs. The sent word costs 0, and every other word of the
//! same length costs more.

ghost use Rattle.clean_air.specs.Words.{FourSpeakTogether, DescramblingKeeps, SumsSpeakByReading, SumsSpeakFrom};
ghost use Rattle.clean_air.specs.Words.{SumsSpeak, SpokenWordIsOnly};

/// A law: the sent word is the only one of minimum cost if each soft value has its coded bit's sign, and there are at
/// least as many values as coded bits, read cyclically from any bit.
pub fn spoken_word_is_the_least()
    ensures together { FourSpeakTogether }
    ensures descrambled { DescramblingKeeps }
    ensures reading { SumsSpeakByReading }
    ensures from { SumsSpeakFrom }
    ensures sums { SumsSpeak }
    ensures only { SpokenWordIsOnly }
{}

//! Laws of the MIB from added frames.

ghost use Rattle.added_master.specs.Laws.{OnlyOneDecoded, OnlyOneMaster};
ghost use Rattle.added_master.specs.Laws.{CoincidencesAreCounted, CoincidencesAreFew, CoincidencesAreRare};

/// A law: added sums decode to at most one MIB with a port count and a phase, and a position has only one answer.
pub fn one_answer()
    ensures decoded { OnlyOneDecoded }
    ensures chosen { OnlyOneMaster }
{}

/// A law: 1,313,204,944,144,981,392,715 of the 2^120 patterns of signs match those of a codeword in at least 102
/// positions, and not more match those of any sums; 150,994,944 times this number is at most one 6,700,000th of 2^120.
pub fn coincidences_are_rare()
    ensures counted { CoincidencesAreCounted }
    ensures few { CoincidencesAreFew }
    ensures rare { CoincidencesAreRare }
{}

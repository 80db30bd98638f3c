//! Laws on the samples of transmitted cells.
//!
//! If no sample of a sequence exceeds magnitude 1,153, the samples of a recording fit 16 bits. For one sequence with
//! errors, components have magnitudes up to 32,340 (`sent_is_clean`). For two sequences, they are at most 32,284
//! without errors, and 32,293 with errors (`sum_is_clean`). An emission has components up to 32,284 without errors.

ghost use Rattle.cell_tx.specs.Laws.{UsefulPartsStand, PrefixesRepeat, FramesFollow, FramesBeginAtStart};
ghost use Rattle.cell_tx.specs.Laws.{ElementsAreWithin, ElementsAreSmall};
ghost use Rattle.cell_tx.specs.Laws.{SmallElementsMakeSmallSamples, SamplesAreSmall};
ghost use Rattle.cell_tx.specs.Laws.{ReceivedWithErrorsIsClean, ReceivedWithErrorsFits, ReceivedIsClean};
ghost use Rattle.cell_tx.specs.Laws.{ReceivedOfTwoIsClean, ReceivedOfTwoIsSmall, ReceivedOfTwoFits};
ghost use Rattle.cell_tx.specs.Laws.{EmittedIsClean, EmittedIsSmall};

/// A law: useful parts and cyclic prefixes have their positions in a frame, for any resource elements (TS 36.211
/// section 6.12).
pub fn symbols_stand()
    ensures useful { UsefulPartsStand }
    ensures prefix { PrefixesRepeat }
{}

/// A law: frames follow each other in a sequence, and in a recording that begins inside a frame, the first whole frame
/// begins at the start sample. This holds for any resource elements.
pub fn frames_stand()
    ensures follow { FramesFollow }
    ensures begin { FramesBeginAtStart }
{}

/// A law: at any port, with or without load, resource elements have magnitudes up to 128, and samples have magnitudes
/// up to 1,153. (own amplitudes)
pub fn sizes()
    ensures within { ElementsAreWithin }
    ensures elements { ElementsAreSmall }
    ensures any { SmallElementsMakeSmallSamples }
    ensures samples { SamplesAreSmall }
{}

/// A law: a sequence times a gain, plus errors up to twice the gain's magnitude, is a clean recording. The recording
/// fits 16 bits if no sample of the sequence exceeds magnitude 1,153.
pub fn sent_is_clean()
    ensures errors { ReceivedWithErrorsIsClean }
    ensures fits { ReceivedWithErrorsFits }
    ensures exact { ReceivedIsClean }
{}

/// A law: two sequences times their gains, plus errors that the gains allow, are a clean recording; so is an emission.
/// The recording fits 16 bits if no sample of the sequences exceeds magnitude 1,153.
pub fn sum_is_clean()
    ensures errors { ReceivedOfTwoIsClean }
    ensures small { ReceivedOfTwoIsSmall }
    ensures fits { ReceivedOfTwoFits }
    ensures emitted { EmittedIsClean }
    ensures emitted_small { EmittedIsSmall }
{}

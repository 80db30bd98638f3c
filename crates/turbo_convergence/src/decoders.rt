//! The two constituent decoders and their iterations.
//!
//! An extrinsic value is nonzero if and only if every codeword with a 1 at its bit has a 1 at another bit that was sent
//! or is known; it then has the sent bit's sign. In each iteration, both decoders' extrinsic values are nonzero exactly
//! for the bits found so far, and the decoded word is the sent word with 0 at each bit that is not yet settled.

ghost use Rattle.turbo_convergence.specs.Laws.{ExtrinsicsSpeak, ExtrinsicsConvey, IterationsConvey};

/// A law: if each value and prior of a constituent decoder is 0 or has its bit's sign (above 0 for 0, below 0 for 1),
/// the same holds for each extrinsic value.
pub fn extrinsics_speak()
    ensures { ExtrinsicsSpeak }
{}

/// A law: an extrinsic value has the sign of its bit if the other bits that were sent or are known determine this bit,
/// and is 0 otherwise.
pub fn extrinsics_convey()
    ensures { ExtrinsicsConvey }
{}

/// A law: if the sums have the signs of the sent coded bits and are 0 elsewhere, after each iteration exactly the bits
/// found so far have extrinsic values other than 0, each with its bit's sign.
pub fn iterations_convey()
    ensures { IterationsConvey }
{}

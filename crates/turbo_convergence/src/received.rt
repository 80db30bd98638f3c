//! Decoding a block from received soft values, before summing by coded bit.
//!
//! The values are in the cyclic reading order of a redundancy version. With at least 3(K + 4) values every coded bit
//! was sent.

ghost use Rattle.turbo_convergence.specs.Laws.{PuncturedBlockIsDecoded, ReceivedSumsAllow, ReceivedSumsConvey};
ghost use Rattle.turbo_convergence.specs.Laws.{SentBlockIsDecoded, WholeSumsSpeak};

/// A law: if each received value is 0 or has the sign of its sent bit, the same holds for each sum. If no value is 0,
/// exactly the sums of sent bits are not 0.
pub fn received_sums_convey()
    ensures allow { ReceivedSumsAllow }
    ensures tell { ReceivedSumsConvey }
    ensures whole { WholeSumsSpeak }
{}

/// A law: the decoder returns a block with its CRC24A if each received value has the sign of its sent bit, and there
/// are at least 3(K + 4) values.
pub fn sent_block_is_decoded()
    ensures { SentBlockIsDecoded }
{}

/// A law: the decoder returns a block with its CRC24A from any number of values, each with the sign of its sent bit, if
/// the sent bits resolve the block.
pub fn punctured_block_is_decoded()
    ensures { PuncturedBlockIsDecoded }
{}

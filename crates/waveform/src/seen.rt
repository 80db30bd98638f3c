//! The deviation of a demodulated amplitude near a waveform.
//!
//! With one gain the demodulated value is 64 times the amplitude times the gain, and with several gains the sum over
//! the ports. The deviation is relative to the gains' root sum square, and the error energy to their summed squares:
//!
//! - one gain: less than 37 units of amplitude at 2,555 times the square, and less than 53 at 5,300 times;
//! - two gains: less than 23 units at 992 times the sum;
//! - four gains: little more than 14 units at 350 times the sum.
//!
//! The deviation has three causes: the leakage of the tables, at most 0.4 units of amplitude for each port, the
//! errors, and the rounding of the demodulated value.

ghost use Rattle.waveform.specs.WaveformLaws.{WaveformIsSeen};

/// A law: the amplitudes of a symbol are demodulated as their received sum, within bounds that follow from the ratio
/// between the error energy relative to the waveform and the gains' squares.
pub fn seen_waveform_is_near()
    ensures one_port { WaveformIsSeen 1 2555 2316 }
    ensures two_ports { WaveformIsSeen 2 992 1464 }
    ensures four_ports { WaveformIsSeen 4 350 900 }
    ensures signal { WaveformIsSeen 1 5300 3340 }
{}

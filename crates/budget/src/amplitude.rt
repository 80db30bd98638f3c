//! The deviation of a demodulated amplitude.
//!
//! With one gain, whose magnitude is at least 1 (2^14 in units of 2^-14), the demodulated value is close to 64 times
//! the gain times the amplitude. The deviation is less than 37 amplitude units if the error energy of the symbol's 128
//! samples is at most 1800 times the gain's square. It is at most 30 units at 1024 times the gain's square, as when
//! each sample component deviates by at most twice the gain's magnitude.
//!
//! With several gains, the demodulated value is close to 64 times the sum over the ports. Its deviation is relative to
//! the root of the gains' summed squares, and the error energy is relative to that sum:
//!
//! - two gains: less than 23 units at 400 times the sum, and 16 at 64 times;
//! - four gains: less than 14.1 units at 7 times the sum, and less than 14 at 4 times.
//!
//! The deviation has four causes, each with a bound: the leakage of the tables, the transmitted samples' rounding, the
//! received samples' errors, and the demodulated value's rounding. Leakage and the transmitted samples' rounding make
//! up the transmit error; each port adds its own transmit error times its gain.

ghost use Rattle.budget.specs.Budget.{SendingHasTwoCauses, LeakageIsSmall, RoundingSentIsSmall, SendingIsSmall};
ghost use Rattle.budget.specs.Budget.{SendingIsLinear, DeviationHasThreeCauses, DeviationHasFourCauses};
ghost use Rattle.budget.specs.Budget.{AmplitudeIsSeen, AmplitudeIsSeenInRecording};
ghost use Rattle.budget.specs.Budget.{AmplitudesAreSeen, AmplitudesAreSeenInRecording, UnitsAreSeen};

/// A law: a demodulated amplitude is 64 times the amplitude times the gain, within a bound that follows from the ratio
/// of the error energy to the gain's square; two or four ports' sum is within a similar bound.
pub fn seen_amplitude_is_near()
    ensures two_causes { SendingHasTwoCauses }
    ensures leakage { LeakageIsSmall }
    ensures rounding { RoundingSentIsSmall }
    ensures sending { SendingIsSmall }
    ensures linear { SendingIsLinear }
    ensures three_causes { DeviationHasThreeCauses }
    ensures four_causes { DeviationHasFourCauses }
    ensures one_gain { AmplitudeIsSeen 1800 2316 }
    ensures quiet_gain { AmplitudeIsSeen 1024 1920 }
    ensures two_gains { AmplitudesAreSeen 2 400 1464 }
    ensures four_gains { AmplitudesAreSeen 4 7 900 }
    ensures quiet_two { AmplitudesAreSeen 2 64 1024 }
    ensures quiet_four { AmplitudesAreSeen 4 4 872 }
    ensures recording { AmplitudeIsSeenInRecording 1800 2316 }
    ensures quiet_recording { AmplitudeIsSeenInRecording 1024 1920 }
    ensures recording_of_two { AmplitudesAreSeenInRecording 2 400 1464 }
    ensures recording_of_four { AmplitudesAreSeenInRecording 4 7 900 }
    ensures quiet_recording_of_two { AmplitudesAreSeenInRecording 2 64 1024 }
    ensures quiet_recording_of_four { AmplitudesAreSeenInRecording 4 4 872 }
    ensures by_units { UnitsAreSeen }
{}

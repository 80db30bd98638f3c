//! A symbol received over several paths.
//!
//! Later paths are up to 9 samples late. Within the cyclic prefix, each path shifts the useful part cyclically, which
//! rotates the demodulated value at each subcarrier, so several paths are a channel.
//!
//! A single later path is faint if its gain is at most 1/17 of the first path's for a delay of at most 7 samples, 1/19
//! for 8 and 1/21 for 9. Each of several paths uses a fraction of its limit, and the fractions add up to at most 1.
//! Each amplitude is then demodulated within 30 amplitude units if the error energy of a symbol's 128 samples is at
//! most 1024 times the first gain's square. This leaves room for soft values of magnitude 1. One gain is the case
//! without later paths.

ghost use Rattle.budget.specs.Paths.{PrefixTurnsRound, ArrivingIsReceived, OnePathIsReceivedOver};
ghost use Rattle.budget.specs.Paths.{TurnedPartIsSeen, TurnedSendingIsSmall, SendingOverIsSmall};
ghost use Rattle.budget.specs.Paths.{AmplitudeIsSeenOver, AmplitudeIsSeenOverInRecording};
ghost use Rattle.budget.specs.Paths.{PathsLeaveRoom, PathsAreThrough, PathsAreRead, SlotOverIsHeard};

/// A law: if later paths are faint, each amplitude is demodulated through the channel of the paths within a bound, and
/// the soft values of each resource element with two bits support the bits.
pub fn several_paths_are_a_channel()
    ensures prefix { PrefixTurnsRound }
    ensures arriving { ArrivingIsReceived }
    ensures one_path { OnePathIsReceivedOver }
    ensures turned { TurnedPartIsSeen }
    ensures turned_sending { TurnedSendingIsSmall }
    ensures sending { SendingOverIsSmall }
    ensures seen { AmplitudeIsSeenOver }
    ensures recording { AmplitudeIsSeenOverInRecording }
    ensures room { PathsLeaveRoom }
    ensures through { PathsAreThrough }
    ensures read { PathsAreRead }
    ensures heard { SlotOverIsHeard }
{}

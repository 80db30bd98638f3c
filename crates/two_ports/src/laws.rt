//! Laws on the soft values of transmit diversity pairs.
//!
//! Let P be the sum of both gains' squared magnitudes, at least 1; either port may be the stronger one. Both ports'
//! pilots and the pair's two resource elements are received with an error of at most 1464 / 64 amplitude units times
//! the root of P. In a recording it is enough that each symbol's error energy is at most 400 P (`recording`). If the
//! error is at most 16 amplitude units times the root of P (`quiet`), or the error energy at most 64 P
//! (`quiet_recording`), each soft value's magnitude is at least 16.

ghost use Rattle.clean_air.specs.HeardLaws.{FaithfulIsHeard};
ghost use Rattle.two_ports.specs.Entries.{two_ports_receiver};
ghost use Rattle.two_ports.specs.Received.{PairValuesSpeak, ReceivedPairSpeaks};
ghost use Rattle.two_ports.specs.Received.{QuietPairValuesSpeak, QuietReceivedPairSpeaks};

use crate::frames::TwoPorts;
use clean_air::CleanReader;

/// A law: a transmit diversity pair's four soft values have its bits' signs if the errors are within a stated bound (TS
/// 36.211 section 6.3.4.3).
pub fn pair_values_speak_for_the_sent_bits()
    ensures seen { PairValuesSpeak }
    ensures recording { ReceivedPairSpeaks }
    ensures quiet { QuietPairValuesSpeak }
    ensures quiet_recording { QuietReceivedPairSpeaks }
{}

/// A law: a cell with two antenna ports is detected, signal by signal (`IsHeardBy`, `clean_air/specs/Heard.antt`), if
/// the recording is faithful to the cell.
pub fn faithful_cells_are_heard()
    ensures { FaithfulIsHeard two_ports_receiver }
{
    TwoPorts::faithful_cells_are_heard();
}

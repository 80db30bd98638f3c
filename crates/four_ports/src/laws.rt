//! Laws on soft values with transmit diversity.
//!
//! Let P be the sum of all gains' squared magnitudes, at least 1. Each transmit diversity pair of ports has at least
//! three eighths of P. All four ports' pilots and the pair's two resource elements are received with an error of at
//! most 900 / 64 (about 14.1) amplitude units times the root of P. In a recording it is enough that each symbol's error
//! energy is at most 7 P (`recording`).

ghost use Rattle.clean_air.specs.HeardLaws.{FaithfulIsHeard};
ghost use Rattle.four_ports.specs.Entries.{four_ports_receiver};
ghost use Rattle.four_ports.specs.Received.{PairValuesSpeak, ReceivedPairSpeaks};

use crate::frames::FourPorts;
use clean_air::CleanReader;

/// A law: a transmit diversity pair's four soft values have its bits' signs if the errors are within a stated bound and
/// no pair of ports is weak (TS 36.211 section 6.3.4.3).
pub fn pair_values_speak_for_the_sent_bits()
    ensures seen { PairValuesSpeak }
    ensures recording { ReceivedPairSpeaks }
{}

/// A law: a cell with four antenna ports is detected, signal by signal (`IsHeardBy`, `clean_air/specs/Heard.antt`), if
/// the recording is faithful to the cell.
pub fn faithful_cells_are_heard()
    ensures { FaithfulIsHeard four_ports_receiver }
{
    FourPorts::faithful_cells_are_heard();
}

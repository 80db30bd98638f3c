//! Laws of reception near the waveform: which cells are heard.
//!
//! Whatever else the ports send, up to magnitude 256 per resource element, a cell is heard with one, two and four
//! antenna ports and with the extended cyclic prefix. A recording that is faithful to a cell, with errors relative to
//! rounded samples, is near its waveform.

ghost use Rattle.lte_types.specs.declared.carrier.Carrier.{Carrier};
ghost use Rattle.explain.specs.Receiver.{one_port_receiver};
ghost use Rattle.two_ports.specs.Entries.{two_ports_receiver};
ghost use Rattle.four_ports.specs.Entries.{four_ports_receiver};
ghost use Rattle.long_prefix.specs.Entries.{long_prefix_receiver};
ghost use Rattle.waveform.specs.WaveformLaws.{NearWaveformIsHeard, FaithfulIsNearWaveform};

/// A law: a cell is heard, part by part (`IsHeardBy`, `clean_air/specs/Heard.antt`), if the recording is near its
/// waveform.
pub fn cells_near_their_waveform_are_heard()
    ensures one_port { NearWaveformIsHeard one_port_receiver }
    ensures two_ports { NearWaveformIsHeard two_ports_receiver }
    ensures four_ports { NearWaveformIsHeard four_ports_receiver }
    ensures long_prefix { NearWaveformIsHeard long_prefix_receiver }
{}
/// A law: a recording that is faithful to a cell of any transmission scheme is near its waveform.
pub fn faithful_recordings_are_near()
    ensures { (carrier : Carrier) → FaithfulIsNearWaveform carrier }
{}

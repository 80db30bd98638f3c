//! The samples that a cell with two antenna ports transmits.

ghost use Rattle.std.specs.Prelude.{◌≡◌, ◌*◌, ◌<◌, ◌≤◌};
ghost use Rattle.cs_num.specs.Complex.{square, sample_of};
ghost use Rattle.two_tx.specs.Sent.{sent_at_port};

use crate::Cell2;
use cell_tx::{Port, port_sample};
use cs_num::Sample;
use lte_types::{Carrier, Sfn};

/// Returns sample `i` of the endless frame sequence that antenna port `port`, 0 or 1, sends from frame `sfn` (TS 36.211
/// sections 6.3.4.3 and 6.12, in integers). Its magnitude is at most 1,153.
pub fn sample(cell: &Cell2, port: u8, sfn: Sfn, i: u64) -> Sample
    requires { port < 2 }
    ensures value { result ≡ sample_of (sent_at_port port cell.now sfn i) }
    ensures magnitude { square (sent_at_port port cell.now sfn i) ≤ 1153 * 1153 }
{
    let port = Port {
        carrier: Carrier::TwoPorts,
        number: port,
    };
    port_sample(cell.cell(), port, sfn, i)
}

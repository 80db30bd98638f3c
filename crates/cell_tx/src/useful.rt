//! The useful parts of symbols, 128 samples each.

ghost use Rattle.std.specs.Prelude.{◌≡◌, ◌+◌, ◌*◌, ◌/◌, ◌%◌, ◌<◌};
ghost use Rattle.fold128.specs.Symbol.{useful_part};
ghost use Rattle.cell_grid.specs.Ports.{port_symbols};
ghost use Rattle.cell_grid.specs.Load.{sent_element};

use crate::Port;
use cell_grid::{Signals, grid_of};
use cs_num::Cpx;
use fold128::synth;
use lte_types::USEFUL_LENGTH;

// Returns the position in its subframe of symbol `symbol` of slot `slot`, 0 to 13.
fn symbol_of(port: Port, slot: u8, symbol: u8) -> u8
    requires { symbol < port_symbols port }
    ensures value { result ≡ port_symbols port * (slot % 2) + symbol }
    ensures fits { result < 2 * port_symbols port }
{
    if slot % 2 == 0 {
        symbol
    } else {
        port.carrier.prefix().symbols() as u8 + symbol
    }
}

/// Returns the useful part, 128 samples, of symbol `symbol` in slot `slot` of the frame.
pub(crate) fn useful_of(signals: &Signals, slot: u8, symbol: u8) -> [Cpx; USEFUL_LENGTH]
    requires slot { slot < 20 }
    requires symbol { symbol < port_symbols signals.now.port }
    ensures { result ≡ useful_part (sent_element signals.now.load signals.now.port signals.now.cell.now signals.now.sfn
        (slot / 2) (port_symbols signals.now.port * (slot % 2) + symbol)) }
{
    let grid = grid_of(signals, slot / 2, symbol_of(signals.port, slot, symbol));
    synth(&grid)
}

//! The channels' values at each resource element of a frame.

ghost use Rattle.std.specs.Prelude.{◌≡◌, ◌<◌, true};
ghost use Rattle.cell_grid.specs.Ports.{has_control};
ghost use Rattle.cell_grid.specs.Grid.{may_broadcast, broadcast_symbol, has_system_information};
ghost use Rattle.cell_grid.specs.Rows.{broadcast_if, indicator_if, control_if, shared_if, system_if, channel_if};
ghost use Rattle.lte_types.specs.Numerology.{subcarriers};

use crate::Port;
use crate::grid::Signals;
use crate::points::value_at;
use cs_num::Cpx;
use grid_map::Place;
use lte_types::Sfn;

// Returns whether a subframe carries system information: subframe 5 of even-numbered frames.
fn has_system_information(sfn: Sfn, subframe: u8) -> bool
    ensures { result ≡ has_system_information sfn subframe }
{
    subframe == 5 && sfn.value() % 2 == 0
}

// Returns whether a symbol lies in slot 1, which carries the PBCH.
fn may_broadcast(port: Port, subframe: u8, symbol: u8) -> bool
    requires subframe { subframe < 10 }
    requires symbol { symbol < 14 }
    ensures { result ≡ may_broadcast port subframe symbol }
{
    2 * subframe + symbol / port.symbols() == 1
}

// Returns the symbol index that the PBCH mapping uses: the symbol in the subframe or, with the extended cyclic prefix,
// in the slot.
fn broadcast_symbol(port: Port, symbol: u8) -> u8
    requires { symbol < 14 }
    ensures value { result ≡ broadcast_symbol port symbol }
    ensures small { result < 14 }
{
    if port.carrier.prefix().is_extended() {
        symbol % port.symbols()
    } else {
        symbol
    }
}

// Returns the PBCH value at resource element `here`, or `None` if the PBCH does not occupy it.
fn broadcast_at(signals: &Signals, subframe: u8, here: Place) -> Option<Cpx>
    requires subframe { subframe < 10 }
    requires symbol { here.symbol < 14 }
    requires k { here.k < subcarriers }
    ensures { result ≡ broadcast_if signals.now.port signals.now.cell.now signals.now.sfn subframe here.symbol here.k }
{
    if !may_broadcast(signals.port, subframe, here.symbol) {
        return None;
    }
    let symbol = broadcast_symbol(signals.port, here.symbol);
    value_at(
        signals.port,
        &signals.layout.broadcast,
        &signals.broadcast,
        Place { symbol, k: here.k },
    )
}

// Returns the PCFICH value at resource element `here`, or `None` if the PCFICH, which every subframe has, does not
// occupy it.
fn indicator_at(signals: &Signals, subframe: u8, here: Place) -> Option<Cpx>
    requires subframe { subframe < 10 }
    requires symbol { here.symbol < 14 }
    requires k { here.k < subcarriers }
    ensures { result ≡ indicator_if signals.now.port signals.now.cell.now subframe here.symbol here.k }
{
    let points = signals.layout.indicator_of(subframe);
    value_at(signals.port, &signals.layout.indicator, points, here)
}

// Returns the PDCCH value at resource element `here`, or `None` if the PDCCH does not occupy it, as outside subframe 5
// of even frames.
fn control_at(signals: &Signals, subframe: u8, here: Place) -> Option<Cpx>
    requires control { has_control signals.now.port ≡ true }
    requires symbol { here.symbol < 14 }
    requires k { here.k < subcarriers }
    ensures { result ≡ control_if signals.now.port signals.now.cell.now signals.now.sfn subframe here.symbol here.k }
{
    if !has_system_information(signals.sfn, subframe) {
        return None;
    }
    let points = &signals.carried.control;
    value_at(signals.port, &signals.layout.control, points, here)
}

// Returns the PDSCH value at resource element `here`, or `None` if the PDSCH does not occupy it, as outside subframe 5
// of even frames.
fn shared_at(signals: &Signals, subframe: u8, here: Place) -> Option<Cpx>
    requires control { has_control signals.now.port ≡ true }
    requires symbol { here.symbol < 14 }
    requires k { here.k < subcarriers }
    ensures { result ≡ shared_if signals.now.port signals.now.cell.now signals.now.sfn subframe here.symbol here.k }
{
    if !has_system_information(signals.sfn, subframe) {
        return None;
    }
    let points = &signals.carried.shared;
    value_at(signals.port, &signals.layout.shared, points, here)
}

// Returns the PCFICH, PDCCH or PDSCH value at resource element `here`, or `None` if none of these channels occupies it.
fn system_at(signals: &Signals, subframe: u8, here: Place) -> Option<Cpx>
    requires control { has_control signals.now.port ≡ true }
    requires subframe { subframe < 10 }
    requires symbol { here.symbol < 14 }
    requires k { here.k < subcarriers }
    ensures { result ≡ system_if signals.now.port signals.now.cell.now signals.now.sfn subframe here.symbol here.k }
{
    if let Some(value) = indicator_at(signals, subframe, here) {
        return Some(value);
    }
    if let Some(value) = control_at(signals, subframe, here) {
        return Some(value);
    }
    shared_at(signals, subframe, here)
}

/// Returns the value of the first channel that occupies resource element `here` (PBCH, PCFICH, PDCCH, PDSCH), or `None`
/// if no channel does.
pub(crate) fn channel_at(signals: &Signals, subframe: u8, here: Place) -> Option<Cpx>
    requires subframe { subframe < 10 }
    requires symbol { here.symbol < 14 }
    requires k { here.k < subcarriers }
    ensures { result ≡ channel_if signals.now.port signals.now.cell.now signals.now.sfn subframe here.symbol here.k }
{
    if let Some(value) = broadcast_at(signals, subframe, here) {
        return Some(value);
    }
    if signals.port.has_control() {
        system_at(signals, subframe, here)
    } else {
        None
    }
}

//! The pilot energy of a slot.

ghost use Rattle.std.specs.Prelude.{◌≡◌, ◌+◌, ◌*◌, ◌^◌, ◌<◌, ◌≤◌};
ghost use Rattle.cs_num.specs.Complex.{square};
ghost use Rattle.lte_types.specs.Carrier.{ports_of};
ghost use Rattle.soft_bits.specs.Layout.{IsLayout, laid_out};
ghost use Rattle.soft_bits.specs.Lines.{line_seen, line_energy, port_energy, ports_energy};
ghost use Rattle.soft_bits.specs.Kept.{slot_of};

use crate::Seen;
use crate::layout::{Layout, layout_of};
use crate::pilots::seen_of;

/// Returns a slot's pilot energy over all antenna ports: the sum of squared magnitudes at their reference elements,
/// with ports 2 and 3 counted twice. The energy is at most 24 * 2^51 per port.
pub fn energy_of(seen: &Seen) -> u64
    ensures value { result ≡ ports_energy seen.now.carrier (slot_of seen.now) }
    ensures few { result ≤ ports_of seen.now.carrier * (24 * 2 ^ 51) }
{
    let mut sum: u64 = 0;
    for port in 0..seen.carrier.ports() {
        sum += energy_of_port(seen, port);
    }
    sum
}

// Returns the pilot energy of `port`, scaled to 24 pilots: doubled if the port has 12.
fn energy_of_port(seen: &Seen, port: u8) -> u64
    requires { port < ports_of seen.now.carrier }
    ensures value { result ≡ port_energy seen.now.carrier (slot_of seen.now) port }
    ensures few { result ≤ 24 * 2 ^ 51 }
{
    let layout = layout_of(seen, port);
    u64::from(layout.step / 3) * energy_along(seen, &layout)
}

// Returns the sum of squared magnitudes of the values received at a layout's pilots.
fn energy_along(seen: &Seen, layout: &Layout) -> u64
    requires { IsLayout layout.now }
    ensures value { result ≡ line_energy (laid_out layout.now (slot_of seen.now)) (slot_of seen.now) }
    ensures few { result ≤ (layout.now.last + 1) * 2 ^ 51 }
{
    let mut sum: u64 = 0;
    for i in 0..layout.last + 1 {
        sum += energy_part(seen, layout, i);
    }
    sum
}

// Returns the squared magnitude of the value received at pilot `i`.
fn energy_part(seen: &Seen, layout: &Layout, i: u8) -> u64
    requires valid { IsLayout layout.now }
    requires i { i ≤ layout.now.last }
    ensures value { result ≡ square (line_seen (laid_out layout.now (slot_of seen.now)) (slot_of seen.now) i) }
    ensures small { result ≤ 2 ^ 51 }
{
    seen_of(seen, layout, i).norm() as u64
}

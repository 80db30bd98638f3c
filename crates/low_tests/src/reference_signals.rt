ghost use Rattle.std.specs.Prelude.{◌+◌, ◌*◌, ◌<◌, ◌≤◌};

use crs::{Pattern, c_init, first_of_upper, pattern_pilots, pilots, value_of_width};
use cs_num::Cpx;
use lte_types::{Carrier, CellId};
use std::process::Abort;
use test_support::point_of;

// Returns whether the reference signals are on every sixth subcarrier from `first`, with the constellation points of
// `digits`.
fn are_points(pilots: &[(u8, Cpx); 12], first: usize, digits: &[u8; 12]) -> bool
    requires { first < 6 }
{
    let mut all = true;
    for m in 0..12 {
        let (k, value) = pilots[m];
        all &= k as usize == first + 6 * m && value == point_of(digits[m]);
    }
    all
}

fn id_of(rt: &impl Abort, identity: u16) -> CellId {
    CellId::new(identity).expect(rt, "in range")
}

#[test]
fn pilots_of_port_0(rt: HostRuntime) {
    assert!(rt; are_points(&pilots(id_of(&rt, 0), 0, 0), 0, b"222012212331"));
    assert!(rt; are_points(&pilots(id_of(&rt, 0), 0, 4), 3, b"001022310301"));
    assert!(rt; are_points(&pilots(id_of(&rt, 5), 0, 0), 5, b"320130121201"));
    assert!(rt; are_points(&pilots(id_of(&rt, 5), 0, 4), 2, b"113333233210"));
    assert!(rt; are_points(&pilots(id_of(&rt, 503), 19, 4), 2, b"020111000113"));
}

// Returns whether the first reference signal of port 2 or 3 is at subcarrier `first`, and symbol 1 has the
// constellation points of `digits`.
fn are_upper(port: u8, id: CellId, slot: u8, first: u8, digits: &[u8; 12]) -> bool
    requires { slot < 20 }
{
    let values = pattern_pilots(Pattern::FIRST_PORT, id, slot, 1);
    first_of_upper(port, id, slot) == first
        && (0..12).all(|m: usize| values[m].1 == point_of(digits[m]))
}

#[test]
fn pilots_of_ports_2_and_3_change_places(rt: HostRuntime) {
    let (two, three) = (2, 3);
    let (first, last) = (id_of(&rt, 0), id_of(&rt, 503));
    assert!(rt; are_upper(two, first, 0, 0, b"012313232031"));
    assert!(rt; are_upper(two, first, 1, 3, b"311103223120"));
    assert!(rt; are_upper(three, first, 0, 3, b"012313232031"));
    assert!(rt; are_upper(three, last, 19, 5, b"132230211310"));
}

// Returns whether twelve reference signals from index `from`, in symbol 4 of slot 11 for cell 77 with `blocks` resource
// blocks, have the constellation points of `digits`.
fn are_wide(rt: &impl Abort, blocks: u8, from: u8, digits: &[u8; 12]) -> bool
    requires blocks { blocks ≤ 110 }
    requires from { from + 12 ≤ 2 * blocks }
{
    let mut bits = [false; 440];
    gold::fill(c_init(Pattern::FIRST_PORT, id_of(rt, 77), 11, 4), &mut bits);
    let mut all = true;
    for m in 0..12_u8 {
        all &= value_of_width(blocks, &bits, from + m) == point_of(digits[m as usize]);
    }
    all
}

// Expected values: TS 36.211 sections 6.10.1.1 and 7.2, computed independently.
#[test]
fn values_of_wide_carriers(rt: HostRuntime) {
    assert!(rt; are_wide(&rt, 15, 0, b"030031233332"));
    assert!(rt; are_wide(&rt, 50, 88, b"030131111010"));
    assert!(rt; are_wide(&rt, 100, 0, b"310311022313"));
    assert!(rt; are_wide(&rt, 100, 188, b"133322302230"));
    assert!(rt; are_wide(&rt, 110, 208, b"301132002213"));
}

#[test]
fn c_init_of_reference_signals(rt: HostRuntime) {
    assert!(rt; c_init(Pattern::FIRST_PORT, id_of(&rt, 503), 19, 6) == 151_582_703);
    assert!(rt; c_init(Pattern::LONG_PREFIX, id_of(&rt, 77), 11, 4) == 14_126_234);
    assert!(rt; c_init(Pattern::LONG_PREFIX, id_of(&rt, 0), 0, 0) == 8192);
}

#[test]
fn ports_of_carriers_have_patterns(rt: HostRuntime) {
    assert!(rt; Pattern::of(Carrier::OnePort, 0) == Pattern::FIRST_PORT);
    assert!(rt; Pattern::of(Carrier::TwoPorts, 0) == Pattern::FIRST_PORT);
    // TS 36.211 section 6.10.1: l is N_symb - 3 = 4, v is 3 in symbol 0, and N_CP is 1.
    let second = Pattern {
        later: 4,
        shift: 3,
        prefix: 1,
    };
    assert!(rt; Pattern::of(Carrier::TwoPorts, 1) == second);
    assert!(rt; Pattern::of(Carrier::LongPrefix, 0) == Pattern::LONG_PREFIX);
    assert!(rt; Pattern::of(Carrier::FourPorts, 0) == Pattern::FIRST_PORT);
    assert!(rt; Pattern::of(Carrier::FourPorts, 1) == second);
    // TS 36.211 section 6.10.1, extended cyclic prefix: l is 3, and N_CP is 0.
    let second_extended = Pattern {
        later: 3,
        shift: 3,
        prefix: 0,
    };
    assert!(rt; Pattern::of(Carrier::LongPrefix, 1) == second_extended);
}

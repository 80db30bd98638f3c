ghost use Rattle.std.specs.Prelude.{◌≡◌};

use crate::seen::slot_of;
use grid_map::quadruplets_carried;
use lte_types::{Bandwidth, CellId, Cfi, Duration, Mib, Resource};
use pdcch::{candidate, elements};
use soft_bits::Slot;
use std::process::Abort;
use test_support::Rows;

// Two instances of slot 10, whose first symbols carry the PDCCH. Both have the same control information.

// Identity 0, CFI 2, PHICH duration normal and resource one.
const PLAIN: Rows = [
    b"020.111.....120.31332.003.....213.02211.32021.111.....230.30033.33130.11",
    b"0313131123113130....2210320133112132....01203100101003121102100130013121",
    b"301301022230100232000121....233132021023302121030311....222101123011....",
    b"........................................................................",
    b"...3.....0.....1.....2.....1.....3.....3.....3.....2.....0.....2.....0..",
];

// Identity 503, CFI 3, PHICH duration extended and resource two.
const WIDE: Rows = [
    b".....113.32122.311.....233.33223.020.....311.01303.31133.110.....023.021",
    b"....................13122313001210200111....32233201....0013032321201303",
    b"132013130012........223230323221....................1000....13222012....",
    b"12011231213110221033............33313101020013022130....0100........1310",
    b"..2.....1.....3.....2.....0.....2.....0.....0.....2.....0.....1.....1...",
];

// The 288 coded bits of the control information, which are the same in both slots.
const CODED: &[u8; 288] =
    b"111011001110110001100011001110111000001011000101001000111000100000110000\
    001100010111100011001101011000111100000111011001110110001100011001110111\
    000001011000101001000111000100000110000001100010111100011001101011000111\
    100000111011001110110001100011001110111000001011000101001000111000100000";

pub(crate) fn mib_of(rt: &impl Abort, duration: Duration, resource: Resource) -> Mib {
    Mib::new(Bandwidth::N6, duration, resource, 0, 0).expect(rt, "in range")
}

pub(crate) fn cfi_of(rt: &impl Abort, value: u8) -> Cfi
    ensures { result ≡ value }
{
    Cfi::new(value).expect(rt, "in range")
}

// Returns the numbers of control channel elements for CFI 1, 2 and 3.
fn counts_of(rt: &impl Abort, identity: u16, mib: Mib) -> [u8; 3] {
    let id = CellId::new(identity).expect(rt, "in range");
    [1, 2, 3].map(|cfi| elements(id, cfi_of(rt, cfi), mib))
}

#[test]
fn counts_of_control_elements(rt: HostRuntime) {
    let plain = mib_of(&rt, Duration::Normal, Resource::OneSixth);
    let wide = mib_of(&rt, Duration::Extended, Resource::Two);
    assert!(rt; counts_of(&rt, 0, plain) == [2, 4, 6]);
    assert!(rt; counts_of(&rt, 503, wide) == [2, 4, 6]);
    quadruplets_carried();
}

// Returns whether the soft values are 67 for each coded 0 and -67 for each coded 1.
fn speaks_for(values: &[i16; 288], coded: &[u8; 288]) -> bool {
    values.iter().zip(coded).all(|(value, digit)| *value == if *digit == b'1' { -67 } else { 67 })
}

// Returns whether the PDCCH candidate in a slot has the coded bits `CODED`; `None` without a candidate.
fn is_coded(slot: &Slot, cfi: Cfi, mib: Mib) -> Option<bool>
    requires { slot.now.number ≡ 10 }
{
    candidate(slot, cfi, mib).map(|values| speaks_for(&values, CODED))
}

#[test]
fn the_candidate_has_the_coded_bits(rt: HostRuntime) {
    let plain = mib_of(&rt, Duration::Normal, Resource::One);
    let slot = slot_of(&rt, 0, 10, PLAIN);
    assert!(rt; is_coded(&slot, cfi_of(&rt, 2), plain) == Some(true));
    let wide = mib_of(&rt, Duration::Extended, Resource::Two);
    let slot = slot_of(&rt, 503, 10, WIDE);
    assert!(rt; is_coded(&slot, cfi_of(&rt, 3), wide) == Some(true));
    assert!(rt; is_coded(&slot, cfi_of(&rt, 3), plain) == Some(false));
}

#[test]
fn two_elements_are_no_candidate(rt: HostRuntime) {
    let mib = mib_of(&rt, Duration::Normal, Resource::OneSixth);
    assert!(rt; candidate(&slot_of(&rt, 0, 10, PLAIN), cfi_of(&rt, 1), mib).is_none());
}

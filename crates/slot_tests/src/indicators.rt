use crate::seen::slot_of;
use pcfich::{cfi, only_one_indicator};
use test_support::{EMPTY, Rows};

// Instances of slot 10, whose symbol 0 carries the PCFICH.

// CFI 1 for identity 77, with the real parts of three modulation symbols negated.
const DAMAGED_1: Rows = [
    b".....2.....312.002.....2.....203.300.....0.....300.002.....3.....113.313",
    EMPTY,
    EMPTY,
    EMPTY,
    b"..3.....0.....2.....0.....3.....3.....2.....2.....1.....2.....1.....0...",
];

// CFI 2 for identity 0.
const TWO: Rows = [
    b"020.111.....120.31332.003.....213.02211.32021.111.....230.30033.33130.11",
    EMPTY,
    EMPTY,
    EMPTY,
    b"...3.....0.....1.....2.....1.....3.....3.....3.....2.....0.....2.....0..",
];

// CFI 3 for identity 503.
const THREE: Rows = [
    b".....113.32122.311.....233.33223.020.....311.01303.31133.110.....023.021",
    EMPTY,
    EMPTY,
    EMPTY,
    b"..2.....1.....3.....2.....0.....2.....0.....0.....2.....0.....1.....1...",
];

// A silent slot.
const SILENCE: Rows = [EMPTY; 5];

#[test]
fn the_values_give_the_indicator(rt: HostRuntime) {
    for (identity, rows, indicator) in [(77, DAMAGED_1, 1), (0, TWO, 2), (503, THREE, 3)] {
        assert!(rt; cfi(&slot_of(&rt, identity, 10, rows)).value() == indicator);
    }
    only_one_indicator();
}

#[test]
fn a_silent_slot_gives_the_lowest(rt: HostRuntime) {
    assert!(rt; cfi(&slot_of(&rt, 0, 10, SILENCE)).value() == 1);
}

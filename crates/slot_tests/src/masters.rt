ghost use Rattle.std.specs.Prelude.{◌≡◌, ◌<◌};

use crate::seen::slot_of;
use lte_types::{Bandwidth, Duration, Resource};
use pbch::{Master, at_most_one_master, explain_slots, values};
use soft_bits::Slot;
use std::test::Fail;
use tailbite::Trellis;
use test_support::{EMPTY, Rows};

// Instances of slot 1, which carries the PBCH.

// The reserved bandwidth code 6, for identity 0 at phase 1.
const CODE_6: Rows = [
    b"321.00231.00320.11212.03002.23310.20130.00210.31022.33102.00200.01103.00",
    b".22.30.21.31.12.01.33.00.31.01.30.20.03.23.32.23.11.32.20.33.13.00.02.32",
    b"122012302103232220231200201321302010023213010100311200022332010110211133",
    b"213132231313313122101011131112123231100100113232030301130210033320220230",
    b"...0.....3.....3.....3.....2.....2.....0.....1.....3.....3.....0.....0..",
];

// One antenna port, for identity 0 at phase 0.
const ONE_PORT: Rows = [
    b"321.02230.20323.13213.20012.12330.11100.03212.02021.30103.21212.01121.21",
    b".21.33.13.31.13.01.31.22.32.01.13.32.00.00.13.10.00.22.00.12.01.03.21.11",
    b"111303301223012310100111011322222122201103220203201310313223213002230300",
    b"002212031032010021222201200310131000100102123013121330011110213002220330",
    b"...0.....3.....3.....3.....2.....2.....0.....1.....3.....3.....0.....0..",
];

// Two antenna ports, for identity 301 at phase 2.
const TWO_PORTS: Rows = [
    b"0323.30203.00330.03010.23210.00022.00131.23210.21321.01033.32000.21013.2",
    b"3.32.01.20.11.31.03.03.13.02.23.20.02.22.01.03.03.22.02.11.22.21.11.11.0",
    b"031021303121130230000232213120323330010013201110032213122103101331332021",
    b"221121232233120002320133011202021202001103123303003203200210213011123033",
    b"....1.....0.....0.....3.....0.....0.....1.....1.....1.....3.....1.....2.",
];

// Four antenna ports, for identity 503 at phase 3.
const FOUR_PORTS: Rows = [
    b"13.22101.10221.12203.10123.33301.23310.20211.02022.13330.12223.33132.031",
    b"22.22.03.10.21.11.00.00.20.20.12.20.11.00.21.02.01.23.12.23.01.23.21.21.",
    b"020200231031122223221332313110030123103203222021232101301212022032001132",
    b"333203213313223300303333032303012111203200322112322002031202022310332220",
    b"..3.....0.....2.....1.....3.....1.....1.....2.....3.....0.....3.....2...",
];

// A MIB with other fields, for identity 77 at phase 1. The real parts of eight modulation symbols are negated.
const DAMAGED: Rows = [
    b"13.20022.02101.22322.20221.13103.22020.31113.20222.03001.20103.21031.231",
    b"00.13.33.13.01.23.20.33.01.12.02.00.33.30.32.00.12.33.03.20.30.00.11.33.",
    b"332003130123022331111330212023110300322103013103202123132113011222022023",
    b"210200021031221033102020033102102211113301223310320112323332032312233022",
    b"..1.....3.....1.....1.....2.....0.....3.....0.....0.....1.....0.....3...",
];

// One antenna port, for identity 0 in frames of phases 0 to 3, from `python/lte_reference/frames.py`. The frame of
// phase m keeps only every fourth PBCH resource element, from element m.
const QUARTERS: [Rows; 4] = [
    [
        b"32....23....32....21....01....33....10....21....02....10....21....12....",
        b".2.....1.....1.....3.....3.....1.....0.....1.....0.....0.....0.....2....",
        b"1...0...1...0...1...0...0...2...2...2...0...0...2...1...3...2...0...0...",
        b"0...1...1...0...2...2...2...1...1...1...0...3...1...3...1...2...0...0...",
        b"...0.....3.....3.....3.....2.....2.....0.....1.....3.....3.....0.....0..",
    ],
    [
        b"3.1...2.1...3.2...2.0...0.0...3.1...1.1...2.2...0.0...1.0...2.1...1.2...",
        b"..1.....3.....2.....3.....1.....2.....1.....0.....0.....1.....1.....0...",
        b".0...3...0...0...2...2...0...1...2...0...1...0...0...2...1...3...1...0..",
        b".2...0...3...1...2...2...1...0...3...1...2...0...1...0...3...0...2...2..",
        b"...0.....3.....3.....3.....2.....2.....0.....1.....3.....3.....0.....0..",
    ],
    [
        b"3...0.2...1.3...0.2...2.0...0.3...3.1...2.2...1.0...2.1...3.2...0.1...1.",
        b"....1.....1.....3.....1.....1.....3.....1.....3.....3.....1.....0.....0.",
        b"..1...0...2...1...2...3...2...2...0...2...0...0...2...0...3...1...1...2.",
        b"..2...1...0...3...0...3...1...0...2...0...1...2...0...3...1...1...2...0.",
        b"...0.....3.....3.....3.....2.....2.....0.....1.....3.....3.....0.....0..",
    ],
    [
        b"3....02....33....02....00....33....21....02....00....31....32....01....0",
        b".....2.....2.....2.....1.....3.....3.....0.....1.....1.....0.....3.....2",
        b"...1...2...3...1...3...1...2...0...0...1...1...0...3...0...0...2...0...2",
        b"...0...1...3...2...1...2...1...1...1...1...2...1...0...1...1...0...1...1",
        b"...0.....3.....3.....3.....2.....2.....0.....1.....3.....3.....0.....0..",
    ],
];

// A silent slot.
const SILENCE: Rows = [EMPTY; 5];

// Returns whether a MIB was decoded with cost 0: port count `ports`, bandwidth n6, PHICH duration normal, PHICH
// resource one, and all other bits 0.
fn is_plain(found: Option<Master>, ports: u8) -> bool {
    let Some(master) = found else {
        return false;
    };
    let mib = master.mib;
    mib.bandwidth == Bandwidth::N6
        && mib.duration == Duration::Normal
        && mib.resource == Resource::One
        && mib.upper == 0
        && mib.spare == 0
        && master.ports == ports
        && master.cost == 0
}

#[test]
fn silent_slots_have_no_master(rt: HostRuntime) -> Result<(), Fail> {
    let mut work = Trellis::new(rt.alloc())?;
    let one = [slot_of(&rt, 0, 1, SILENCE)];
    for phase in 0..4_u8 {
        assert!(rt; explain_slots(&one, phase, &mut work).is_none());
    }
    let four = [
        slot_of(&rt, 0, 1, SILENCE),
        slot_of(&rt, 0, 1, SILENCE),
        slot_of(&rt, 0, 1, SILENCE),
        slot_of(&rt, 0, 1, SILENCE),
    ];
    assert!(rt; explain_slots(&four, 0, &mut work).is_none());
    at_most_one_master();
    Ok(())
}

#[test]
fn bandwidth_code_6_is_no_master(rt: HostRuntime) -> Result<(), Fail> {
    let mut work = Trellis::new(rt.alloc())?;
    let slots = [slot_of(&rt, 0, 1, CODE_6)];
    assert!(rt; values(&slots, 1)[0] == [268, -268, 268]);
    for phase in 0..4_u8 {
        assert!(rt; explain_slots(&slots, phase, &mut work).is_none());
    }
    Ok(())
}

// Returns whether a slot gives a MIB with port count `ports` at `phase`, and no MIB at phase `other`.
fn gives_ports(slot: Slot, phase: u8, ports: u8, other: u8, work: &mut Trellis) -> bool
    requires number { slot.number ≡ 1 }
    requires phase { phase < 4 }
    requires other { other < 4 }
{
    let slots = [slot];
    is_plain(explain_slots(&slots, phase, work), ports)
        && explain_slots(&slots, other, work).is_none()
}

#[test]
fn the_mask_gives_the_ports(rt: HostRuntime) -> Result<(), Fail> {
    let mut work = Trellis::new(rt.alloc())?;
    assert!(rt; gives_ports(slot_of(&rt, 0, 1, ONE_PORT), 0, 1, 1, &mut work));
    assert!(rt; gives_ports(slot_of(&rt, 301, 1, TWO_PORTS), 2, 2, 1, &mut work));
    assert!(rt; gives_ports(slot_of(&rt, 503, 1, FOUR_PORTS), 3, 4, 0, &mut work));
    Ok(())
}

// Returns whether `master` is the MIB of `DAMAGED`, with the cost of eight negated parts.
fn is_damaged(master: &Master) -> bool {
    let mib = master.mib;
    mib.bandwidth == Bandwidth::N100
        && mib.duration == Duration::Extended
        && mib.resource == Resource::Two
        && mib.upper == 165
        && mib.spare == 753
        && master.ports == 4
        && master.cost == 268
}

#[test]
fn a_damaged_block_is_read_at_its_cost(rt: HostRuntime) -> Result<(), Fail> {
    let mut work = Trellis::new(rt.alloc())?;
    let slots = [slot_of(&rt, 77, 1, DAMAGED)];
    let master = explain_slots(&slots, 1, &mut work).ok_or("no master")?;
    assert!(rt; is_damaged(&master));
    Ok(())
}

#[test]
fn four_quarters_decode_together(rt: HostRuntime) -> Result<(), Fail> {
    let mut work = Trellis::new(rt.alloc())?;
    let slots = [
        slot_of(&rt, 0, 1, QUARTERS[0]),
        slot_of(&rt, 0, 1, QUARTERS[1]),
        slot_of(&rt, 0, 1, QUARTERS[2]),
        slot_of(&rt, 0, 1, QUARTERS[3]),
    ];
    assert!(rt; is_plain(explain_slots(&slots, 0, &mut work), 1));
    Ok(())
}

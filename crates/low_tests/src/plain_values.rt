use lte_types::{
    Assignment, Bandwidth, Carrier, CellId, Cfi, Duration, Mib, Mnc, Plmn, Plmns, Prefix, Resource,
    Schedule, Sfn, Sib1, Sib1Reason, Sibs, period, same_answers, window,
};
use std::process::Abort;
use test_support::{message, plain_block};

fn is_503(id: CellId) -> bool {
    id.value() == 503 && id.n1() == 167 && id.n2() == 2
}

#[test]
fn identities_end_at_503(rt: HostRuntime) {
    assert!(rt; CellId::new(504).is_none());
    assert!(rt; is_503(CellId::new(503).expect(&rt, "in range")));
}

#[test]
fn frame_numbers_end_at_1023(rt: HostRuntime) {
    assert!(rt; Sfn::new(1024).is_none());
    assert!(rt; Sfn::new(1023).expect(&rt, "in range").value() == 1023);
}

#[test]
fn control_formats_are_1_to_3(rt: HostRuntime) {
    assert!(rt; Cfi::new(0).is_none());
    assert!(rt; Cfi::new(4).is_none());
    assert!(rt; Cfi::new(3).expect(&rt, "in range").value() == 3);
}

fn is_sent_by(carrier: Carrier, ports: u8, prefix: Prefix) -> bool {
    carrier.ports() == ports && carrier.prefix() == prefix
}

#[test]
fn carriers_have_ports_and_a_prefix(rt: HostRuntime) {
    assert!(rt; is_sent_by(Carrier::OnePort, 1, Prefix::NORMAL));
    assert!(rt; is_sent_by(Carrier::TwoPorts, 2, Prefix::NORMAL));
    assert!(rt; is_sent_by(Carrier::LongPrefix, 1, Prefix::EXTENDED));
}

// Returns whether `Assignment` accepts `cfi`, `start` and `blocks`, and returns its parts unchanged.
fn can_be_assigned(cfi: u8, start: u8, blocks: u8) -> bool {
    let Some(indicator) = Cfi::new(cfi) else {
        return false;
    };
    match Assignment::new(indicator, start, blocks) {
        Some(assignment) => {
            assignment.cfi().value() == cfi
                && assignment.start() == start
                && assignment.blocks() == blocks
        }
        None => false,
    }
}

#[test]
fn assignments_are_of_some_of_six_blocks(rt: HostRuntime) {
    for (cfi, start, blocks) in [(2, 0, 6), (3, 5, 1), (2, 2, 3)] {
        assert!(rt; can_be_assigned(cfi, start, blocks));
    }
    for (cfi, start, blocks) in [(1, 0, 6), (2, 1, 6), (3, 6, 0), (3, 0, 0), (2, 250, 10)] {
        assert!(rt; !can_be_assigned(cfi, start, blocks));
    }
}

fn has_greatest_fields(mib: &Mib) -> bool {
    mib.bandwidth == Bandwidth::N75
        && mib.upper == 7
        && mib.spare == 1023
        && mib.duration == Duration::Extended
        && mib.resource == Resource::Two
}

#[test]
fn spare_bits_end_at_1023(rt: HostRuntime) {
    let width = Bandwidth::N75;
    assert!(rt; Mib::new(width, Duration::Extended, Resource::Two, 7, 1024).is_none());
    let mib = Mib::new(width, Duration::Extended, Resource::Two, 7, 1023).expect(&rt, "in range");
    assert!(rt; has_greatest_fields(&mib));
}

#[test]
fn the_last_ten_bits_are_two_fields(rt: HostRuntime) {
    for (spare, br, rest) in [(33, 1, 1), (1000, 31, 8)] {
        let mib = Mib::new(Bandwidth::N6, Duration::Normal, Resource::One, 0, spare).expect(
            &rt, "in range",
        );
        assert!(rt; mib.br() == br && mib.rest() == rest);
    }
}

#[test]
fn lists_take_so_many_items(rt: HostRuntime) {
    let mut sibs = Sibs::new();
    for code in 0..31_u8 {
        assert!(rt; sibs.push(code));
    }
    assert!(rt; !sibs.push(31) && sibs.slice().last() == Some(&30));
    let mut plmns = Plmns::new();
    for digit in 0..6_u8 {
        assert!(rt; plmns.push(network(None, digit)));
    }
    assert!(rt; !plmns.push(network(None, 6)));
    let mut schedule = Schedule::new();
    for _ in 0..32_u8 {
        assert!(rt; schedule.push(message(0, &[])));
    }
    assert!(rt; !schedule.push(message(0, &[])) && schedule.slice().len() == 32);
}

fn network(mcc: Option<[u8; 3]>, digit: u8) -> Plmn {
    Plmn {
        mcc,
        mnc: Mnc::Two([0, digit]),
        reserved: false,
    }
}

fn information(rt: &impl Abort, mcc: Option<[u8; 3]>, digit: u8, code: u8) -> Sib1 {
    let mut plmns = Plmns::new();
    assert!(rt; plmns.push(network(mcc, digit)));
    let mut scheduling = Schedule::new();
    assert!(rt; scheduling.push(message(6, &[code])));
    Sib1 {
        plmns,
        tac: 65535,
        cell: 268_435_455,
        csg_identity: Some(134_217_727),
        q_offset: Some(8),
        p_max: Some(33),
        band: 64,
        scheduling,
        tdd: Some((6, 8)),
        window: 6,
        tag: 31,
        ..plain_block()
    }
}

#[test]
fn fields_reach_to_the_ends_of_their_ranges(rt: HostRuntime) {
    let mcc = Some([2, 6, 2]);
    // Every row but the first is invalid: it has no country code, a bad digit, or a bad SIB code.
    for (mcc, digit, code, valid) in [
        (mcc, 9, 79, true),
        (None, 9, 79, false),
        (mcc, 10, 79, false),
        (mcc, 9, 80, false),
    ] {
        assert!(rt; information(&rt, mcc, digit, code).valid() == valid);
    }
    let mut far = information(&rt, mcc, 9, 79);
    far.q_rx = -71;
    assert!(rt; !far.valid());
    let mut wide = information(&rt, mcc, 9, 79);
    wide.cell = 268_435_456;
    assert!(rt; !wide.valid());
    let mut late = information(&rt, mcc, 9, 79);
    late.window = 7;
    assert!(rt; !late.valid());
    let mut rare = information(&rt, mcc, 9, 79);
    rare.scheduling.push(message(7, &[]));
    assert!(rt; !rare.valid());
}

// Returns whether the window with code `code` has the given length in milliseconds and name.
fn is_window(code: u8, milliseconds: u8, name: &str) -> bool {
    window::milliseconds(code) == milliseconds
        && window::name(code) == name
        && window::code_of(milliseconds) == Some(code)
}

// Returns whether the period with code `code` has the given length in frames and name.
fn is_period(code: u8, frames: u16, name: &str) -> bool {
    period::frames(code) == frames
        && period::name(code) == name
        && period::code_of(frames) == Some(code)
}

#[test]
fn windows_and_periods_are_those_of_the_standard(rt: HostRuntime) {
    for (code, milliseconds, window, frames, period) in [
        (0, 1, "ms1", 8, "rf8"),
        (1, 2, "ms2", 16, "rf16"),
        (2, 5, "ms5", 32, "rf32"),
        (3, 10, "ms10", 64, "rf64"),
        (4, 15, "ms15", 128, "rf128"),
        (5, 20, "ms20", 256, "rf256"),
        (6, 40, "ms40", 512, "rf512"),
    ] {
        assert!(rt; is_window(code, milliseconds, window));
        assert!(rt; is_period(code, frames, period));
    }
    assert!(rt; window::code_of(30).is_none());
    assert!(rt; period::code_of(6).is_none());
}

#[test]
fn a_copy_is_the_same(rt: HostRuntime) {
    let fields = information(&rt, Some([2, 6, 2]), 1, 0);
    let copy = fields.copy();
    assert!(rt; copy == fields);
    assert!(rt; copy.plmns.slice().len() == 1 && copy.scheduling.slice().len() == 1);
    assert!(rt; copy != information(&rt, Some([2, 6, 2]), 2, 0));
    assert!(rt; copy != information(&rt, Some([2, 6, 2]), 1, 1));
}

#[test]
fn answers_are_compared(rt: HostRuntime) {
    let fields = Ok(information(&rt, None, 1, 0));
    let none = Err(Sib1Reason::NotSib1);
    assert!(rt; same_answers(&fields, &Ok(information(&rt, None, 1, 0))));
    assert!(rt; !same_answers(&fields, &Ok(information(&rt, None, 1, 1))));
    assert!(rt; !same_answers(&fields, &none));
    assert!(rt; same_answers(&none, &Err(Sib1Reason::NotSib1)));
    assert!(rt; !same_answers(&none, &Err(Sib1Reason::NotDecoded)));
}

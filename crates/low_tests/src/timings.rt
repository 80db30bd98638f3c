use lte_types::{Sfn, Timing, timings_come_back};

// Each row has the frame number and the offset of the first sample, then the start and the number of the first complete
// frame. If the offset is not 0, the start is 19,200 minus the offset, and the number is one more, modulo 1,024.
const ROWS: [(u16, u32, u32, u16); 5] = [
    (5, 0, 0, 5),
    (5, 1, 19_199, 6),
    (100, 300, 18_900, 101),
    (1023, 19_199, 1, 0),
    (0, 9_600, 9_600, 1),
];

// Returns whether the first complete frame of a recording with the given timing starts at sample `start`.
fn starts_at(sfn: u16, offset: u32, start: u32) -> bool {
    match Timing::new(Sfn::modulo(sfn as u64), offset) {
        Some(timing) => timing.start() == start,
        None => false,
    }
}

// Returns whether the first complete frame of a recording with this timing has frame number `number`.
fn is_numbered(sfn: u16, offset: u32, number: u16) -> bool {
    match Timing::new(Sfn::modulo(sfn as u64), offset) {
        Some(timing) => timing.number_at_start().value() == number,
        None => false,
    }
}

// Returns whether a recording with a row's timing has the row's first frame start and number.
fn starts(row: (u16, u32, u32, u16)) -> bool {
    let (sfn, offset, start, number) = row;
    starts_at(sfn, offset, start) && is_numbered(sfn, offset, number)
}

// Returns whether a row's first frame start and number give its timing.
fn comes_back(row: (u16, u32, u32, u16)) -> bool {
    let (sfn, offset, start, number) = row;
    if start >= 19_200 {
        return false;
    }
    let timing = Timing::before(start, Sfn::modulo(number as u64));
    timing.sfn.value() == sfn && timing.offset == offset
}

// Returns the frame number at sample `i` of a recording whose first sample is sample 19,199 of frame 1,023.
fn number_at(i: u32) -> u16 {
    let timing = Timing {
        sfn: Sfn::modulo(1023),
        offset: 19_199,
    };
    timing.number_at(i as u64).value()
}

#[test]
fn offsets_end_at_19199(rt: HostRuntime) {
    assert!(rt; Timing::new(Sfn::modulo(0), 19_199).is_some());
    assert!(rt; Timing::new(Sfn::modulo(0), 19_200).is_none());
}

#[test]
fn the_first_start_and_its_number(rt: HostRuntime) {
    timings_come_back();
    for row in ROWS {
        assert!(rt; starts(row));
        assert!(rt; comes_back(row));
    }
}

#[test]
fn numbers_change_where_frames_begin(rt: HostRuntime) {
    for (i, number) in [(0, 1023), (1, 0), (19_200, 0), (19_201, 1)] {
        assert!(rt; number_at(i) == number);
    }
}

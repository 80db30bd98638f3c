use lte_types::{CellId, CellPlace, Frames};

// Returns whether `CellPlace` accepts the start sample `start`, and returns its parts unchanged.
fn can_stand_at(start: u32) -> bool {
    let id = CellId::of(2, 1);
    match CellPlace::new(id, start) {
        Some(place) => place.id() == id && place.start() == start,
        None => false,
    }
}

#[test]
fn first_frames_start_within_one_frame(rt: HostRuntime) {
    assert!(rt; can_stand_at(0));
    assert!(rt; can_stand_at(19_199));
    assert!(rt; !can_stand_at(19_200));
}

// Returns whether `Frames` accepts `count`, `first` and `phase`, and returns them unchanged.
fn can_be_looked_at(count: u8, first: u8, phase: u8) -> bool {
    match Frames::new(count, first, phase) {
        Some(frames) => {
            frames.count() == count && frames.first() == first && frames.phase() == phase
        }
        None => false,
    }
}

#[test]
fn frames_are_of_one_period_and_of_the_first_eight(rt: HostRuntime) {
    for (count, first, phase) in [(1, 0, 3), (4, 4, 0), (2, 6, 2), (1, 7, 0)] {
        assert!(rt; can_be_looked_at(count, first, phase));
    }
    for (count, first, phase) in [
        (0, 0, 0),
        (2, 0, 3),
        (1, 0, 4),
        (4, 5, 0),
        (1, 8, 0),
        (255, 255, 255),
    ] {
        assert!(rt; !can_be_looked_at(count, first, phase));
    }
}

// Returns whether a MIB with upper frame number bits `upper`, decoded from frame `first` at `phase`, gives the first
// frame the number `number`.
fn is_numbered(first: u8, phase: u8, upper: u8, number: u16) -> bool {
    match Frames::new(1, first, phase) {
        Some(frames) => frames.first_number(upper).value() == number,
        None => false,
    }
}

// The frame number is 4 times the upper bits plus the phase: 4 * 2 + 1 = 9, and 6 three frames earlier; 4 * 255 + 3 =
// 1,023. Frame 1,023 precedes frame 0.
#[test]
fn the_first_frame_is_numbered_by_the_block(rt: HostRuntime) {
    assert!(rt; is_numbered(0, 1, 2, 9));
    assert!(rt; is_numbered(3, 1, 2, 6));
    assert!(rt; is_numbered(0, 3, 255, 1_023));
    assert!(rt; is_numbered(1, 0, 0, 1_023));
}

// The expected numbers are from the reference implementation, `python/lte_reference/two_ports.py`.
use capture_make::plan;
use cell_tx::{CellError, CellPlan, sum_is_clean};
use lte_types::{Sfn, Sib1};
use std::test::Fail;
use test_support::{Summary, are_samples, is_summed_up};
use two_tx::{Cell2, TwoMade, made_is_clean, make, sample};

// Builds a plan's cell.
fn cell_of(plan: CellPlan) -> Result<Cell2, CellError> {
    if plan.sib1.valid() {
        Cell2::new(plan)
    } else {
        Err(CellError::Sib1Range)
    }
}

// Returns whether a plan is refused for `cause`, or accepted if `cause` is `None`.
fn is_answer(plan: CellPlan, cause: Option<CellError>) -> bool {
    cell_of(plan).err() == cause
}

// Returns a plan whose SIB1 has a TDD-Config.
fn with_duplex(mcs: u8) -> CellPlan {
    let plan = plan(0);
    CellPlan {
        mcs,
        sib1: Sib1 {
            tdd: Some((1, 2)),
            ..plan.sib1
        },
        ..plan
    }
}

// Six resource blocks carry 1,152 bits with CFI 2 and 1,008 bits with CFI 3, for two antenna ports. A block of K = 352
// needs 1,068 bits; K = 400 needs 1,212, which fit one port only; K = 320 needs 972.
#[test]
fn each_coded_bit_has_to_be_sent(rt: HostRuntime) {
    let punctured = Some(CellError::Punctured);
    for (n, mcs, cause) in [
        (0, 10, None),
        (0, 11, punctured),
        (1, 9, None),
        (1, 10, punctured),
    ] {
        assert!(rt; is_answer(CellPlan { mcs, ..plan(n) }, cause));
    }
}

// All conditions except for puncturing are the conditions for one antenna port, in the same order.
#[test]
fn refusals_in_order(rt: HostRuntime) {
    let identity = CellPlan {
        identity: 504,
        mcs: 11,
        ..plan(0)
    };
    assert!(rt; is_answer(identity, Some(CellError::Identity)));
    for (mcs, cause) in [(22, CellError::Mcs), (4, CellError::Sib1Long)] {
        assert!(rt; is_answer(CellPlan { mcs, ..plan(0) }, Some(cause)));
    }
    for (mcs, cause) in [(11, CellError::Punctured), (10, CellError::Duplex)] {
        assert!(rt; is_answer(with_duplex(mcs), Some(cause)));
    }
}

// Samples of cell 7 from frame 7, at each antenna port.
const FIRST: [(u32, i16, i16); 22] = [
    (0, -35, -11),
    (9, 87, -14),
    (10, 0, 23),
    (823, -47, 7),
    (832, -109, 68),
    (960, -99, -42),
    (967, 56, -50),
    (970, 0, 23),
    (1300, 112, -44),
    (9610, 90, -90),
    (19_200, -35, -11),
    (28_800, 77, -117),
    (28_810, 113, -112),
    (28_950, 100, -141),
    (29_100, -16, -83),
    (29_400, 238, -44),
    (29_623, -47, 7),
    (29_747, 1, -147),
    (29_900, -21, -140),
    (30_100, 69, 125),
    (30_300, -57, 92),
    (30_711, -118, -79),
];

const SECOND: [(u32, i16, i16); 22] = [
    (0, 55, -37),
    (9, 104, 18),
    (10, 90, -22),
    (823, 0, 0),
    (832, 0, 0),
    (960, -37, 29),
    (967, -63, 73),
    (970, 0, 68),
    (1300, 154, 24),
    (9610, 90, 90),
    (19_200, 55, -37),
    (28_800, -72, 82),
    (28_810, 68, 68),
    (28_950, -60, 54),
    (29_100, 48, -83),
    (29_400, 3, -112),
    (29_623, 0, 0),
    (29_747, 0, 0),
    (29_900, 76, -3),
    (30_100, 16, 87),
    (30_300, -89, 51),
    (30_711, -72, -31),
];

#[test]
fn samples_of_each_port(rt: HostRuntime) -> Result<(), Fail> {
    let cell = cell_of(plan(7))?;
    assert!(rt; cell.plan().identity == 7);
    let seven = Sfn::modulo(7);
    assert!(rt; are_samples(&FIRST, |i| Some(sample(&cell, 0, seven, i as u64))));
    assert!(rt; are_samples(&SECOND, |i| Some(sample(&cell, 1, seven, i as u64))));
    Ok(())
}

// Returns whether a synthetic recording has the given gains, noise bound and summary.
fn is_made(made: &TwoMade, gains: [(i16, i16); 2], bound: i16, summary: &Summary) -> bool {
    made.gains == gains && made.bound == bound && is_summed_up(&made.recording, summary)
}

// Returns whether a synthetic recording has identity 7, and begins at sample 7 of frame 7.
fn begins_with_7(made: &TwoMade) -> bool {
    made.plan.identity == 7 && made.offset == 7 && made.sfn.value() == 7
}

// Synthetic recordings: number, gains, noise bound and summary.
const MADE: [(u32, [(i16, i16); 2], i16, Summary); 3] = [
    (
        0,
        [(1, 0), (0, 0)],
        0,
        Summary {
            count: 192_000,
            front: [(-99, 131), (8, 51), (-8, -20), (-79, 8)],
            sums: [-21_460, 22_307, -10_660_202, 15_255_748],
        },
    ),
    (
        7,
        [(8, 7), (7, -7)],
        7,
        Summary {
            count: 326_400,
            front: [(-795, -83), (1333, -81), (1653, -106), (320, -598)],
            sums: [-274_529, -501_490, -159_689_669, -191_308_503],
        },
    ),
    (
        4_294_967_221,
        [(2, 1), (6, -5)],
        4,
        Summary {
            count: 211_200,
            front: [(0, -3), (0, 2), (-2, 1), (-4, 3)],
            sums: [22_915, 32_955, 23_928_973, 49_666_016],
        },
    ),
];

// Recording 7 starts at sample 7 of frame 7, so its frame 8 begins at sample 19,193.
#[test]
fn recordings_by_number(rt: HostRuntime) -> Result<(), Fail> {
    made_is_clean();
    sum_is_clean();
    for (n, gains, bound, summary) in MADE {
        let made = make(rt.alloc(), n)?;
        assert!(rt; is_made(&made, gains, bound, &summary), "number {n}");
        assert!(rt; n != 7 || begins_with_7(&made));
    }
    Ok(())
}

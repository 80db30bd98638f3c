// The expected numbers are from the reference implementation, `python/lte_reference/four_ports.py`.
use capture_make::{MadeBy, make_by};
use lte_types::Carrier;
use std::test::Fail;
use test_support::{Summary, is_summed_up};

// Returns whether a synthetic recording has the given gains, noise bound and summary.
fn is_made(made: &MadeBy, gains: [(i64, i64); 4], bound: i16, summary: &Summary) -> bool {
    let [zero, one, two, three] = made.sent.gains;
    [
        (zero.re, zero.im),
        (one.re, one.im),
        (two.re, two.im),
        (three.re, three.im),
    ] == gains
        && made.bound == bound
        && is_summed_up(&made.recording, summary)
}

// Synthetic recordings: number, gains, noise bound and summary.
const MADE: [(u32, [(i64, i64); 4], i16, Summary); 3] = [
    (
        0,
        [(4, -3), (-2, 4), (-3, -2), (-1, -4)],
        1,
        Summary {
            count: 192_000,
            front: [(-237, 242), (-221, -25), (-224, 6), (-306, 64)],
            sums: [-35_436, 134_037, 14_755_531, 72_564_921],
        },
    ),
    (
        7,
        [(4, -3), (0, 4), (-3, 1), (0, -4)],
        1,
        Summary {
            count: 326_400,
            front: [(-134, -207), (418, -113), (408, -37), (21, -89)],
            sums: [126_386, -338_228, 75_019_312, -161_765_572],
        },
    ),
    (
        4_294_967_221,
        [(4, 3), (-1, 4), (-3, -1), (0, -4)],
        1,
        Summary {
            count: 211_200,
            front: [(-96, -316), (193, -176), (73, 63), (31, 136)],
            sums: [109_106, -31_036, 57_589_023, -33_304_974],
        },
    ),
];

// Recording 7 starts at sample 7 of frame 7, so its frame 8 begins at sample 19,193.
#[test]
fn recordings_by_number(rt: HostRuntime) -> Result<(), Fail> {
    for (n, gains, bound, summary) in MADE {
        let made = make_by(rt.alloc(), Carrier::FourPorts, n)?;
        assert!(rt; is_made(&made, gains, bound, &summary), "number {n}");
    }
    Ok(())
}

//! Lists of cells. The rows are from `python/lte_reference/deep_list_rows.py`, which makes the same recordings.

ghost use Rattle.std.specs.Prelude.{◌≤◌};

use crate::recordings::{Cell, Noise, samples_of, send};
use accumulated_list::{DetectedCell, list_accumulated};
use accumulated_pss::half_frames;
use lte_types::Half;
use sample_file::Recording;
use std::alloc::Global;
use std::test::Fail;

// The gain, identity, first subframe and position of a cell; with the gain 0 it sends nothing.
type Sent = (i64, u16, u8, usize);

// The position, N_ID(2), identity, subframe, frame start, matches, ratio and power of a listed cell, or zeros.
type Listed = [u64; 8];

// The level, seed and constant of the noise, the cells, the number of half-frames, and the list.
type Row = (u32, u32, i64, [Sent; 3], usize, [Listed; 3]);

const NONE: Sent = (0, 0, 0, 137);

const ROWS: [Row; 12] = [
    (0, 1, 0, [NONE, NONE, NONE], 2, [[0; 8], [0; 8], [0; 8]]),
    (
        0,
        2,
        12_345,
        [NONE, NONE, NONE],
        2,
        [[0; 8], [0; 8], [0; 8]],
    ),
    (300, 3, 0, [NONE, NONE, NONE], 2, [[0; 8], [0; 8], [0; 8]]),
    (
        250,
        4,
        0,
        [(1, 301, 0, 4_321), (1, 8, 5, 9_000), NONE],
        5,
        [
            [4_321, 1, 301, 0, 3_489, 120, 289, 1_655_376_013],
            [9_000, 2, 8, 5, 17_768, 122, 260, 1_449_495_555],
            [0; 8],
        ],
    ),
    (
        250,
        4,
        0,
        [(1, 301, 0, 4_321), (1, 8, 5, 9_000), NONE],
        2,
        [
            [4_321, 1, 301, 0, 3_489, 115, 275, 1_634_875_546],
            [9_000, 2, 8, 5, 17_768, 112, 254, 1_416_924_854],
            [0; 8],
        ],
    ),
    (
        250,
        4,
        0,
        [(1, 301, 0, 4_321), (1, 8, 5, 9_000), NONE],
        1,
        [[0; 8], [0; 8], [0; 8]],
    ),
    (
        60,
        5,
        0,
        [(1, 130, 5, 7_000), (1, 129, 0, 7_000), (1, 503, 0, 137)],
        2,
        [
            [137, 2, 503, 0, 18_505, 124, 871, 1_631_894_193],
            [7_000, 0, 129, 0, 6_168, 110, 473, 2_176_470_317],
            [7_000, 1, 130, 5, 15_768, 98, 474, 2_106_135_794],
        ],
    ),
    (
        60,
        6,
        0,
        [(5, 77, 0, 2_000), (4, 77, 0, 2_050), NONE],
        2,
        [
            [2_000, 2, 77, 0, 1_168, 124, 645, 40_966_161_518],
            [0; 8],
            [0; 8],
        ],
    ),
    (
        60,
        7,
        0,
        [(4, 160, 5, 9_700), (5, 160, 0, 140), NONE],
        2,
        [
            [140, 1, 160, 0, 18_508, 120, 828, 37_934_583_884],
            [0; 8],
            [0; 8],
        ],
    ),
    (
        60,
        8,
        0,
        [(3, 95, 0, 5_000), (4, 95, 0, 5_137), NONE],
        2,
        [
            [5_137, 2, 95, 0, 4_305, 124, 990, 24_320_934_997],
            [0; 8],
            [0; 8],
        ],
    ),
    (
        60,
        9,
        0,
        [(3, 95, 0, 5_000), (4, 95, 0, 5_138), NONE],
        2,
        [
            [5_000, 2, 95, 0, 4_168, 124, 341, 13_688_246_737],
            [5_138, 2, 95, 0, 4_306, 124, 990, 24_651_427_437],
            [0; 8],
        ],
    ),
    (
        60,
        10,
        0,
        [(5, 95, 0, 5_000), (4, 98, 0, 5_100), NONE],
        2,
        [
            [5_000, 2, 95, 0, 4_168, 124, 614, 38_568_945_987],
            [5_100, 2, 98, 0, 4_268, 108, 718, 23_946_724_167],
            [0; 8],
        ],
    ),
];

fn cell_of(sent: Sent) -> Cell
    ensures group { result.n1 ≤ 167 }
    ensures member { result.n2 ≤ 2 }
    ensures first { 137 ≤ result.t }
    ensures last { result.t ≤ 9736 }
{
    let (gain, id, subframe, t) = sent;
    Cell {
        gain,
        n1: id / 3 % 168,
        n2: (id % 3) as u8,
        half: if subframe == 0 {
            Half::Zero
        } else {
            Half::Five
        },
        t: t.clamp(137, 9_736),
    }
}

fn recording_of(alloc: Global, noise: Noise, cells: [Sent; 3]) -> Result<Recording, Fail> {
    let mut samples = samples_of(alloc, noise)?;
    for cell in cells {
        send(&mut samples[..], cell_of(cell));
    }
    let recording = Recording::new(samples).ok_or("30 ms")?;
    Ok(recording)
}

fn numbers_of(cell: &DetectedCell) -> Listed {
    [
        cell.position as u64,
        cell.n2 as u64,
        cell.id.value() as u64,
        cell.half.subframe() as u64,
        cell.start as u64,
        cell.matches as u64,
        cell.ratio as u64,
        cell.power,
    ]
}

// Returns whether the list over `halves` half-frames has these cells, and no others.
fn is_listed(
    alloc: Global,
    recording: &Recording,
    halves: usize,
    expected: &[Listed; 3],
) -> Result<bool, Fail> {
    let list = list_accumulated(alloc, recording, halves.clamp(1, half_frames(recording)))?;
    let mut is_equal = list.len() <= 3;
    for k in 0..3 {
        let found = list.get(k).map_or([0; 8], numbers_of);
        is_equal &= found == expected[k];
    }
    Ok(is_equal)
}

#[test]
fn lists_are_those_of_the_reference(rt: HostRuntime) -> Result<(), Fail> {
    for (level, seed, constant, cells, halves, expected) in ROWS {
        let noise = Noise {
            level,
            seed,
            constant,
        };
        let recording = recording_of(rt.alloc(), noise, cells)?;
        assert!(rt;
            is_listed(rt.alloc(), &recording, halves, &expected)?,
            "seed {seed}"
        );
    }
    Ok(())
}

//! Detections by the signs of the secondary signal. The values are from `python/lte_reference/deep_sign_rows.py`, which
//! makes the same recordings.

ghost use Rattle.std.specs.Prelude.{◌≤◌};

use crate::recordings::{Cell, Noise, samples_of, send};
use accumulated_sss::detect;
use lte_types::Half;
use sample_file::Recording;
use std::alloc::Global;
use std::test::Fail;

fn recording_of(alloc: Global, noise: Noise, cell: Cell) -> Result<Recording, Fail>
    requires group { cell.n1 ≤ 167 }
    requires member { cell.n2 ≤ 2 }
    requires first { 137 ≤ cell.t }
    requires last { cell.t ≤ 9736 }
{
    let mut samples = samples_of(alloc, noise)?;
    send(&mut samples[..], cell);
    let recording = Recording::new(samples).ok_or("30 ms")?;
    Ok(recording)
}

// Returns group, subframe, matches and power of the detection at a candidate, or zeros if there is none.
fn found(recording: &Recording, t: usize, n2: u8, halves: usize) -> [u64; 4]
    requires first { 137 ≤ t }
    requires last { t ≤ 9736 }
    requires member { n2 ≤ 2 }
    requires some { 1 ≤ halves }
    requires few { halves ≤ 5 }
{
    let count = recording.len();
    prove!(57_600 <= count);
    match detect(recording, halves, t, n2) {
        Some(found) => [
            found.n1 as u64,
            found.half.subframe() as u64,
            found.matches as u64,
            found.power,
        ],
        None => [0, 0, 0, 0],
    }
}

const SILENCE: Noise = Noise {
    level: 0,
    seed: 1,
    constant: 0,
};

const NO_CELL: Cell = Cell {
    gain: 0,
    n1: 0,
    n2: 0,
    half: Half::Zero,
    t: 137,
};

// ---- without a cell

#[test]
fn recordings_without_a_cell_have_no_detection(rt: HostRuntime) -> Result<(), Fail> {
    let silence = recording_of(rt.alloc(), SILENCE, NO_CELL)?;
    assert!(rt; found(&silence, 500, 0, 5) == [0, 0, 0, 0]);
    let constant = Noise {
        constant: 12_345,
        ..SILENCE
    };
    let constant = recording_of(rt.alloc(), constant, NO_CELL)?;
    assert!(rt; found(&constant, 500, 0, 5) == [0, 0, 0, 0]);
    let noise = Noise {
        level: 300,
        seed: 2,
        constant: 0,
    };
    let noise = recording_of(rt.alloc(), noise, NO_CELL)?;
    assert!(rt; found(&noise, 137, 0, 5) == [0, 0, 0, 0]);
    assert!(rt; found(&noise, 9_736, 2, 5) == [0, 0, 0, 0]);
    Ok(())
}

// ---- a cell alone

// At the last position. One half-frame has 62 signs; another root, and a position near the cell, have too few matches.
#[test]
fn cell_at_the_last_position_is_detected(rt: HostRuntime) -> Result<(), Fail> {
    let last = Cell {
        gain: 1,
        n1: 167,
        n2: 2,
        half: Half::Five,
        t: 9_736,
    };
    let last = recording_of(rt.alloc(), SILENCE, last)?;
    assert!(rt; found(&last, 9_736, 2, 5) == [167, 5, 124, 1_585_914_594]);
    assert!(rt; found(&last, 9_736, 2, 1) == [0, 0, 0, 0]);
    assert!(rt; found(&last, 9_736, 1, 5) == [0, 0, 0, 0]);
    assert!(rt; found(&last, 9_600, 2, 5) == [0, 0, 0, 0]);
    Ok(())
}

#[test]
fn cell_at_the_first_position_is_detected(rt: HostRuntime) -> Result<(), Fail> {
    let first = Cell {
        gain: -3,
        ..NO_CELL
    };
    let first = recording_of(rt.alloc(), SILENCE, first)?;
    assert!(rt; found(&first, 137, 0, 5) == [0, 0, 124, 14_266_792_084]);
    assert!(rt; found(&first, 137, 0, 2) == [0, 0, 124, 14_266_763_767]);
    assert!(rt; found(&first, 138, 0, 5) == [0, 0, 124, 5_843_746_685]);
    Ok(())
}

// ---- a cell in noise

#[test]
fn cell_in_noise_is_detected(rt: HostRuntime) -> Result<(), Fail> {
    let noise = Noise {
        level: 300,
        seed: 5,
        constant: 0,
    };
    let clear = Cell {
        gain: 1,
        n1: 42,
        n2: 1,
        half: Half::Five,
        t: 4_321,
    };
    let clear = recording_of(rt.alloc(), noise, clear)?;
    assert!(rt; found(&clear, 4_321, 1, 5) == [42, 5, 117, 1_646_944_038]);
    assert!(rt; found(&clear, 4_321, 1, 4) == [42, 5, 114, 1_628_541_645]);
    assert!(rt; found(&clear, 4_321, 1, 1) == [0, 0, 0, 0]);
    assert!(rt; found(&clear, 4_322, 1, 5) == [42, 5, 97, 574_130_523]);
    assert!(rt; found(&clear, 4_185, 1, 5) == [0, 0, 0, 0]);
    Ok(())
}

// 93 matches are just enough.
#[test]
fn cell_in_more_noise_is_detected(rt: HostRuntime) -> Result<(), Fail> {
    let noise = Noise {
        level: 420,
        seed: 6,
        constant: 0,
    };
    let faint = Cell {
        gain: 1,
        n1: 99,
        n2: 0,
        half: Half::Zero,
        t: 1_000,
    };
    let faint = recording_of(rt.alloc(), noise, faint)?;
    assert!(rt; found(&faint, 1_000, 0, 5) == [99, 0, 109, 1_856_791_433]);
    assert!(rt; found(&faint, 1_000, 0, 4) == [99, 0, 110, 1_868_181_342]);
    let noise = Noise {
        level: 500,
        seed: 7,
        constant: 0,
    };
    let faintest = Cell {
        gain: 1,
        n1: 120,
        n2: 2,
        half: Half::Five,
        t: 5_555,
    };
    let faintest = recording_of(rt.alloc(), noise, faintest)?;
    assert!(rt; found(&faintest, 5_555, 2, 5) == [120, 5, 93, 1_514_248_277]);
    assert!(rt; found(&faintest, 5_555, 2, 3) == [0, 0, 0, 0]);
    Ok(())
}

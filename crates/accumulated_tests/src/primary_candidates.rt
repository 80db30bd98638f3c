//! Candidates of the primary signals. The rows are from `python/lte_reference/deep_rows.py`.

ghost use Rattle.std.specs.Prelude.{◌≤◌};

use crate::recordings::next;
use accumulated_pss::{Accumulated, accumulate, candidates, half_frames};
use cs_num::Sample;
use sample_file::Recording;
use std::alloc::{AllocError, Global};
use std::test::Fail;
use test_support::{primary_grid, put_symbol, silent};

const COUNT: usize = 57_600;

// What the candidates of one primary signal add up to.
#[derive(Clone, Copy, PartialEq)]
struct Totals {
    count: usize,
    // the sum of their positions
    positions: u64,
    // the sum of their sums
    total: u64,
    // position and sum of the candidate that precedes all others; 0 without candidates
    first: u32,
    greatest: u32,
}

fn row(count: usize, positions: u64, total: u64, first: u32, greatest: u32) -> Totals {
    Totals {
        count,
        positions,
        total,
        first,
        greatest,
    }
}

// Returns the row of a primary signal's candidates.
fn row_of(alloc: Global, sums: &Accumulated, n2: u8) -> Result<Totals, AllocError>
    requires { n2 ≤ 2 }
{
    let list = candidates(alloc, sums, n2)?;
    let mut found = row(0, 0, 0, 0, 0);
    for k in 0..list.len() {
        let t = list[k];
        found = with_candidate(found, t, sums.sum(n2, t));
    }
    Ok(found)
}

fn with_candidate(found: Totals, t: u32, sum: u32) -> Totals {
    let is_first = found.count == 0 || found.greatest < sum;
    Totals {
        count: found.count.wrapping_add(1),
        positions: found.positions.wrapping_add(t as u64),
        total: found.total.wrapping_add(sum as u64),
        first: if is_first { t } else { found.first },
        greatest: if is_first { sum } else { found.greatest },
    }
}

// Returns whether a recording has these rows after `halves` half-frames.
fn are_candidates(
    alloc: Global,
    samples: Vec<Sample>,
    halves: usize,
    rows: [Totals; 3],
) -> Result<bool, Fail> {
    let recording = Recording::new(samples).ok_or("30 ms")?;
    let sums = accumulate(alloc, &recording, halves.min(half_frames(&recording)))?;
    Ok(
        row_of(alloc, &sums, 0)? == rows[0]
            && row_of(alloc, &sums, 1)? == rows[1]
            && row_of(alloc, &sums, 2)? == rows[2],
    )
}

// ---- recordings

// Returns a component, -2,000 to 2,000.
fn component(state: u32) -> i16 {
    ((state >> 16) % 4_001) as i16 - 2_000
}

// Returns noise that begins again after each `period` samples.
fn noise(alloc: Global, period: usize, seed: u32) -> Result<Vec<Sample>, AllocError>
    requires { 1 ≤ period }
{
    let mut samples = Vec::with_capacity(alloc, COUNT)?;
    let mut state = seed;
    for i in 0..COUNT {
        let before = next(if i % period == 0 { seed } else { state });
        state = next(before);
        samples.push(Sample {
            re: component(before),
            im: component(state),
        })?;
    }
    Ok(samples)
}

// Returns equal samples.
fn constant(alloc: Global, re: i16, im: i16) -> Result<Vec<Sample>, AllocError> {
    vec![in alloc; Sample { re, im }; COUNT]
}

// Returns silence with one sample that is not 0.
fn pulse(alloc: Global) -> Result<Vec<Sample>, AllocError> {
    let mut samples = silent(alloc, COUNT)?;
    samples[5_000] = Sample { re: 1_000, im: 0 };
    Ok(samples)
}

// Returns silence with the PSS of root 0 from each of these samples.
fn signals(alloc: Global, places: [usize; 4]) -> Result<Vec<Sample>, AllocError> {
    let mut samples = silent(alloc, COUNT)?;
    put_symbol(&mut samples[..], places[0].min(57_472), &primary_grid(0));
    put_symbol(&mut samples[..], places[1].min(57_472), &primary_grid(0));
    put_symbol(&mut samples[..], places[2].min(57_472), &primary_grid(0));
    put_symbol(&mut samples[..], places[3].min(57_472), &primary_grid(0));
    Ok(samples)
}

// ---- tests

#[test]
fn half_frames_are_counted_when_complete(rt: HostRuntime) -> Result<(), Fail> {
    for (count, halves) in [(57_600, 5), (57_863, 5), (57_864, 6), (1_920_000, 199)] {
        let recording = Recording::new(silent(rt.alloc(), count)?).ok_or("30 ms")?;
        assert!(rt; half_frames(&recording) == halves);
    }
    Ok(())
}

#[test]
fn silence_and_a_constant_have_no_candidate(rt: HostRuntime) -> Result<(), Fail> {
    let none = || [row(0, 0, 0, 0, 0), row(0, 0, 0, 0, 0), row(0, 0, 0, 0, 0)];
    assert!(rt; are_candidates(rt.alloc(), silent(rt.alloc(), COUNT)?, 1, none())?);
    assert!(rt; are_candidates(rt.alloc(), constant(rt.alloc(), 100, -7)?, 1, none())?);
    Ok(())
}

#[test]
fn a_pulse_has_candidates_around_it(rt: HostRuntime) -> Result<(), Fail> {
    let rows = [
        row(6, 29_616, 1_595_628, 4_930, 311_223),
        row(6, 29_616, 1_467_672, 4_928, 267_687),
        row(6, 29_616, 1_467_650, 4_928, 267_683),
    ];
    assert!(rt; are_candidates(rt.alloc(), pulse(rt.alloc())?, 1, rows)?);
    Ok(())
}

#[test]
fn a_signal_in_each_half_frame_adds_up(rt: HostRuntime) -> Result<(), Fail> {
    let places = [1_000, 10_600, 20_200, 29_800];
    let rows = [
        row(11, 11_000, 109_746_879, 1_000, 50_331_564),
        row(12, 12_000, 24_657_990, 1_065, 2_457_426),
        row(14, 14_122, 51_045_882, 1_000, 7_483_698),
    ];
    assert!(rt; are_candidates(rt.alloc(), signals(rt.alloc(), places)?, 3, rows)?);
    Ok(())
}

#[test]
fn the_circle_is_closed(rt: HostRuntime) -> Result<(), Fail> {
    let places = [136, 9_736, 19_337, 28_799];
    let rows = [
        row(18, 116_418, 100_412_994, 137, 30_610_652),
        row(17, 106_754, 22_606_262, 220, 1_967_213),
        row(21, 126_428, 48_774_282, 155, 5_210_444),
    ];
    assert!(rt; are_candidates(rt.alloc(), signals(rt.alloc(), places)?, 3, rows)?);
    Ok(())
}

#[test]
fn noise_has_64_candidates_of_each_signal(rt: HostRuntime) -> Result<(), Fail> {
    let rows = [
        row(64, 299_410, 81_117_209, 1_942, 1_893_175),
        row(64, 348_675, 85_811_759, 2_675, 1_922_321),
        row(64, 331_599, 81_754_351, 8_866, 1_783_970),
    ];
    assert!(rt; are_candidates(rt.alloc(), noise(rt.alloc(), COUNT, 1)?, 3, rows)?);
    let rows = [
        row(64, 327_769, 46_738_950, 9_260, 1_214_141),
        row(64, 316_443, 50_712_253, 2_015, 1_187_296),
        row(64, 338_102, 47_491_658, 7_914, 1_025_430),
    ];
    assert!(rt; are_candidates(rt.alloc(), noise(rt.alloc(), COUNT, 1)?, 1, rows)?);
    Ok(())
}

#[test]
fn of_equal_sums_the_earlier_is_a_candidate(rt: HostRuntime) -> Result<(), Fail> {
    let rows = [
        row(64, 363_798, 96_750_548, 4_557, 2_744_206),
        row(64, 308_601, 98_260_604, 7_191, 2_139_120),
        row(64, 334_050, 105_303_968, 4_835, 2_786_394),
    ];
    assert!(rt; are_candidates(rt.alloc(), noise(rt.alloc(), 9_600, 2)?, 2, rows)?);
    let rows = [
        row(64, 303_030, 91_899_636, 369, 2_159_712),
        row(64, 307_898, 92_218_936, 3_584, 2_412_300),
        row(64, 334_334, 95_975_372, 1_857, 2_216_636),
    ];
    assert!(rt; are_candidates(rt.alloc(), noise(rt.alloc(), 4_800, 3)?, 2, rows)?);
    Ok(())
}

//! Recordings of noise and cells, as `python/lte_reference/deep_sign_rows.py` makes them.

ghost use Rattle.std.specs.Prelude.{◌≡◌, ◌≤◌, All};
ghost use Rattle.cs_num.specs.Complex.{IsWithin};

use cs_num::{Cpx, Sample};
use fold128::synth;
use lte_types::Half;
use std::alloc::{AllocError, Global};
use sync_seq::sss;
use test_support::{level, primary_grid, silent};

// The noise's level and seed, and a constant added to both components.
#[derive(Clone, Copy)]
pub(crate) struct Noise {
    pub level: u32,
    pub seed: u32,
    pub constant: i64,
}

// The gain, group, root, first half-frame and position of a cell.
#[derive(Clone, Copy)]
pub(crate) struct Cell {
    pub gain: i64,
    pub n1: u16,
    pub n2: u8,
    pub half: Half,
    pub t: usize,
}

// ---- noise

// Returns the next state of the generator in `python/lte_reference/wide_rows.py`.
pub(crate) fn next(state: u32) -> u32 {
    state.wrapping_mul(1_103_515_245).wrapping_add(12_345) & 0x7fff_ffff
}

// Returns a component, -`level` to `level`.
fn component(state: u32, level: u32) -> i64
    requires { level ≤ 16000 }
{
    (((state >> 16) % (2 * level + 1)) as i64).wrapping_sub(level as i64)
}

fn draw(samples: &mut [Sample], level: u32, seed: u32, constant: i64)
    requires { level ≤ 16000 }
{
    let mut state = seed;
    for i in 0..samples.len() {
        let before = next(state);
        state = next(before);
        samples[i] = Cpx {
            re: component(before, level).wrapping_add(constant),
            im: component(state, level).wrapping_add(constant),
        }
        .nearest_sample();
    }
}

// Returns 57,600 samples of noise.
pub(crate) fn samples_of(alloc: Global, noise: Noise) -> Result<Vec<Sample>, AllocError> {
    let mut samples = silent(alloc, 57_600)?;
    draw(
        &mut samples[..],
        noise.level.min(16_000),
        noise.seed,
        noise.constant,
    );
    Ok(samples)
}

// ---- cells

// Returns a sample with `gain` times `value` added.
fn with_signal(sample: Sample, value: Cpx, gain: i64) -> Sample {
    Cpx {
        re: value.re.wrapping_mul(gain).wrapping_add(sample.re as i64),
        im: value.im.wrapping_mul(gain).wrapping_add(sample.im as i64),
    }
    .nearest_sample()
}

// Adds a symbol from sample `at`, as far as there are samples.
fn add(samples: &mut [Sample], at: usize, symbol: &[Cpx; 128], gain: i64)
    requires { at ≤ 100000 }
{
    for n in 0..128 {
        let i = at + n;
        if i < samples.len() {
            samples[i] = with_signal(samples[i], symbol[n], gain);
        }
    }
}

fn subcarrier(sign: i8) -> Cpx
    ensures { IsWithin 127 result }
{
    if sign > 0 {
        Cpx { re: 127, im: 0 }
    } else {
        Cpx { re: -127, im: 0 }
    }
}

// Returns the grid of a symbol that carries a secondary sequence.
fn secondary_grid(signs: &[i8; 62]) -> [Cpx; 72]
    ensures { All (IsWithin 127) result }
{
    let mut grid = empty();
    for n in 0..62 {
        grid[n + 5] = subcarrier(signs[n]);
    }
    grid
}

fn empty() -> [Cpx; 72]
    ensures { All (IsWithin 127) result }
{
    level(subcarrier_without())
}

fn subcarrier_without() -> Cpx
    ensures { IsWithin 127 result }
{
    Cpx { re: 0, im: 0 }
}

fn is_even(h: usize) -> bool {
    h % 2 == 0
}

// Adds the two signals of a cell in each of six half-frames.
pub(crate) fn send(samples: &mut [Sample], cell: Cell)
    requires group { cell.n1 ≤ 167 }
    requires member { cell.n2 ≤ 2 }
    requires first { 137 ≤ cell.t }
    requires last { cell.t ≤ 9736 }
{
    let primary = synth(&primary_grid(cell.n2));
    let zero = synth(&secondary_grid(&sss(cell.n1, cell.n2, Half::Zero)));
    let five = synth(&secondary_grid(&sss(cell.n1, cell.n2, Half::Five)));
    for h in 0..6 {
        let at = cell.t + 9_600 * h;
        let secondary = if is_even(h) == (cell.half == Half::Zero) {
            &zero
        } else {
            &five
        };
        add(samples, at - 137, secondary, cell.gain);
        add(samples, at, &primary, cell.gain);
    }
}

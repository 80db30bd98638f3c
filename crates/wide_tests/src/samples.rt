// Drawn samples of the reference implementation, `python/lte_reference/wide_rows.py`.
ghost use Rattle.std.specs.Prelude.{◌≤◌};

use cs_num::Sample;
use halving::WideRecording;
use std::alloc::{AllocError, Global};
use tones::wide_start;
use wide_cell::points;

fn next(state: u32) -> u32 {
    state.wrapping_mul(1_103_515_245).wrapping_add(12_345) & 0x7fff_ffff
}

// Returns a component, -2,000 to 2,000.
fn component(state: u32) -> i16 {
    ((state >> 16) % 4001) as i16 - 2000
}

// Writes drawn samples, and returns the last state.
fn draw(state: u32, samples: &mut [Sample]) -> u32 {
    let mut state = state;
    for i in 0..samples.len() {
        let before = next(state);
        state = next(before);
        samples[i] = Sample {
            re: component(before),
            im: component(state),
        };
    }
    state
}

fn silence(alloc: Global, count: usize) -> Result<Vec<Sample>, AllocError> {
    let mut samples = Vec::with_capacity(alloc, count)?;
    for _ in 0..count {
        samples.push(Sample { re: 0, im: 0 })?;
    }
    Ok(samples)
}

// Returns `count` drawn samples.
pub(crate) fn drawn(alloc: Global, seed: u32, count: usize) -> Result<Vec<Sample>, AllocError> {
    let mut samples = silence(alloc, count)?;
    draw(seed, &mut samples);
    Ok(samples)
}

// Returns a recording that begins with a frame; the useful parts of subframe 5 are drawn.
pub(crate) fn subframe(alloc: Global, rate: u8) -> Result<Option<WideRecording>, AllocError>
    requires { rate ≤ 4 }
{
    let mut samples = silence(alloc, 57_600 << rate)?;
    let count = points(rate);
    let mut state = 7;
    for symbol in 0..14_u8 {
        let start = wide_start(rate, 0, 10 + symbol / 7, symbol % 7);
        if start <= samples.len() && count <= samples.len() - start {
            state = draw(state, &mut samples[start..start + count]);
        }
    }
    Ok(WideRecording::new(samples, rate))
}

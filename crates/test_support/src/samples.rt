//! Recordings as samples.

ghost use Rattle.std.specs.Prelude.{◌≡◌, ◌+◌, ◌*◌, ◌≤◌, All, IfOk, length};
ghost use Rattle.cs_num.specs.Complex.{IsWithin};

use crate::grids::{Rows, WIDE, grid_of, primary_grid, secondary_grid};
use cs_num::{Cpx, Sample, clamp_div};
use fold128::synth;
use sample_file::Recording;
use std::alloc::{AllocError, Global};
use std::test::Fail;

/// Returns `count` zero samples.
pub fn silent(alloc: Global, count: usize) -> Result<Vec<Sample>, AllocError>
    ensures { IfOk result (λ samples. length samples.items ≡ count) }
{
    vec![in alloc; Sample { re: 0, im: 0 }; count]
}

/// Returns a recording of 30 ms of silence.
pub fn silent_recording(alloc: Global) -> Result<Recording, Fail> {
    let recording = Recording::new(silent(alloc, 57_600)?).ok_or("30 ms")?;
    Ok(recording)
}

/// Writes a symbol's useful part from sample `at`.
pub fn put_symbol(samples: &mut [Sample], at: usize, grid: &[Cpx; 72])
    requires room { at + 128 ≤ length samples.old }
    requires small { All (IsWithin 127) grid.now }
{
    let useful = synth(grid);
    for n in 0..128 {
        samples[at + n] = Sample {
            re: clamp_div(useful[n].re, 1, 32_767),
            im: clamp_div(useful[n].im, 1, 32_767),
        };
    }
}

/// Writes the PSS and SSS of subframe 0 for identity 0, in a frame that starts at sample `frame`.
pub fn put_signals(samples: &mut [Sample], frame: usize)
    requires { frame + 960 ≤ length samples.old }
{
    put_symbol(samples, frame + 695, &secondary_grid());
    put_symbol(samples, frame + 832, &primary_grid(0));
}

/// Writes symbols 0 to 4 of slot 1, in a frame that starts at sample `frame`.
pub fn put_rows(samples: &mut [Sample], frame: usize, rows: &Rows)
    requires { frame + 1920 ≤ length samples.old }
{
    for l in 0..5 {
        put_symbol(samples, frame + 970 + 137 * l, &grid_of(rows[l]));
    }
}

/// Writes 141 copies of a symbol's useful part, one every 400 samples from sample 1000.
pub fn send_often(samples: &mut [Sample], grid: &[Cpx; 72])
    requires room { length samples.old ≡ 57600 }
    requires small { All (IsWithin 127) grid.now }
{
    for q in 0..141 {
        put_symbol(samples, 1000 + 400 * q, grid);
    }
}

/// Returns 30 ms of a cell 50 resource blocks wide, whose MIB is in the first frame only.
pub fn wide_cell(alloc: Global) -> Result<Vec<Sample>, AllocError> {
    let mut samples = silent(alloc, 57_600)?;
    put_signals(&mut samples[..], 0);
    put_rows(&mut samples[..], 0, &WIDE);
    Ok(samples)
}

/// Returns whether `at` returns the sample of each row for the row's index.
pub fn are_samples<F: Fn(u32) -> Option<Sample>>(rows: &[(u32, i16, i16)], at: F) -> bool
    requires { F.IsAlwaysCallable at }
{
    let mut all = true;
    for &(i, re, im) in rows {
        all &= at(i) == Some(Sample { re, im });
    }
    all
}

//! The estimate of a cell's gain from its PSS.

ghost use Rattle.std.specs.Prelude.{◌≡◌, ◌+◌, ◌%◌, ◌^◌, ◌<◌, ◌≤◌, All, length};
ghost use Rattle.finite.specs.Lists.{values_below};
ghost use Rattle.cs_num.specs.Complex.{IsWithin, value_of, sample_at, times, conjugate};
ghost use Rattle.norms.specs.Magnitudes.{correlation_below};
ghost use Rattle.lte_types.specs.Numerology.{frame_length, subcarriers, useful_length};
ghost use Rattle.pss_search.specs.Correlation.{pss_grid, wave, wave_list};
ghost use Rattle.cancel.specs.Residue.{estimate_at};

use cell_plan::Cell;
use cs_num::{Cpx, Sample};
use fold128::synth;
use lte_types::{Prefix, SUBCARRIERS, USEFUL_LENGTH};
use pss_search::signal_power;
use sample_file::Recording;
use sync_seq::{in_middle, pss};

/// Estimates a cell's gain by correlation with the first PSS in the frame that begins at sample `start`, below 19,200.
pub(crate) fn estimate(recording: &Recording, cell: &Cell, start: u32) -> Cpx
    requires { start < frame_length }
    ensures value { result ≡ estimate_at recording.now cell.now start }
    ensures small { IsWithin (2 ^ 40) result }
{
    let n2 = root_of(cell);
    let count = recording.len();
    prove!(57_600 <= count);
    let wave = wave_of(n2);
    let first = Prefix::NORMAL.useful_start(start as usize, 0, 6);
    correlation(recording, first, n2, &wave).quotient(signal_power(n2))
}

// Returns the identity of the cell within its group, 0 to 2, which is the root of its PSS.
fn root_of(cell: &Cell) -> u8
    ensures value { result ≡ cell.now.identity % 3 }
    ensures small { result ≤ 2 }
{
    (cell.plan().identity % 3) as u8
}

// Returns the elements of a symbol that holds only the PSS of root `n2`.
fn grid_of(n2: u8) -> [Cpx; SUBCARRIERS]
    requires { n2 ≤ 2 }
    ensures { result ≡ values_below subcarriers (pss_grid n2) }
{
    in_middle(&pss(n2))
}

// Returns the useful part of a symbol that holds only the PSS of root `n2`: 128 samples.
fn wave_of(n2: u8) -> [Cpx; USEFUL_LENGTH]
    requires { n2 ≤ 2 }
    ensures value { result ≡ wave_list n2 }
    ensures small { All (IsWithin 1415) result }
{
    let grid = grid_of(n2);
    synth(&grid)
}

// Returns `sample` times the conjugate of `signal`.
fn term(sample: Sample, signal: Cpx) -> Cpx
    requires { IsWithin 1415 signal }
    ensures value { result ≡ times (value_of sample) (conjugate signal) }
    ensures small { IsWithin (2 ^ 27) result }
{
    Cpx::from(sample).mul(signal.conj())
}

// Returns the correlation of the 128 samples from index `first` with `signal`.
fn correlation(recording: &Recording, first: usize, n2: u8, signal: &[Cpx; USEFUL_LENGTH]) -> Cpx
    requires inside { first + useful_length ≤ length recording.now }
    requires signal { signal.now ≡ wave_list n2 }
    requires small { All (IsWithin 1415) signal.now }
    ensures value { result ≡ correlation_below useful_length (λ n. sample_at recording.now (first + n)) (wave n2) }
    ensures small { IsWithin (2 ^ 34) result }
{
    let count = recording.len();
    prove!(count <= 1_920_000);
    let mut sum = Cpx::ZERO;
    for n in 0..USEFUL_LENGTH {
        sum = sum + term(recording.get(first + n), signal[n]);
    }
    sum
}

//! The forward transform: 128 samples to 72 subcarriers, folded by W's symmetries.

ghost use Rattle.std.specs.Prelude.{◌≡◌, ◌<◌, ◌≤◌, ◌+ℤ◌, ◌*ℤ◌, All, nat_abs};
ghost use Rattle.cs_num.specs.Complex.{IsWithin, sample_at};
ghost use Rattle.cs_num.specs.Sums.{complex_sum_below};
ghost use Rattle.fold128.specs.Spectrum.{spectrum};
ghost use Rattle.fold128.specs.Folding.{folded_places, AreWithin, back_by, opposite as opposite_at, mirror_at, mirrors, mirrored, mirrored_term, IsSmallMirror};
ghost use Rattle.lte_types.specs.Numerology.{useful_length};

use crate::quartet::{Quartet, fold_four};
use crate::symbol::frequency_of;
use crate::tables::w;
use cs_num::{Cpx, Sample};
use lte_types::{SUBCARRIERS, USEFUL_LENGTH};

// The combined term of the indices m and 32 - m: the factors that multiply W's real and imaginary part.
#[derive(Clone, Copy)]
struct Mirror {
    real: Cpx,
    imaginary: Cpx,
}

impl Mirror {
    const EMPTY: Mirror = Mirror {
        real: Cpx::ZERO,
        imaginary: Cpx::ZERO,
    };
}

/// Computes the unnormalised DFT of a symbol's 128 samples on the 72 subcarriers, without rounding. Components of the
/// result have magnitude at most 97,182,023,680.
pub fn transform(samples: &[Sample; USEFUL_LENGTH]) -> [Cpx; SUBCARRIERS]
    ensures value { result ≡ spectrum (sample_at samples.now) }
    ensures small { All (IsWithin 97182023680) result }
{
    let folded = fold(samples);
    let rows = [
        mirrors_of(&folded, 0),
        mirrors_of(&folded, 1),
        mirrors_of(&folded, 2),
        mirrors_of(&folded, 3),
    ];
    let mut out = [Cpx::ZERO; SUBCARRIERS];
    for k in 0..SUBCARRIERS {
        let frequency = frequency_of(k);
        out[k] = mirrored_sum(&rows[frequency % 4], frequency);
    }
    out
}

// Folds the samples to 32 quartets.
fn fold(samples: &[Sample; USEFUL_LENGTH]) -> [Quartet; 32]
    ensures value { result ≡ folded_places (sample_at samples.now) }
    ensures small { All (AreWithin 131072) result }
{
    let mut folded = [Quartet::EMPTY; 32];
    for m in 0..32 {
        folded[m] = fold_four(
            samples[m].into(),
            samples[m + 32].into(),
            samples[m + 64].into(),
            samples[m + 96].into(),
        );
    }
    folded
}

// Multiplies `z` by -j, `turns` times.
fn back(z: Cpx, turns: usize) -> Cpx
    requires small { IsWithin 131072 z }
    requires turns { turns < 4 }
    ensures { result ≡ back_by turns z }
{
    match turns {
        0 => z,
        1 => z.times_minus_j(),
        2 => -z,
        _ => z.times_j(),
    }
}

// Returns the number opposite index `m` for `residue`: that at index 32 - m with its phase corrected, or 0 for the
// indices 0 and 16.
fn opposite_of(folded: &[Quartet; 32], residue: usize, m: usize) -> Cpx
    requires small { All (AreWithin 131072) folded.now }
    requires residue { residue < 4 }
    requires m { m ≤ 16 }
    ensures value { result ≡ opposite_at folded.now residue m }
    ensures small { IsWithin 131072 result }
{
    if m % 16 == 0 {
        return Cpx::ZERO;
    }
    back(folded[32 - m].of_residue(residue), residue)
}

// Combines index `m` with its opposite, for the frequencies of a residue.
fn mirror_of(folded: &[Quartet; 32], residue: usize, m: usize) -> Mirror
    requires small { All (AreWithin 131072) folded.now }
    requires residue { residue < 4 }
    requires m { m ≤ 16 }
    ensures value { result ≡ mirror_at folded.now residue m }
    ensures small { IsSmallMirror result }
{
    let here = folded[m].of_residue(residue);
    let opposite = opposite_of(folded, residue, m);
    let real = here + opposite;
    let difference = here - opposite;
    Mirror {
        real,
        imaginary: difference.times_minus_j(),
    }
}

// Combines the indices 0 to 16 with their opposites, for the frequencies of a residue.
fn mirrors_of(folded: &[Quartet; 32], residue: usize) -> [Mirror; 17]
    requires small { All (AreWithin 131072) folded.now }
    requires residue { residue < 4 }
    ensures value { result ≡ mirrors folded.now residue }
    ensures small { All IsSmallMirror result }
{
    let mut row = [Mirror::EMPTY; 17];
    for m in 0..17 {
        row[m] = mirror_of(folded, residue, m);
    }
    row
}

// Returns the DFT at `frequency` as a sum of 17 combined terms.
fn mirrored_sum(row: &[Mirror; 17], frequency: usize) -> Cpx
    requires small { All IsSmallMirror row.now }
    requires frequency { frequency < useful_length }
    ensures { result ≡ complex_sum_below 17 (mirrored_term row.now frequency) }
{
    let mut sum = Cpx::ZERO;
    for m in 0..17 {
        sum = sum + product(row[m], w(frequency * m));
    }
    sum
}

// Returns a combined term's contribution to the DFT, where `w` is W's value at the term's index.
fn product(mirror: Mirror, w: Cpx) -> Cpx
    requires mirror { IsSmallMirror mirror }
    requires w { IsWithin 16384 w }
    ensures { result ≡ mirrored mirror w }
{
    let Mirror { real, imaginary } = mirror;
    Cpx {
        re: component(real.re, w.re, imaginary.re, w.im),
        im: component(real.im, w.re, imaginary.im, w.im),
    }
}

// Returns one component, real or imaginary, of a combined term's contribution.
fn component(real: i64, cosine: i64, imaginary: i64, sine: i64) -> i64
    requires real { nat_abs real ≤ 262144 }
    requires cosine { nat_abs cosine ≤ 16384 }
    requires imaginary { nat_abs imaginary ≤ 262144 }
    requires sine { nat_abs sine ≤ 16384 }
    ensures { result ≡ real *ℤ cosine +ℤ imaginary *ℤ sine }
{
    real * cosine + imaginary * sine
}

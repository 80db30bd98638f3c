//! Folding samples a quarter symbol apart, and sums over folded samples.

ghost use Rattle.std.specs.Prelude.{◌≡◌, ◌+◌, ◌*◌, ◌/◌, ◌%◌, ◌^◌, ◌<◌, ◌≤◌, All, IfOk, length};
ghost use Rattle.cs_num.specs.Complex.{IsWithin, conjugate, sample_at, times};
ghost use Rattle.cs_num.specs.Sums.{complex_sum_below};
ghost use Rattle.fold128.specs.Folding.{seen_of_four};
ghost use Rattle.tones.specs.Folding.{folded_at, folded_samples, folded_term};

use crate::Tones;
use cs_num::{Cpx, Sample};
use std::alloc::{AllocError, Global};

// Folds a symbol's samples: returns the numbers of each residue, one residue after the other.
pub(crate) fn fold(alloc: Global, samples: &[Sample]) -> Result<Vec<Cpx>, AllocError>
    requires some { 4 ≤ length samples.now }
    requires quarters { length samples.now % 4 ≡ 0 }
    ensures value { IfOk result (λ folded.
        folded.items ≡ folded_samples (length samples.now / 4) (sample_at samples.now)) }
    ensures small { IfOk result (λ folded. All (IsWithin 131072) folded.items) }
{
    let quarter = samples.len() / 4;
    let mut folded = Vec::with_capacity(alloc, samples.len())?;
    for n in 0..samples.len() {
        folded.push(number_at(samples, quarter, n))?;
    }
    Ok(folded)
}

// Returns folded number `n`.
fn number_at(samples: &[Sample], quarter: usize, n: usize) -> Cpx
    requires some { 1 ≤ quarter }
    requires all { length samples.now ≡ 4 * quarter }
    requires n { n < 4 * quarter }
    ensures value { result ≡ folded_at quarter (sample_at samples.now) n }
    ensures small { IsWithin 131072 result }
{
    let m = n % quarter;
    four(
        n / quarter,
        samples[m].into(),
        samples[m + quarter].into(),
        samples[m + 2 * quarter].into(),
        samples[m + 3 * quarter].into(),
    )
}

// Returns the contribution of four samples a quarter symbol apart to the frequencies with a residue modulo 4.
fn four(residue: usize, a: Cpx, b: Cpx, c: Cpx, d: Cpx) -> Cpx
    requires residue { residue < 4 }
    requires a { IsWithin 32768 a }
    requires b { IsWithin 32768 b }
    requires c { IsWithin 32768 c }
    requires d { IsWithin 32768 d }
    ensures value { result ≡ seen_of_four residue a b c d }
    ensures small { IsWithin 131072 result }
{
    let sum = a + c;
    let other = b + d;
    let difference = a - c;
    let across = b - d;
    let turned = across.times_minus_j();
    match residue {
        0 => sum + other,
        1 => difference + turned,
        2 => sum - other,
        _ => difference - turned,
    }
}

// Returns the sum over a residue's numbers, if T's index advances by `step` per number.
pub(crate) fn tone_sum(tones: &Tones, row: &[Cpx], step: usize) -> Cpx
    requires row { All (IsWithin 131072) row.now }
    requires few { length row.now ≤ 512 }
    requires step { step < 2048 }
    ensures value { result ≡ complex_sum_below (length row.now) (folded_term row.now step) }
    ensures small { IsWithin (length row.now * 2 ^ 36) result }
{
    let mut sum = Cpx::ZERO;
    let mut at = 0;
    for m in 0..row.len() {
        sum = sum + product(row[m], tones.at(at));
        at = (at + step) % 2048;
    }
    sum
}

// Returns a number times the conjugate of an entry of T.
fn product(number: Cpx, tone: Cpx) -> Cpx
    requires number { IsWithin 131072 number }
    requires tone { IsWithin 262144 tone }
    ensures value { result ≡ times number (conjugate tone) }
    ensures small { IsWithin (2 ^ 36) result }
{
    number.mul(tone.conj())
}

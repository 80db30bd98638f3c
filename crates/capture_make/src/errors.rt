//! The errors of a recording.

ghost use Rattle.std.specs.Prelude.{◌≡◌, ◌≤◌, ◌+◌, ◌*◌, All, nat_abs};
ghost use Rattle.cs_num.specs.Complex.{IsWithin, plus, value_of, sample_of};
ghost use Rattle.rand_pcg.specs.Pcg.{pcg32};
ghost use Rattle.capture_make.specs.Errors.{drawn, with_errors};

use cs_num::Sample;
use rand_core::utils::NextWord;
use rand_pcg::Lcg64Xsh32;

// Draws a number from `-bound` to `bound` with one output of the generator.
fn draw(words: &mut Lcg64Xsh32, bound: u16) -> i16
    requires { bound ≤ 56 }
    ensures value { result ≡ drawn bound (pcg32 words.old).0 }
    ensures next { words.new ≡ (pcg32 words.old).1 }
    ensures small { nat_abs result ≤ 56 }
{
    (words.next_word() % (2 * bound as u32 + 1)) as i16 - bound as i16
}

// Draws the error of a sample, real component first.
fn draw_error(words: &mut Lcg64Xsh32, bound: u16) -> Sample
    requires { bound ≤ 56 }
    ensures re { result.re ≡ drawn bound (pcg32 words.old).0 }
    ensures im { result.im ≡ drawn bound (pcg32 (pcg32 words.old).1).0 }
    ensures next { words.new ≡ (pcg32 (pcg32 words.old).1).1 }
    ensures small { IsWithin 56 (value_of result) }
{
    let re = draw(words, bound);
    let im = draw(words, bound);
    Sample { re, im }
}

// Returns sample `clean` plus `error`, component by component.
fn with_error(clean: Sample, error: Sample) -> Sample
    requires clean { IsWithin 32284 (value_of clean) }
    requires error { IsWithin 56 (value_of error) }
    ensures { result ≡ sample_of (plus (value_of clean) (value_of error)) }
{
    Sample {
        re: clean.re + error.re,
        im: clean.im + error.im,
    }
}

/// Adds the errors of recording `n` to `samples`, whose components have magnitudes up to 32,284. Error components have
/// magnitudes up to `bound`, which is at most 56.
pub(crate) fn add_errors(n: u32, bound: u16, samples: &mut [Sample])
    requires bound { bound ≤ 56 }
    requires room { All (λ s. IsWithin 32284 (value_of s)) samples.old }
    ensures { samples.new ≡ with_errors n bound samples.old }
{
    let mut words = Lcg64Xsh32::new(n as u64, 1);
    for i in 0..samples.len() {
        samples[i] = with_error(samples[i], draw_error(&mut words, bound));
    }
}

//! Correlations with the three primary signals. The signals with roots 29 and 34 are conjugates of each other except at
//! two samples, so they share their products.

ghost use Rattle.std.specs.Prelude.{◌≡◌, ℕ, ◌+◌, ◌*◌, ◌^◌, ◌<◌, ◌≤◌, All, length, nat_abs};
ghost use Rattle.finite.specs.Sizes.{AllWithin};
ghost use Rattle.finite.specs.Sums.{sum_below};
ghost use Rattle.cs_num.specs.Complex.{IsWithin, sample_at};
ghost use Rattle.pss_search.specs.Products.{IsStretchOf, product_at, dot_of, products_of, wave_part};
ghost use Rattle.pss_search.specs.Products.{with_conjugate_of, with_signal_of, correlations_at};
ghost use Rattle.pss_search.specs.Steps.{AreSmallProducts};
ghost use Rattle.lte_types.specs.Numerology.{useful_length};

use crate::signals::part_of;
use cs_num::{Cpx, Sample};
use lte_types::USEFUL_LENGTH;

// 256 samples of a recording from sample `from`, with real and imaginary parts in separate arrays, so that the
// processor can load eight at once.
#[derive(Clone, Copy)]
pub(crate) struct Stretch {
    pub from: usize,
    pub re: [i16; 256],
    pub im: [i16; 256],
}

impl Stretch {
    // Returns the stretch of 256 samples from sample `t`.
    pub(crate) fn new(samples: &[Sample], t: usize) -> Self
        requires { t + 256 ≤ length samples.now }
        ensures held { IsStretchOf samples.now result }
        ensures from { result.from ≡ t }
    {
        let mut re = [0; 256];
        let mut im = [0; 256];
        for n in 0..256 {
            re[n] = samples[t + n].re;
            im[n] = samples[t + n].im;
        }
        Stretch { from: t, re, im }
    }

    // Moves the stretch to sample `t` unless it holds all 128 samples from `t`.
    pub(crate) fn reach(&mut self, samples: &[Sample], t: usize)
        requires room { t + 256 ≤ length samples.now }
        requires held { IsStretchOf samples.now self.old }
        requires forward { self.old.from ≤ t }
        ensures held { IsStretchOf samples.now self.new }
        ensures first { self.new.from ≤ t }
        ensures last { t ≤ self.new.from + useful_length }
    {
        if self.from + 128 < t {
            *self = Stretch::new(samples, t);
        }
    }
}

// Returns the dot product of 128 values from `o` with list `part` of the signals' samples. The sum fits 32 bits in any
// order of addition, since 128 * 32,768 * 255 is below 2^31. Not inlined, and the list is known only at run time, so
// the compiler adds the 16-bit products in pairs. With a constant list, products with 0, 1 and powers of two would
// become other instructions that cannot share a vector.
#[inline(never)]
fn dot(values: &[i16; 256], o: usize, part: usize) -> i32
    requires o { o ≤ useful_length }
    requires part { part < 4 }
    ensures value { result ≡ dot_of values.now o (wave_part part) }
    ensures small { nat_abs result ≤ 1069547520 }
{
    let signal = part_of(part);
    row_sum(values, o, signal, 0)
        + row_sum(values, o, signal, 1)
        + row_sum(values, o, signal, 2)
        + row_sum(values, o, signal, 3)
}

// Returns the sum of products `32 * k` to `32 * k + 31` of a dot product from `o`.
#[inline(always)]
fn row_sum(values: &[i16; 256], o: usize, signal: &[i16; USEFUL_LENGTH], k: usize) -> i32
    requires o { o ≤ useful_length }
    requires signal { AllWithin 255 signal.now }
    requires k { k < 4 }
    ensures value { result ≡ sum_below 32 (λ n. product_at values.now o signal.now (32 * k + n)) }
    ensures small { nat_abs result ≤ 267386880 }
{
    let mut sum: i32 = 0;
    for n in 0..32 {
        sum += product(values, o, signal, 32 * k + n);
    }
    sum
}

// Returns product `n` of a dot product: `values[o + n]` times `signal[n]`.
#[inline(always)]
fn product(values: &[i16; 256], o: usize, signal: &[i16; USEFUL_LENGTH], n: usize) -> i32
    requires o { o ≤ useful_length }
    requires signal { AllWithin 255 signal.now }
    requires n { n < useful_length }
    ensures value { result ≡ product_at values.now o signal.now n }
    ensures small { nat_abs result ≤ 8355840 }
{
    values[o + n] as i32 * signal[n] as i32
}

// The four dot products of 128 samples' real and imaginary parts with a signal's real and imaginary parts. In each
// name, the samples' part comes first.
#[derive(Clone, Copy)]
struct ProductSums {
    re_re: i32,
    im_im: i32,
    im_re: i32,
    re_im: i32,
}

// Returns the dot products of a stretch's 128 samples from `o` with the signal whose real parts are list `part` and
// whose imaginary parts are the next list.
#[inline(always)]
fn product_sums(stretch: &Stretch, o: usize, part: usize) -> ProductSums
    requires o { o ≤ useful_length }
    requires part { part + 1 < 4 }
    ensures value { result ≡ products_of stretch.now o (wave_part part) (wave_part (part + 1)) }
    ensures small { AreSmallProducts result }
{
    ProductSums {
        re_re: dot(&stretch.re, o, part),
        im_im: dot(&stretch.im, o, part + 1),
        im_re: dot(&stretch.im, o, part),
        re_im: dot(&stretch.re, o, part + 1),
    }
}

impl ProductSums {
    // Returns the correlation with the signal: the sum of samples times the signal's conjugate.
    fn with_conjugate(&self) -> Cpx
        requires { AreSmallProducts self.now }
        ensures value { result ≡ with_conjugate_of self.now }
        ensures small { IsWithin 2139095040 result }
    {
        Cpx {
            re: (self.re_re + self.im_im) as i64,
            im: (self.im_re - self.re_im) as i64,
        }
    }

    // Returns the sum of samples times the signal itself: the correlation with its conjugate.
    fn with_signal(&self) -> Cpx
        requires { AreSmallProducts self.now }
        ensures value { result ≡ with_signal_of self.now }
        ensures small { IsWithin 2139095040 result }
    {
        Cpx {
            re: (self.re_re - self.im_im) as i64,
            im: (self.im_re + self.re_im) as i64,
        }
    }
}

// Returns the correlations at position `t` with the three primary signals. The signal with root 34 is the conjugate of
// that with root 29, plus j at samples 0 and 64.
#[inline(always)]
pub(crate) fn correlations(samples: &[Sample], t: usize, stretch: &Stretch) -> [Cpx; 3]
    requires room { t + useful_length ≤ length samples.now }
    requires held { IsStretchOf samples.now stretch.now }
    requires from { stretch.now.from ≤ t }
    requires reached { t ≤ stretch.now.from + useful_length }
    ensures value { result ≡ correlations_at samples.now t }
    ensures small { All (IsWithin (2 ^ 31)) result }
{
    let o = t - stretch.from;
    let own = product_sums(stretch, o, 0);
    let shared = product_sums(stretch, o, 2);
    let ends = Cpx::from(samples[t]) + Cpx::from(samples[t + 64]);
    [
        own.with_conjugate(),
        shared.with_conjugate(),
        shared.with_signal() - ends.times_j(),
    ]
}

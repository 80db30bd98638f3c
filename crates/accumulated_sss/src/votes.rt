//! The votes of one half-frame on the signs of the secondary signal.

ghost use Rattle.std.specs.Prelude.{◌≡◌, ◌+◌, ◌^◌, ◌≤◌, All, length, nat_abs};
ghost use Rattle.finite.specs.Sizes.{AllWithin};
ghost use Rattle.finite.specs.Lists.{values_below};
ghost use Rattle.cs_num.specs.Complex.{IsWithin, times, conjugate, square, value_of};
ghost use Rattle.lte_types.specs.Numerology.{normal, symbol_step, useful_length};
ghost use Rattle.pss_search.specs.Correlation.{energy, wave_list};
ghost use Rattle.pss_search.specs.Products.{correlation_at};
ghost use Rattle.accumulated_sss.specs.Votes.{both_energies, product as product_at, vote_of};
ghost use Rattle.accumulated_sss.specs.Steps.{product_of, products_of, votes_of};

use cs_num::{Cpx, Sample};
use lte_types::{Prefix, SUBCARRIERS, USEFUL_LENGTH};
use observe::symbol;
use sample_file::Recording;
use sync_seq::MIDDLE;

// Returns the 62 products of the demodulated secondary symbol with the correlation z, if the primary symbol's useful
// part begins at sample `at`; `wave` is the primary signal `n2`.
pub(crate) fn products(
    recording: &Recording,
    at: usize,
    n2: u8,
    wave: &[Cpx; USEFUL_LENGTH],
) -> [i64; 62]
    requires before { symbol_step normal ≤ at }
    requires within { at + useful_length ≤ length recording.now }
    requires member { n2 ≤ 2 }
    requires wave { wave.now ≡ wave_list n2 }
    ensures value { result ≡ values_below 62 (product_at recording.now n2 at) }
    ensures small { AllWithin (2 ^ 57) result }
{
    let z = correlation(recording.as_slice(), at, n2, wave);
    products_with(&symbol(recording, at - Prefix::NORMAL.step()), z)
}

// Returns the energy of the secondary symbol and of the primary symbol, whose useful part begins at sample `at`.
pub(crate) fn energy_of_both(recording: &Recording, at: usize) -> u64
    requires before { symbol_step normal ≤ at }
    requires within { at + useful_length ≤ length recording.now }
    ensures value { result ≡ both_energies recording.now at }
    ensures small { result ≤ 2 ^ 39 }
{
    let samples = recording.as_slice();
    energy_at(samples, at) + energy_at(samples, at - Prefix::NORMAL.step())
}

// Returns the 62 votes for products and the energy of both symbols.
pub(crate) fn votes_for(products: &[i64; 62], energy: u64) -> [i64; 62]
    requires products { AllWithin (2 ^ 57) products.now }
    requires energy { energy ≤ 2 ^ 39 }
    ensures value { result ≡ votes_of energy products.now }
    ensures small { AllWithin (2 ^ 57) result }
{
    let mut out = [0; 62];
    for n in 0..62 {
        out[n] = vote(products[n], energy);
    }
    out
}

// Returns the vote for one product.
fn vote(product: i64, energy: u64) -> i64
    requires product { nat_abs product ≤ 2 ^ 57 }
    requires energy { energy ≤ 2 ^ 39 }
    ensures value { result ≡ vote_of energy product }
    ensures small { nat_abs result ≤ 2 ^ 57 }
{
    product / (energy / 4_096 + 1) as i64
}

// Returns z, the correlation of the 128 samples from index `at` with the primary signal `n2`, which is `wave`.
fn correlation(samples: &[Sample], at: usize, n2: u8, wave: &[Cpx; USEFUL_LENGTH]) -> Cpx
    requires within { at + useful_length ≤ length samples.now }
    requires member { n2 ≤ 2 }
    requires wave { wave.now ≡ wave_list n2 }
    ensures value { result ≡ correlation_at samples.now at n2 }
    ensures small { IsWithin 2139095040 result }
{
    let mut sum = Cpx::ZERO;
    for n in 0..USEFUL_LENGTH {
        sum = sum + term(samples[at + n], wave[n]);
    }
    sum
}

// Returns `sample` times the conjugate of `value`.
fn term(sample: Sample, value: Cpx) -> Cpx
    requires { IsWithin 255 value }
    ensures value { result ≡ times (value_of sample) (conjugate value) }
    ensures small { IsWithin 16711680 result }
{
    Cpx::from(sample).mul(value.conj())
}

// Returns the products of a demodulated symbol with z.
fn products_with(seen: &[Cpx; SUBCARRIERS], z: Cpx) -> [i64; 62]
    requires seen { All (IsWithin 23726080) seen.now }
    requires z { IsWithin 2139095040 z }
    ensures value { result ≡ products_of seen.now z }
    ensures small { AllWithin (2 ^ 57) result }
{
    let mut out = [0; 62];
    for n in 0..62 {
        out[n] = product(seen[n + MIDDLE], z);
    }
    out
}

// Returns the product of one demodulated value with z.
fn product(value: Cpx, z: Cpx) -> i64
    requires value { IsWithin 23726080 value }
    requires z { IsWithin 2139095040 z }
    ensures value { result ≡ product_of value z }
    ensures small { nat_abs result ≤ 2 ^ 57 }
{
    let conjugate = z.conj();
    value.mul(conjugate).re
}

// Returns the energy of the 128 samples from index `at`.
fn energy_at(samples: &[Sample], at: usize) -> u64
    requires { at + useful_length ≤ length samples.now }
    ensures value { result ≡ energy samples.now at }
    ensures small { result ≤ 2 ^ 38 }
{
    let mut sum = 0;
    for n in 0..USEFUL_LENGTH {
        sum += square_of(samples[at + n]);
    }
    sum
}

// Returns a sample's squared magnitude.
fn square_of(sample: Sample) -> u64
    ensures value { result ≡ square (value_of sample) }
    ensures small { result ≤ 2 ^ 31 }
{
    let re = sample.re.unsigned_abs() as u64;
    let im = sample.im.unsigned_abs() as u64;
    re * re + im * im
}

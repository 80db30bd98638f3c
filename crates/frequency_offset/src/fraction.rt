//! Energy fractions of hits.

ghost use Rattle.std.specs.Prelude.{◌≡◌, All, fold};
ghost use Rattle.frequency_offset.specs.Fractions.{fraction_of as fraction_of_hit, whole as whole_of, is_less as is_less_than};
ghost use Rattle.frequency_offset.specs.Fractions.{greater, greatest, IsSmall};
ghost use Rattle.frequency_offset.specs.Steps.{IsSmallHit};

use lte_types::Hit;
use pss_search::signal_power;

/// The fraction `peak / (energy * power)` of a hit. (own)
#[derive(Clone, Copy, Debug, PartialEq, Eq)]
pub struct Fraction {
    /// The squared magnitude of the correlation with the PSS.
    pub peak: u64,
    /// The energy of the hit's 128 samples.
    pub energy: u64,
    /// The power of the PSS.
    pub power: u64,
}

impl Fraction {
    // Returns the fraction's denominator, `energy * power`.
    fn whole(&self) -> u64
        requires { IsSmall self.now }
        ensures { result ≡ whole_of self.now }
    {
        self.energy * self.power
    }
}

// Returns whether fraction `a` is less than fraction `b`.
pub(crate) fn is_less(a: &Fraction, b: &Fraction) -> bool
    requires first { IsSmall a.now }
    requires second { IsSmall b.now }
    ensures { result ≡ is_less_than a.now b.now }
{
    let here = (a.peak as u128) * (b.whole() as u128);
    here < (b.peak as u128) * (a.whole() as u128)
}

// Returns the fraction of the hit's energy that belongs to the PSS.
pub(crate) fn fraction_of(hit: &Hit) -> Fraction
    requires { IsSmallHit hit.now }
    ensures value { result ≡ fraction_of_hit hit.now }
    ensures small { IsSmall result }
{
    Fraction {
        peak: hit.peak as u64,
        energy: hit.energy,
        power: signal_power(hit.n2),
    }
}

// Returns the hit with the largest fraction; the earliest on a tie, none if `hits` is empty.
pub(crate) fn best_hit(hits: &[Hit]) -> Option<Hit>
    requires { All IsSmallHit hits.now }
    ensures { result ≡ greatest fraction_of_hit hits.now }
{
    match hits.split_first() {
        Some((first, rest)) => Some(best_of(first, rest)),
        None => None,
    }
}

// Returns the hit with the largest fraction among `first` and `rest`; the earliest on a tie.
fn best_of(first: &Hit, rest: &[Hit]) -> Hit
    requires first { IsSmallHit first.now }
    requires rest { All IsSmallHit rest.now }
    ensures { result ≡ fold (greater fraction_of_hit) first.now rest.now }
{
    let mut best = *first;
    for hit in rest {
        best = stronger_hit(&best, hit);
    }
    best
}

// Returns whichever hit has the larger fraction; `first` on a tie.
fn stronger_hit(first: &Hit, second: &Hit) -> Hit
    requires first { IsSmallHit first.now }
    requires second { IsSmallHit second.now }
    ensures value { result ≡ greater fraction_of_hit first.now second.now }
    ensures small { IsSmallHit result }
{
    if is_less(&fraction_of(first), &fraction_of(second)) {
        *second
    } else {
        *first
    }
}

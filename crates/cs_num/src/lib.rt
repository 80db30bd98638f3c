//! Complex integers: 16-bit IQ samples, exact sums and products in `i64`, and the receiver's rounding. The result of
//! every call is exact under the condition in its comment.
//! Tests: the crate `low_tests`.
#![tactic(auto)]

ghost use Rattle.std.specs.Prelude.{◌≡◌, ◌+◌, ◌*◌, ◌^◌, ◌<◌, ◌≤◌, pos, ◌≤ℤ◌, ◌<ℤ◌, nat_abs, int_div};
ghost use Rattle.cs_num.specs.Complex.{IsWithin, value_of, sample_of, plus, minus, negated, multiple, times, times_j as times_j_of, times_minus_j as times_minus_j_of, conjugate, square, largest_part};
ghost use Rattle.cs_num.specs.Rounding.{clamped, round_shifted, rounded, rounded_quotient as rounded_quotient_of, quotient as quotient_of, in_16_bits as in_16_bits_of, nearest_sample as nearest_sample_of};

mod gain;

pub use gain::Gain;
use std::ops::{Add, Neg, Sub};

/// A sample of a recording: in-phase and quadrature components of 16 bits.
#[derive(Clone, Copy, Debug, PartialEq, Eq)]
pub struct Sample {
    pub re: i16,
    pub im: i16,
}

/// A complex integer.
#[derive(Clone, Copy, Debug, PartialEq, Eq)]
pub struct Cpx {
    pub re: i64,
    pub im: i64,
}

/// The sample as a complex integer, with components of magnitude at most 32,768.
impl From<Sample> for Cpx {
    ghost from_gives = { λ s z. (z ≡ value_of s) × IsWithin 32768 z };

    fn from(sample: Sample) -> Cpx {
        Cpx {
            re: sample.re as i64,
            im: sample.im as i64,
        }
    }
}

/// Addition. The maximum component magnitudes of the two numbers add up to less than 2^63.
impl Add for Cpx {
    type Output = Cpx;

    ghost can_add = { λ a b. largest_part a + largest_part b < 2 ^ 63 };

    ghost add_gives = { λ a b z. z ≡ plus a b };

    fn add(self, other: Cpx) -> Cpx {
        Cpx {
            re: self.re + other.re,
            im: self.im + other.im,
        }
    }
}

/// Subtraction. The maximum component magnitudes of the two numbers add up to less than 2^63.
impl Sub for Cpx {
    type Output = Cpx;

    ghost can_sub = { λ a b. largest_part a + largest_part b < 2 ^ 63 };

    ghost sub_gives = { λ a b z. z ≡ minus a b };

    fn sub(self, other: Cpx) -> Cpx {
        Cpx {
            re: self.re - other.re,
            im: self.im - other.im,
        }
    }
}

/// Negation. Neither component may be `i64::MIN`.
impl Neg for Cpx {
    type Output = Cpx;

    ghost can_neg = { λ a. largest_part a < 2 ^ 63 };

    ghost neg_gives = { λ a z. z ≡ negated a };

    fn neg(self) -> Cpx {
        let Cpx { re, im } = self;
        Cpx { re: -re, im: -im }
    }
}

impl Cpx {
    /// Zero.
    pub const ZERO: Cpx = Cpx { re: 0, im: 0 };

    /// Multiplies two numbers. The product of their maximum component magnitudes is at most 2^61.
    pub fn mul(self, other: Cpx) -> Cpx
        requires { largest_part self * largest_part other ≤ 2 ^ 61 }
        ensures { result ≡ times self other }
    {
        Cpx {
            re: self.re * other.re - self.im * other.im,
            im: self.re * other.im + self.im * other.re,
        }
    }

    /// Returns the complex conjugate. The imaginary part must not be `i64::MIN`.
    pub fn conj(self) -> Cpx
        requires { nat_abs self.im < 2 ^ 63 }
        ensures { result ≡ conjugate self }
    {
        Cpx {
            re: self.re,
            im: -self.im,
        }
    }

    /// Multiplies by `j`. The imaginary part must not be `i64::MIN`.
    pub fn times_j(self) -> Cpx
        requires { nat_abs self.im < 2 ^ 63 }
        ensures { result ≡ times_j_of self }
    {
        Cpx {
            re: -self.im,
            im: self.re,
        }
    }

    /// Multiplies by `-j`. The real part must not be `i64::MIN`.
    pub fn times_minus_j(self) -> Cpx
        requires { nat_abs self.re < 2 ^ 63 }
        ensures { result ≡ times_minus_j_of self }
    {
        Cpx {
            re: self.im,
            im: -self.re,
        }
    }

    /// Multiplies by `n`. The maximum component magnitude times `n` is below 2^63.
    pub fn scaled(self, n: u8) -> Cpx
        requires { n * largest_part self < 2 ^ 63 }
        ensures { result ≡ multiple n self }
    {
        Cpx {
            re: n as i64 * self.re,
            im: n as i64 * self.im,
        }
    }

    /// Returns the squared magnitude, `re^2 + im^2`, which is at most 2^127 and so always fits.
    pub fn norm(self) -> u128
        ensures { result ≡ square self }
    {
        let re = self.re.unsigned_abs() as u128;
        let im = self.im.unsigned_abs() as u128;
        re * re + im * im
    }

    /// Divides both components by `2^bits` and rounds to nearest, ties up. `bits` is 1 to 40, and components have
    /// magnitude at most 2^62.
    pub fn round_shift(self, bits: u32) -> Cpx
        requires bits { (1 ≤ bits) × (bits ≤ 40) }
        requires magnitude { largest_part self ≤ 2 ^ 62 }
        ensures { result ≡ rounded self bits }
    {
        Cpx {
            re: round_part(self.re, bits),
            im: round_part(self.im, bits),
        }
    }

    /// Divides both components by `divisor` and rounds to nearest, ties up. `divisor` is 1 to 2^61, and components
    /// have magnitude at most 2^61.
    pub fn quotient(self, divisor: u64) -> Cpx
        requires some { 0 < divisor }
        requires few { divisor ≤ 2 ^ 61 }
        requires magnitude { IsWithin (2 ^ 61) self }
        ensures { result ≡ quotient_of self divisor }
    {
        Cpx {
            re: rounded_quotient(self.re, divisor),
            im: rounded_quotient(self.im, divisor),
        }
    }

    /// Converts to a sample without loss. Components have magnitude at most 32,767.
    pub fn exact_sample(self) -> Sample
        requires { IsWithin 32767 self }
        ensures { result ≡ sample_of self }
    {
        Sample {
            re: self.re as i16,
            im: self.im as i16,
        }
    }

    /// Converts to the nearest sample by clamping each component to -32,768 to 32,767.
    pub fn nearest_sample(self) -> Sample
        ensures { result ≡ nearest_sample_of self }
    {
        Sample {
            re: in_16_bits(self.re),
            im: in_16_bits(self.im),
        }
    }
}

// Computes one component of `round_shift`.
fn round_part(x: i64, bits: u32) -> i64
    requires bits { (1 ≤ bits) × (bits ≤ 40) }
    requires magnitude { nat_abs x ≤ 2 ^ 62 }
    ensures { result ≡ round_shifted x bits }
{
    (x + (1i64 << (bits - 1))) >> bits
}

// Computes one component of `quotient`.
fn rounded_quotient(x: i64, divisor: u64) -> i64
    requires some { 0 < divisor }
    requires few { divisor ≤ 2 ^ 61 }
    requires magnitude { nat_abs x ≤ 2 ^ 61 }
    ensures { result ≡ rounded_quotient_of x divisor }
{
    (2 * x + divisor as i64).div_euclid(2 * divisor as i64)
}

// Computes one component of `nearest_sample`.
fn in_16_bits(x: i64) -> i16
    ensures { result ≡ in_16_bits_of x }
{
    x.clamp(-32_768, 32_767) as i16
}

/// Divides `top` by `bottom`, rounds toward zero, and clamps the quotient to `-limit` to `limit`. `bottom` is positive,
/// and `limit` is not negative.
pub fn clamp_div(top: i64, bottom: i64, limit: i16) -> i16
    requires bottom { pos 0 <ℤ bottom }
    requires limit { pos 0 ≤ℤ limit }
    ensures { result ≡ clamped (int_div top bottom) (nat_abs limit) }
{
    (top / bottom).clamp(-(limit as i64), limit as i64) as i16
}

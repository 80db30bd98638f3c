//! Combined amplitudes: complex integers of 128 bits.

ghost use Rattle.std.specs.Prelude.{◌≡◌, ◌*◌, ◌^◌, ◌≤◌};
ghost use Rattle.cs_num.specs.Complex.{IsWithin, plus, minus, times, conjugate};
ghost use Rattle.soft_bits.specs.Pairs.{first_point, second_point};

use cs_num::Cpx;
use std::marker::Model;

// A combined amplitude, whose components may need more than 64 bits. Contracts see a complex integer.
#[derive(Clone, Copy)]
pub(crate) struct Amplitude {
    re: i128,
    im: i128,
}

impl Model for Amplitude {
    ghost use Rattle.cs_num.specs.declared.Cpx.{Cpx as Number};

    ghost Value = { Number };

    ghost view = { λ a. record { re = a.re; im = a.im } };

    ghost inverse = { λ z. record { re = z.re; im = z.im } };
}

impl Amplitude {
    // Returns the real part.
    pub(crate) fn re(&self) -> i128
        ensures { result ≡ self.now.re }
    {
        self.re
    }

    // Returns the imaginary part.
    pub(crate) fn im(&self) -> i128
        ensures { result ≡ self.now.im }
    {
        self.im
    }

    // Returns the product of a channel and a received value.
    fn product(channel: Cpx, seen: Cpx) -> Amplitude
        requires channel { IsWithin (8640 * 2 ^ 25) channel }
        requires seen { IsWithin (2 ^ 25) seen }
        ensures value { result ≡ times channel seen }
        ensures small { IsWithin (17280 * 2 ^ 50) result }
    {
        Amplitude {
            re: channel.re as i128 * seen.re as i128 - channel.im as i128 * seen.im as i128,
            im: channel.re as i128 * seen.im as i128 + channel.im as i128 * seen.re as i128,
        }
    }

    // Returns the sum.
    fn plus(&self, other: &Amplitude) -> Amplitude
        requires small { IsWithin (17280 * 2 ^ 50) self.now }
        requires other { IsWithin (17280 * 2 ^ 50) other.now }
        ensures value { result ≡ plus self.now other.now }
        ensures small { IsWithin (34560 * 2 ^ 50) result }
    {
        Amplitude {
            re: self.re + other.re,
            im: self.im + other.im,
        }
    }

    // Returns the difference.
    fn minus(&self, other: &Amplitude) -> Amplitude
        requires small { IsWithin (17280 * 2 ^ 50) self.now }
        requires other { IsWithin (17280 * 2 ^ 50) other.now }
        ensures value { result ≡ minus self.now other.now }
        ensures small { IsWithin (34560 * 2 ^ 50) result }
    {
        Amplitude {
            re: self.re - other.re,
            im: self.im - other.im,
        }
    }

    // Returns a received value times the conjugate of its channel.
    pub(crate) fn of_one(channel: Cpx, seen: Cpx) -> Amplitude
        requires channel { IsWithin (8640 * 2 ^ 25) channel }
        requires seen { IsWithin (2 ^ 25) seen }
        ensures value { result ≡ times seen (conjugate channel) }
        ensures small { IsWithin (34560 * 2 ^ 50) result }
    {
        Amplitude::product(channel.conj(), seen)
    }

    // Returns the amplitude of a pair's first QPSK symbol, received as `a` and `b` over the channels `h` and `g`.
    pub(crate) fn first_of_pair(h: Cpx, g: Cpx, a: Cpx, b: Cpx) -> Amplitude
        requires h { IsWithin (8640 * 2 ^ 25) h }
        requires g { IsWithin (8640 * 2 ^ 25) g }
        requires a { IsWithin (2 ^ 25) a }
        requires b { IsWithin (2 ^ 25) b }
        ensures value { result ≡ first_point h g a b }
        ensures small { IsWithin (34560 * 2 ^ 50) result }
    {
        let one = Amplitude::product(h.conj(), a);
        let other = Amplitude::product(g, b.conj());
        one.plus(&other)
    }

    // Returns the amplitude of a pair's second QPSK symbol, received as `a` and `b` over the channels `h` and `g`.
    pub(crate) fn second_of_pair(h: Cpx, g: Cpx, a: Cpx, b: Cpx) -> Amplitude
        requires h { IsWithin (8640 * 2 ^ 25) h }
        requires g { IsWithin (8640 * 2 ^ 25) g }
        requires a { IsWithin (2 ^ 25) a }
        requires b { IsWithin (2 ^ 25) b }
        ensures value { result ≡ second_point h g a b }
        ensures small { IsWithin (34560 * 2 ^ 50) result }
    {
        let one = Amplitude::product(h.conj(), b);
        let other = Amplitude::product(g, a.conj());
        one.minus(&other)
    }
}

//! Gains: small complex integers by which a channel multiplies.

ghost use Rattle.std.specs.Prelude.{◌≡◌, IsSome, IfSome, ◌↔◌};
ghost use Rattle.cs_num.specs.Complex.{IsWithin};
ghost use Rattle.cs_num.specs.Gain.{IsGain, with_parts};

use crate::Cpx;
use std::marker::Model;

/// A complex integer of magnitude 1 to 28: its squared magnitude is 1 to 784. In contracts a gain is the complex
/// integer.
#[derive(Clone, Copy, Debug, PartialEq, Eq)]
pub struct Gain {
    re: i16,
    im: i16,
}

impl Model for Gain {
    ghost use Rattle.cs_num.specs.declared.Cpx.{Cpx as Number};
    ghost use Rattle.cs_num.specs.Gain.{IsGain, with_parts};

    ghost Value = { Number };

    ghost view = { λ gain. with_parts gain.re gain.im };

    ghost invariant = { λ gain. IsGain (with_parts gain.re gain.im) };

    ghost inverse = { λ z. record { re = z.re; im = z.im } };
}

impl Gain {
    /// Returns `number` as a gain, or `None` if its squared magnitude is not 1 to 784.
    pub fn of(number: Cpx) -> Option<Gain>
        ensures valid { IsSome result ↔ IsGain number }
        ensures value { IfSome result (λ gain. gain ≡ number) }
    {
        let square = number.norm();
        if 1 <= square && square <= 784 {
            Some(Gain {
                re: number.re as i16,
                im: number.im as i16,
            })
        } else {
            None
        }
    }

    /// Returns the gain `re + j im`, or `None` if its squared magnitude is not 1 to 784.
    pub fn new(re: i16, im: i16) -> Option<Gain>
        ensures valid { IsSome result ↔ IsGain (with_parts re im) }
        ensures value { IfSome result (λ gain. gain ≡ with_parts re im) }
    {
        Gain::of(Cpx {
            re: re as i64,
            im: im as i64,
        })
    }

    /// Returns the gain as a complex integer, with components of magnitude at most 28.
    pub fn value(self) -> Cpx
        ensures value { result ≡ self }
        ensures valid { IsGain self }
        ensures within { IsWithin 28 self }
    {
        Cpx {
            re: self.re as i64,
            im: self.im as i64,
        }
    }

    /// Returns the real part.
    pub fn re(self) -> i16
        ensures { result ≡ self.re }
    {
        self.re
    }

    /// Returns the imaginary part.
    pub fn im(self) -> i16
        ensures { result ≡ self.im }
    {
        self.im
    }
}

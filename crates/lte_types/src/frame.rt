//! Frame numbers and half-frames.

ghost use Rattle.std.specs.Prelude.{◌≡◌, ℕ, ◌%◌, ◌<◌, ◌≤◌, IsSome, IfSome, ◌↔◌};
ghost use Rattle.lte_types.specs.Numerology.{frame_length, subframe_of, primary_start as primary_start_of};

use crate::Prefix;
use std::marker::Model;

/// A system frame number, 0 to 1023 (TS 36.331 section 6.2.2). In contracts the value is the number.
#[derive(Clone, Copy, Debug, PartialEq, Eq)]
pub struct Sfn {
    value: u16,
}

impl Model for Sfn {
    ghost Value = { ℕ };

    ghost view = { λ s. s.value };

    ghost invariant = { λ s. s.value ≤ 1023 };

    ghost inverse = { λ n. record { value = n } };
}

impl Sfn {
    /// Returns the frame number `value`, or `None` if `value` is above 1023.
    pub fn new(value: u16) -> Option<Self>
        ensures valid { IsSome result ↔ (value ≤ 1023) }
        ensures value { IfSome result (λ sfn. sfn ≡ value) }
    {
        if value <= 1023 {
            Some(Sfn { value })
        } else {
            None
        }
    }

    /// Returns the frame number `count` frames after frame 0: `count` modulo 1,024.
    pub fn modulo(count: u64) -> Self
        ensures { result ≡ count % 1024 }
    {
        Sfn {
            value: (count % 1024) as u16,
        }
    }

    /// Returns the number, 0 to 1023.
    pub fn value(self) -> u16
        ensures value { result ≡ self }
        ensures valid { self ≤ 1023 }
    {
        self.value
    }
}

/// A half-frame, named after the subframe that carries its synchronisation signals: 0 or 5 (TS 36.211 section 6.11).
#[derive(Clone, Copy, Debug, PartialEq, Eq)]
pub enum Half {
    Zero,
    Five,
}

impl Half {
    /// Returns the first subframe of the half-frame, 0 or 5.
    pub fn subframe(self) -> u8
        ensures { result ≡ subframe_of self }
    {
        match self {
            Half::Zero => 0,
            Half::Five => 5,
        }
    }

    /// Returns the offset, in samples, from the start of a frame to the useful part of the half-frame's PSS: 832 or
    /// 10,432 (TS 36.211 section 6.11.1.2).
    pub fn primary_start(self) -> u32
        ensures value { result ≡ primary_start_of self }
        ensures inside { result < frame_length }
    {
        Prefix::NORMAL.useful_start(0, 2 * self.subframe() as usize, 6) as u32
    }
}

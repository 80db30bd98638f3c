//! The control format indicator.

ghost use Rattle.std.specs.Prelude.{◌≡◌, ℕ, ◌≤◌, IsSome, IfSome, ◌↔◌};

use std::marker::Model;

/// A control format indicator, 1 to 3 (TS 36.212 section 5.3.4). In contracts the value is the number.
#[derive(Clone, Copy, Debug, PartialEq, Eq)]
pub struct Cfi {
    value: u8,
}

impl Model for Cfi {
    ghost Value = { ℕ };

    ghost view = { λ c. c.value };

    ghost invariant = { λ c. (1 ≤ c.value) × (c.value ≤ 3) };

    ghost inverse = { λ n. record { value = n } };
}

impl Cfi {
    /// Returns the control format indicator `value`, or `None` if `value` is not 1, 2 or 3.
    pub fn new(value: u8) -> Option<Self>
        ensures valid { IsSome result ↔ ((1 ≤ value) × (value ≤ 3)) }
        ensures value { IfSome result (λ cfi. cfi ≡ value) }
    {
        if 1 <= value && value <= 3 {
            Some(Cfi { value })
        } else {
            None
        }
    }

    /// Returns the value, 1 to 3.
    pub fn value(self) -> u8
        ensures value { result ≡ self }
        ensures valid { (1 ≤ self) × (self ≤ 3) }
    {
        self.value
    }
}

//! Physical-layer cell identities.

ghost use Rattle.std.specs.Prelude.{◌≡◌, ℕ, ◌/◌, ◌%◌, ◌<◌, ◌≤◌, IsSome, IfSome, ◌↔◌};
ghost use Rattle.lte_types.specs.Identity.{cell_of};

use std::marker::Model;

/// A physical-layer cell identity, 0 to 503 (TS 36.211 section 6.11). In contracts the value is the number.
#[derive(Clone, Copy, Debug, PartialEq, Eq)]
pub struct CellId {
    value: u16,
}

impl Model for CellId {
    ghost Value = { ℕ };

    ghost view = { λ c. c.value };

    ghost invariant = { λ c. c.value ≤ 503 };

    ghost inverse = { λ n. record { value = n } };
}

impl CellId {
    /// Returns the cell identity with the number `value`, or `None` if `value` is above 503.
    pub fn new(value: u16) -> Option<Self>
        ensures valid { IsSome result ↔ (value ≤ 503) }
        ensures value { IfSome result (λ id. id ≡ value) }
    {
        if value <= 503 {
            Some(CellId { value })
        } else {
            None
        }
    }

    /// Returns the identity `3 * n1 + n2` from its group, 0 to 167, and its identity within the group, 0 to 2.
    pub fn of(n1: u16, n2: u8) -> Self
        requires group { n1 ≤ 167 }
        requires member { n2 ≤ 2 }
        ensures { result ≡ cell_of n1 n2 }
    {
        CellId {
            value: 3 * n1 + n2 as u16,
        }
    }

    /// Returns the number, 0 to 503.
    pub fn value(self) -> u16
        ensures value { result ≡ self }
        ensures valid { self ≤ 503 }
    {
        self.value
    }

    /// Returns the identity group, 0 to 167: the number divided by 3, rounded down.
    pub fn n1(self) -> u16
        ensures value { result ≡ self / 3 }
        ensures valid { result ≤ 167 }
    {
        self.value / 3
    }

    /// Returns the identity within the group, 0 to 2: the number modulo 3.
    pub fn n2(self) -> u16
        ensures value { result ≡ self % 3 }
        ensures valid { result ≤ 2 }
    {
        self.value % 3
    }
}

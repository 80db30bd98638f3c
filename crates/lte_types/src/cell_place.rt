//! The position of a cell in a recording.

ghost use Rattle.std.specs.Prelude.{◌≡◌, ◌<◌, IsSome, IfSome, ◌↔◌};
ghost use Rattle.lte_types.specs.CellPlace.{Place};
ghost use Rattle.lte_types.specs.Numerology.{frame_length};

use crate::{CellId, FRAME_LENGTH};
use std::marker::Model;

/// The identity of a cell, and the sample at which its first frame starts, 0 to 19,199. (own)
#[derive(Clone, Copy, Debug, PartialEq, Eq)]
pub struct CellPlace {
    id: CellId,
    start: u32,
}

impl Model for CellPlace {
    ghost Value = { Place };

    ghost view = { λ p. record { id = p.id; start = p.start } };

    ghost invariant = { λ p. p.start < frame_length };

    ghost inverse = { λ p. record { id = p.id; start = p.start } };
}

impl CellPlace {
    /// Creates the place from `id` and `start`, or returns `None` if `start` is above 19,199.
    pub fn new(id: CellId, start: u32) -> Option<Self>
        ensures valid { IsSome result ↔ (start < frame_length) }
        ensures value { IfSome result (λ place. place ≡ record { id = id; start = start }) }
    {
        if (start as usize) < FRAME_LENGTH {
            Some(CellPlace { id, start })
        } else {
            None
        }
    }

    /// Returns the cell identity.
    pub fn id(self) -> CellId
        ensures { result ≡ self.id }
    {
        self.id
    }

    /// Returns the sample at which the first frame starts, 0 to 19,199.
    pub fn start(self) -> u32
        ensures value { result ≡ self.start }
        ensures early { self.start < frame_length }
    {
        self.start
    }
}

//! The places at which cells were found.

ghost use Rattle.std.specs.Prelude.{◌≡◌, ◌≤◌, ◌<◌, List, [], ◌∷◌, ◌++◌, length, IfOk};
ghost use Rattle.std.specs.Vec.{vec_capacity};
ghost use Rattle.lte_types.specs.CellPlace.{Place};
ghost use Rattle.explain.specs.Places.{is_met};

use lte_types::CellPlace;
use std::alloc::{AllocError, Global};
use std::marker::Model;

/// A list of the places of hits, with capacity for 5,760, which no recording exceeds. Contracts see it as the list of
/// its items.
#[derive(Drop)]
pub struct Places {
    met: Vec<CellPlace>,
}

impl Model for Places {
    ghost Value = { List Place };

    ghost view = { λ p. p.met.items };

    ghost invariant = { λ p. 5760 ≤ vec_capacity p.met };
}

impl Places {
    /// Returns an empty list. Fails only if its allocation fails.
    pub fn new(alloc: Global) -> Result<Self, AllocError>
        ensures { IfOk result (λ p. p ≡ []) }
    {
        Ok(Places {
            met: Vec::with_capacity(alloc, 5760)?,
        })
    }

    /// Removes all places.
    pub fn clear(&mut self)
        ensures { self.new ≡ [] }
    {
        self.met.clear();
    }

    /// Returns whether `place` was found before.
    pub fn has(&self, place: &CellPlace) -> bool
        ensures { result ≡ is_met self.now place.now }
    {
        self.met.iter().any(|met| met == place)
    }

    /// Appends `place`. Does not allocate.
    pub fn add(&mut self, place: &CellPlace)
        requires { length self.old < 5760 }
        ensures { self.new ≡ self.old ++ place.now ∷ [] }
    {
        match self.met.push(*place) {
            Ok(()) => {}
            Err(_) => unreachable!(),
        }
    }
}

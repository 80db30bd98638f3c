//! Lists of readings.

ghost use Rattle.std.specs.Prelude.{◌≡◌, ◌≤◌, ◌<◌, List, [], length, IfOk};
ghost use Rattle.std.specs.List.{insert as insert_at};
ghost use Rattle.std.specs.Vec.{vec_capacity};
ghost use Rattle.explain.specs.declared.readings.Reading.{Reading as ReadingValue};

use crate::Reading;
use std::alloc::{AllocError, Global};
use std::marker::Model;

/// The readings of a list's entries, in the order of the list, with capacity for 23,040. Contracts see it as the list
/// of its items.
#[derive(Drop)]
pub struct Readings {
    readings: Vec<Reading>,
}

impl Model for Readings {
    ghost Value = { List ReadingValue };

    ghost view = { λ r. r.readings.items };

    ghost invariant = { λ r. 23040 ≤ vec_capacity r.readings };
}

impl Readings {
    /// Returns an empty list. Fails only if its allocation fails.
    pub fn new(alloc: Global) -> Result<Self, AllocError>
        ensures { IfOk result (λ r. r ≡ []) }
    {
        Ok(Readings {
            readings: Vec::with_capacity(alloc, 23_040)?,
        })
    }

    /// Returns the readings in order.
    pub fn slice(&self) -> &[Reading]
        ensures { result.now ≡ self.now }
    {
        &self.readings
    }

    /// Removes all readings.
    pub fn clear(&mut self)
        ensures { self.new ≡ [] }
    {
        self.readings.clear();
    }

    /// Inserts an entry's reading at index `at`; the readings from `at` on move up by one. Does not allocate.
    pub fn insert(&mut self, at: usize, item: Reading)
        requires at { at ≤ length self.old }
        requires room { length self.old < 23040 }
        ensures { self.new ≡ insert_at self.old at item }
    {
        match self.readings.insert(at, item) {
            Ok(()) => {}
            Err(_) => unreachable!(),
        }
    }
}

//! The sums for one primary signal.

ghost use Rattle.std.specs.Prelude.{◌≡◌, ◌+◌, ◌<◌, ◌^◌, IfOk, length, replicate, slice_index_or};
ghost use Rattle.lte_types.specs.Numerology.{half_frame_length};
ghost use Rattle.accumulated_pss.specs.Steps.{added_to};

use lte_types::HALF_FRAME_LENGTH;
use std::alloc::{AllocError, Global};
use std::marker::Model;

// The sums at the 9,600 positions.
#[derive(Drop)]
pub(crate) struct Row {
    sums: Vec<u32>,
}

impl Model for Row {
    ghost use Rattle.std.specs.Prelude.{◌≡◌, ℕ, List, length};
    ghost use Rattle.lte_types.specs.Numerology.{half_frame_length};

    ghost Value = { List ℕ };

    ghost view = { λ r. r.sums.items };

    ghost invariant = { λ r. length r.sums.items ≡ half_frame_length };
}

impl Row {
    // Returns a row of zeros.
    pub(crate) fn new(alloc: Global) -> Result<Row, AllocError>
        ensures { IfOk result (λ row. row ≡ replicate half_frame_length 0) }
    {
        Ok(Row {
            sums: vec![in alloc; 0; HALF_FRAME_LENGTH]?,
        })
    }

    // Returns the sums by position.
    pub(crate) fn slice(&self) -> &[u32]
        ensures value { result.now ≡ self.now }
        ensures count { length self.now ≡ half_frame_length }
    {
        &self.sums
    }

    // Adds a ratio to the sum at index `i`.
    pub(crate) fn add(&mut self, i: usize, ratio: u32)
        requires i { i < half_frame_length }
        requires room { slice_index_or self.old i 0 + ratio < 2 ^ 32 }
        ensures { self.new ≡ added_to self.old i ratio }
    {
        self.sums[i] += ratio;
    }
}

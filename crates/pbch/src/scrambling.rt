//! The PBCH scrambling bits of a cell.

ghost use Rattle.std.specs.Prelude.{◌≡◌, ℕ, ◌+◌, ◌≤◌, length};
ghost use Rattle.finite.specs.Sizes.{AllWithin};
ghost use Rattle.grid_map.specs.Scrambling.{pbch_c_init};
ghost use Rattle.soft_bits.specs.Places.{descrambled};

use grid_map::pbch_c_init;
use lte_types::CellId;
use soft_bits::Scrambling;
use std::marker::Model;

/// The PBCH scrambling bits of a cell in the four frames of a period, computed once (TS 36.211 section 6.6.1).
/// Contracts see them as the cell identity.
#[derive(Drop)]
pub struct CellScrambling {
    id: CellId,
    bits: Scrambling,
}

impl Model for CellScrambling {
    ghost Value = { ℕ };

    ghost view = { λ s. s.id };

    ghost invariant = { λ s. s.bits ≡ pbch_c_init s.id };
}

impl CellScrambling {
    /// Returns the PBCH scrambling bits for the cell identity `id`.
    pub fn new(id: CellId) -> CellScrambling
        ensures { result ≡ id }
    {
        CellScrambling {
            id,
            bits: Scrambling::new(pbch_c_init(id)),
        }
    }

    /// Descrambles `values`, which start at bit `first` in the period. `first` plus the count is at most 1,920.
    pub fn descramble(&self, first: usize, values: &mut [i16])
        requires few { first + length values.old ≤ 1920 }
        requires magnitudes { AllWithin 127 values.old }
        ensures values { values.new ≡ descrambled (pbch_c_init self.now) first values.old }
        ensures magnitudes { AllWithin 127 values.new }
    {
        self.bits.descramble(first, values);
    }
}

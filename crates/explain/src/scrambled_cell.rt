//! A cell with the scrambling sequence of its PBCH, computed once for the MIB search.

ghost use Rattle.std.specs.Prelude.{◌≡◌};
ghost use Rattle.lte_types.specs.CellPlace.{Place};

use lte_types::CellPlace;
use pbch::CellScrambling;
use std::marker::Model;

// The place of a cell, with the scrambling sequence of its PBCH, which is computed once. Contracts see it as the place.
#[derive(Drop)]
pub(crate) struct ScrambledCell {
    place: CellPlace,
    bits: CellScrambling,
}

impl Model for ScrambledCell {
    ghost Value = { Place };

    ghost view = { λ c. c.place };

    ghost invariant = { λ c. c.bits ≡ c.place.id };
}

impl ScrambledCell {
    pub(crate) fn new(place: CellPlace) -> ScrambledCell
        ensures { result ≡ place }
    {
        ScrambledCell {
            place,
            bits: CellScrambling::new(place.id()),
        }
    }

    pub(crate) fn place(&self) -> CellPlace
        ensures { result ≡ self.now }
    {
        self.place
    }

    pub(crate) fn bits(&self) -> &CellScrambling
        ensures { result.now ≡ self.now.id }
    {
        &self.bits
    }
}

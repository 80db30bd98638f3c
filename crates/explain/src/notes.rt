//! The state of a search apart from its list.

ghost use Rattle.std.specs.Prelude.{◌≡◌, [], IfOk};

use crate::places::Places;
use crate::reading_list::Readings;
use sib1_reader::Decoders;
use std::alloc::{AllocError, Global};

/// The state of a search apart from its list: the places found so far, the reading of each entry, and the decoders.
#[derive(Drop)]
pub struct Notes {
    pub places: Places,
    pub readings: Readings,
    pub decoders: Decoders,
}

impl Notes {
    /// Allocates everything up front. Fails only if an allocation fails.
    pub fn new(alloc: Global) -> Result<Notes, AllocError>
        ensures { IfOk result (λ notes. (notes.places ≡ []) × (notes.readings ≡ [])) }
    {
        let places = Places::new(alloc)?;
        let readings = Readings::new(alloc)?;
        let decoders = Decoders::new(alloc)?;
        Ok(Notes {
            places,
            readings,
            decoders,
        })
    }
}

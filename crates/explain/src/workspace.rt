//! The working memory of a search for cells.

ghost use Rattle.std.specs.Prelude.{◌≡◌, List, [], IfOk};
ghost use Rattle.explain.specs.declared.readings.Reading.{Reading as ReadingValue};

use crate::notes::Notes;
use crate::readings::Reading;
use pss_search::HitList;
use std::alloc::{AllocError, Global};
use std::marker::Model;

/// The working memory of a search for cells, for any receiver. Contracts see it as the readings of the last list's
/// entries, in the order of the list. Its other contents have no meaning between two searches.
#[derive(Drop)]
pub struct Workspace {
    pub(crate) hits: HitList,
    pub(crate) notes: Notes,
}

impl Model for Workspace {
    ghost Value = { List ReadingValue };

    ghost view = { λ w. w.notes.readings };
}

impl Workspace {
    /// Allocates everything up front. Fails only if an allocation fails.
    pub fn new(alloc: Global) -> Result<Workspace, AllocError>
        ensures { IfOk result (λ work. work ≡ []) }
    {
        let hits = HitList::new(alloc)?;
        let notes = Notes::new(alloc)?;
        Ok(Workspace { hits, notes })
    }

    /// Returns the readings of the last list's entries, in the order of the list.
    pub fn readings(&self) -> &[Reading]
        ensures { result.now ≡ self.now }
    {
        self.notes.readings.slice()
    }
}

//! Lists of PLMN identities.

ghost use Rattle.std.specs.Prelude.{◌≡◌, List, [], ◌∷◌, ◌++◌, ◌<◌, ◌≤◌, ◌↔◌, IsTrue, length, if◌then◌else◌};
ghost use Rattle.lte_types.specs.declared.plmn.Plmn.{Plmn as PlmnValue};
ghost use Rattle.std.specs.Cmp.Lexicographic.{pointwise, lists_per};
ghost use Rattle.lte_types.specs.contracts.plmn.PlmnPartialEq.TheImpl as item_eq;
ghost use Rattle.lte_types.specs.contracts.plmn.PlmnPartialEq.TheImpl.Laws.{laws-law};

use crate::Plmn;
use arrayvec::ArrayVec;
use std::marker::Model;

/// At most 6 PLMN identities (TS 36.331 section 6.2.2). In contracts the value is their list.
#[derive(Debug, Drop)]
pub struct Plmns {
    items: ArrayVec<Plmn, 6>,
}

impl Model for Plmns {
    ghost Value = { List PlmnValue };

    ghost view = { λ list. list.items.items };
}

impl PartialEq for Plmns {
    ghost eq = { pointwise item_eq.ghosts.eq };

    ghost laws = { lists_per laws-law };

    fn eq(&self, other: &Plmns) -> bool {
        self.items == other.items
    }
}

impl Plmns {
    /// Returns an empty list.
    pub fn new() -> Plmns
        ensures { result ≡ [] }
    {
        Plmns {
            items: ArrayVec::new(),
        }
    }

    /// Appends `item`. Returns false, and changes nothing, if the list is full.
    pub fn push(&mut self, item: Plmn) -> bool
        ensures room { IsTrue result ↔ (length self.old < 6) }
        ensures items { self.new ≡ (if result then self.old ++ item ∷ [] else self.old) }
    {
        self.items.try_push(item).is_ok()
    }

    /// Returns the PLMN identities in order, at most 6.
    pub fn slice(&self) -> &[Plmn]
        ensures items { result.now ≡ self.now }
        ensures count { length self.now ≤ 6 }
    {
        self.items.as_slice()
    }

    /// Returns a copy.
    pub fn copy(&self) -> Plmns
        ensures { result ≡ self.now }
    {
        let mut copy = Plmns::new();
        for item in self.slice() {
            copy.push(*item);
        }
        copy
    }
}

//! Lists of SIBs.

ghost use Rattle.std.specs.Prelude.{◌≡◌, ℕ, List, [], ◌∷◌, ◌++◌, ◌<◌, ◌≤◌, ◌↔◌, IsTrue, length, if◌then◌else◌, nat_eq};
ghost use Rattle.std.proofs.Common.{rules};
ghost use Rattle.std.specs.Cmp.Rules.{comparing};
ghost use Rattle.std.specs.Cmp.Lexicographic.{pointwise};

use arrayvec::ArrayVec;
use std::marker::Model;

/// The codes of at most 31 SIBs (TS 36.331 section 6.2.2). In contracts the value is their list.
#[derive(Debug, Drop)]
pub struct Sibs {
    items: ArrayVec<u8, 31>,
}

impl Model for Sibs {
    ghost Value = { List ℕ };

    ghost view = { λ list. list.items.items };
}

impl PartialEq for Sibs {
    ghost eq = { pointwise nat_eq };

    ghost laws = { Prim.search (comparing, rules) };

    fn eq(&self, other: &Sibs) -> bool {
        self.items == other.items
    }
}

impl Sibs {
    /// Returns an empty list.
    pub fn new() -> Sibs
        ensures { result ≡ [] }
    {
        Sibs {
            items: ArrayVec::new(),
        }
    }

    /// Appends the SIB code `item`. Returns false, and changes nothing, if the list is full.
    pub fn push(&mut self, item: u8) -> bool
        ensures room { IsTrue result ↔ (length self.old < 31) }
        ensures items { self.new ≡ (if result then self.old ++ item ∷ [] else self.old) }
    {
        self.items.try_push(item).is_ok()
    }

    /// Returns the SIB codes in order, at most 31.
    pub fn slice(&self) -> &[u8]
        ensures items { result.now ≡ self.now }
        ensures count { length self.now ≤ 31 }
    {
        self.items.as_slice()
    }

    /// Returns a copy.
    pub fn copy(&self) -> Sibs
        ensures { result ≡ self.now }
    {
        let mut copy = Sibs::new();
        for item in self.slice() {
            copy.push(*item);
        }
        copy
    }
}

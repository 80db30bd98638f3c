//! The schedule of SI messages.

ghost use Rattle.std.specs.Prelude.{◌≡◌, List, [], ◌∷◌, ◌++◌, ◌<◌, ◌≤◌, ◌↔◌, IsTrue, length, if◌then◌else◌};
ghost use Rattle.lte_types.specs.declared.si_message.SiMessage.{SiMessage as Message};
ghost use Rattle.std.specs.Cmp.Lexicographic.{pointwise, lists_per};
ghost use Rattle.lte_types.specs.contracts.si_message.SiMessagePartialEq.TheImpl as item_eq;
ghost use Rattle.lte_types.specs.contracts.si_message.SiMessagePartialEq.TheImpl.Laws.{laws-law};

use crate::SiMessage;
use arrayvec::ArrayVec;
use std::marker::Model;

/// At most 32 entries of schedulingInfoList (TS 36.331 section 6.2.2). In contracts the value is their list.
#[derive(Debug, Drop)]
pub struct Schedule {
    items: ArrayVec<SiMessage, 32>,
}

impl Model for Schedule {
    ghost Value = { List Message };

    ghost view = { λ list. list.items.items };
}

impl PartialEq for Schedule {
    ghost eq = { pointwise item_eq.ghosts.eq };

    ghost laws = { lists_per laws-law };

    fn eq(&self, other: &Schedule) -> bool {
        self.items == other.items
    }
}

impl Schedule {
    /// Returns an empty schedule.
    pub fn new() -> Schedule
        ensures { result ≡ [] }
    {
        Schedule {
            items: ArrayVec::new(),
        }
    }

    /// Appends `item`. Returns false, and changes nothing, if the schedule is full.
    pub fn push(&mut self, item: SiMessage) -> bool
        ensures room { IsTrue result ↔ (length self.old < 32) }
        ensures items { self.new ≡ (if result then self.old ++ item ∷ [] else self.old) }
    {
        self.items.try_push(item).is_ok()
    }

    /// Returns the entries in order, at most 32.
    pub fn slice(&self) -> &[SiMessage]
        ensures items { result.now ≡ self.now }
        ensures count { length self.now ≤ 32 }
    {
        self.items.as_slice()
    }

    /// Returns a copy.
    pub fn copy(&self) -> Schedule
        ensures { result ≡ self.now }
    {
        let mut copy = Schedule::new();
        for item in self.slice() {
            copy.push(item.copy());
        }
        copy
    }
}

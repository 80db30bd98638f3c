//! PSS detection: the positions in a recording at which a primary synchronisation signal stands out, called hits.
//! Tests: the crate `code_tests`.
#![tactic(auto)]

mod choose;
mod list;
mod measure;
mod products;
mod recent;
mod signals;
mod strongest;

ghost use Rattle.pss_search.specs.Laws.{TestIsRight, ListIsRight, ListIsInOrder, ListIsShort};

pub use list::{HitList, hits, hits_and_strongest};
pub use measure::{Metric, Sweep};
pub use signals::signal_power;
pub use strongest::Measured;

/// A law: the test for a hit agrees with its definition. A recording's list has exactly its hits, in order, each once,
/// and at most 5,760.
pub fn hits_are_right()
    ensures test { TestIsRight }
    ensures list { ListIsRight }
    ensures order { ListIsInOrder }
    ensures few { ListIsShort }
{}

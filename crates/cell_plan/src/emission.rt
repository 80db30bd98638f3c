//! An emission: a cell and its transmission scheme, timing, sample count, gains and load.

ghost use Rattle.std.specs.Prelude.{◌≡◌, None};
ghost use Rattle.cell_plan.specs.Gains.{IsCount, AreGainsOf, are_gains_prop};
ghost use Rattle.cell_plan.specs.Plan.{refusal_of};

use crate::Cell;
use cs_num::Cpx;
use lte_types::{Carrier, Timing};

/// A cell's transmission: `samples` samples from `timing`, each the sum of the antenna ports' samples times their
/// gains. (own)
#[derive(Debug, Drop)]
pub struct Emission {
    /// The cell that is sent. With the extended cyclic prefix or four antenna ports, its SIB1 is not sent.
    pub cell: Cell,
    /// The transmission scheme: the cyclic prefix and the antenna ports.
    pub carrier: Carrier,
    /// The number of the first frame, and the index, within this frame, of the first sample sent.
    pub timing: Timing,
    /// The number of samples, 57,600 to 1,920,000.
    pub samples: u32,
    /// One gain per antenna port. Entries beyond the scheme's port count are ignored.
    pub gains: [Cpx; 4],
    /// The number of the load in the resource elements that the plan leaves open, or `None` for no load.
    pub load: Option<u32>,
    pub ghost samples_range: { IsCount samples },
    pub ghost gains_are: { AreGainsOf carrier gains } by { are_gains_prop carrier gains },
    pub ghost accepted: { refusal_of carrier cell ≡ None },
}

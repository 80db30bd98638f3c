//! A certificate's soft values and step costs, computed once for all its tables.

ghost use Rattle.std.specs.Prelude.{◌≡◌, length};
ghost use Rattle.tailbite.specs.Costs.{HaveCosts};

use tailbite::StepCosts;

/// The soft values at 40 positions, and the tables of step costs computed from them.
#[derive(Clone, Copy)]
pub(crate) struct PathCosts<'a> {
    pub(crate) values: &'a [[i32; 3]; 40],
    pub(crate) steps: &'a [StepCosts; 40],
    pub(crate) ghost places: { length values.now ≡ 40 },
    pub(crate) ghost costs: { HaveCosts values.now steps.now 40 },
}

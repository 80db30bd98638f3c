//! Cells with two antenna ports.

ghost use Rattle.std.specs.Prelude.{◌≡◌, Some, None, MatchResult, IfOk};
ghost use Rattle.lte_types.specs.Ranges.{IsValid};
ghost use Rattle.two_tx.specs.Plan.{IsSendableOfTwo, refusal_of_two};

use cell_plan::{Cell, CellError, CellPlan};
use lte_types::Carrier;
use std::marker::Model;

/// A cell whose plan can be sent with two antenna ports. Contracts see the cell as its plan.
#[derive(Drop)]
pub struct Cell2 {
    cell: Cell,
}

impl Model for Cell2 {
    ghost use Rattle.cell_plan.specs.declared.cell.CellPlan.{CellPlan as Plan};
    ghost use Rattle.two_tx.specs.Plan.{IsSendableOfTwo};

    ghost Value = { Plan };

    ghost view = { λ c. c.cell };

    ghost invariant = { λ c. IsSendableOfTwo c.cell };
}

impl Cell2 {
    /// Creates the cell of `plan`, whose SystemInformationBlockType1 must be in its ranges, or returns the first failed
    /// condition of `Cell::of` for two antenna ports.
    pub fn new(plan: CellPlan) -> Result<Cell2, CellError>
        requires { IsValid plan.sib1 }
        ensures refusal { MatchResult result (λ _. refusal_of_two plan ≡ None)
            (λ cause. refusal_of_two plan ≡ Some cause) }
        ensures plan { IfOk result (λ cell. cell ≡ plan) }
        ensures sendable { IfOk result IsSendableOfTwo }
    {
        let cell = Cell::of(Carrier::TwoPorts, plan)?;
        Ok(Cell2 { cell })
    }

    /// Returns the plan of the cell.
    pub fn plan(&self) -> &CellPlan
        ensures plan { result.now ≡ self.now }
        ensures sendable { IsSendableOfTwo self.now }
    {
        self.cell.plan()
    }

    // Returns the cell as one of any transmission scheme.
    pub(crate) fn cell(&self) -> &Cell
        ensures { result.now ≡ self.now }
    {
        &self.cell
    }
}

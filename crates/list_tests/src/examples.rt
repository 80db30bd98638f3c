use cell_tx::{Cell, CellPlan};

// Builds a plan's cell.
pub fn cell_of(plan: CellPlan) -> Option<Cell> {
    if plan.sib1.valid() {
        Cell::new(plan).ok()
    } else {
        None
    }
}

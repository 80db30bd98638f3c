//! The samples of a plan with the extended cyclic prefix.

ghost use Rattle.std.specs.Prelude.{◌≡◌, ◌*◌, ◌≤◌, None};
ghost use Rattle.cs_num.specs.Complex.{square, sample_of};
ghost use Rattle.lte_types.specs.declared.carrier.Carrier.TheVariants.{LongPrefix};
ghost use Rattle.lte_types.specs.Ranges.{IsValid};
ghost use Rattle.cell_plan.specs.Plan.{refusal_of};
ghost use Rattle.long_prefix.specs.Sent.{long_sent, HasPlan};

use crate::LongPlan;
use cell_plan::{Cell, CellPlan};
use cell_tx::{Port, port_sample};
use cs_num::Sample;
use lte_types::{Carrier, Sfn};

// Returns a cell plan with the fields of `plan`; its other fields, which are not sent, are recording 0's.
fn cell_plan(plan: &LongPlan) -> CellPlan
    ensures plan { HasPlan result plan.now }
    ensures valid { IsValid result.sib1 }
    ensures accepted { refusal_of LongPrefix result ≡ None }
{
    let mut cell = capture_make::plan(0);
    cell.identity = plan.id.value();
    cell.duration = plan.mib.duration;
    cell.resource = plan.mib.resource;
    cell.spare = plan.mib.spare;
    cell
}

// Returns a cell with the extended cyclic prefix and the fields of `plan`.
fn cell_of(plan: &LongPlan) -> Cell
    ensures { HasPlan result plan.now }
{
    match Cell::of(Carrier::LongPrefix, cell_plan(plan)) {
        Ok(cell) => cell,
        Err(_) => unreachable!(),
    }
}

/// Returns sample `i` of a plan's endless frame sequence with the extended cyclic prefix, from frame `sfn` (TS 36.211
/// section 6.12, in integers). Its magnitude is at most 1,153.
pub fn sample(plan: &LongPlan, sfn: Sfn, i: u64) -> Sample
    ensures value { result ≡ sample_of (long_sent plan.now sfn i) }
    ensures magnitude { square (long_sent plan.now sfn i) ≤ 1153 * 1153 }
{
    let port = Port {
        carrier: Carrier::LongPrefix,
        number: 0,
    };
    port_sample(&cell_of(plan), port, sfn, i)
}

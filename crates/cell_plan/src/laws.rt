//! Laws on the plans that can be sent, and on gains.
//!
//! If the resource blocks carry each coded bit of a transport block, the block is always resolved (`whole`), so the
//! first way to meet the condition `Punctured` implies the second.

ghost use Rattle.cell_plan.specs.Laws.{AcceptedAreSendable, OnePortSendsAll, WholeBlocksAreResolvable};
ghost use Rattle.cell_plan.specs.Laws.{GainsAreTogether};

/// A law: `Cell::of` accepts exactly the plans that a transmission scheme can send. A plan that any scheme can send can
/// also be sent with one antenna port.
pub fn accepted_are_sendable()
    ensures accepted { AcceptedAreSendable }
    ensures one { OnePortSendsAll }
    ensures whole { WholeBlocksAreResolvable }
{}

/// A law: gains are a clean recording's exactly if port 0's gain is not 0 and the sum of squared magnitudes is at most
/// 784 divided by the port count.
pub fn gains_are_together()
    ensures { GainsAreTogether }
{}

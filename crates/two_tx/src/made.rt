//! Synthetic recordings with two antenna ports, each made from its number.

ghost use Rattle.std.specs.Prelude.{◌≡◌, ℕ, [], ◌∷◌, map, IfOk};
ghost use Rattle.lte_types.specs.declared.carrier.Carrier.TheVariants.{TwoPorts};
ghost use Rattle.sample_file.specs.Recording.{IsRecording};
ghost use Rattle.cell_plan.specs.Pair.{gain_of};
ghost use Rattle.capture_make.specs.Recipe.{plan as plan_of, first_gain, second_gain};
ghost use Rattle.capture_make.specs.Made.{IsMadeBy};
ghost use Rattle.two_tx.specs.Made.{IsMade, IsCleanlyMade};
ghost use Rattle.two_tx.specs.Plan.{IsSendableOfTwo};
ghost use Rattle.two_tx.specs.declared.made.TwoMade.{TwoMade as MadeValue};

use capture_make::{MadeBy, gains, make_by, numbers_are_clean, plan, timing};
use cell_plan::{CellPlan, pair_of};
use lte_types::{Carrier, Sfn};
use sample_file::Recording;
use std::alloc::{AllocError, Global};

/// Recording number `n` with two antenna ports, and the transmission that the recording contains.
#[derive(Drop)]
pub struct TwoMade {
    /// The plan of the cell that the recording contains.
    pub plan: CellPlan,
    /// The number of the first frame.
    pub sfn: Sfn,
    /// The index, within the first frame, of the first sample sent: 0 to 19,199.
    pub offset: u32,
    /// The gains of ports 0 and 1, real part first; the gain of port 1 may be 0.
    pub gains: [(i16, i16); 2],
    /// The maximum error component magnitude: the largest bound that a clean recording with this transmission's gains
    /// allows.
    pub bound: i16,
    /// The samples of the recording: the received sum of both ports, errors included.
    pub recording: Recording,
}

// Returns the gains of ports 0 and 1 in recording `n`.
fn pairs(n: u32) -> [(i16, i16); 2]
    ensures { map gain_of result ≡ first_gain n ∷ second_gain n ∷ [] }
{
    let gains = gains(Carrier::TwoPorts, n);
    [pair_of(gains[0]), pair_of(gains[1])]
}

// Returns the recording `made`, which has two antenna ports, with its transmission.
fn of_two_ports(n: u32, made: MadeBy) -> TwoMade
    requires made { IsMadeBy TwoPorts n made }
    requires valid { IsRecording made.recording }
    ensures made { IsMade n result }
    ensures valid { IsRecording result.recording }
{
    let timing = timing(n);
    TwoMade {
        plan: plan(n),
        sfn: timing.sfn,
        offset: timing.offset,
        gains: pairs(n),
        bound: made.bound,
        recording: made.recording,
    }
}

/// Makes recording `n` with two antenna ports, 10 to 99 frames long, as `capture_make::make_by` does. Fails only if an
/// allocation fails. (own)
pub fn make(alloc: Global, n: u32) -> Result<TwoMade, AllocError>
    ensures made { IfOk result (IsMade n) }
    ensures sendable { IsSendableOfTwo (plan_of n) }
    ensures clean { IfOk result IsCleanlyMade }
    ensures valid { IfOk result (λ made. IsRecording made.recording) }
{
    let made = make_by(alloc, Carrier::TwoPorts, n)?;
    made_is_clean();
    Ok(of_two_ports(n, made))
}

/// A law: every synthetic recording with two antenna ports is a clean recording of its transmission.
pub fn made_is_clean()
    ensures { (n : ℕ) (made : MadeValue) → IsMade n made → IsCleanlyMade made }
{
    numbers_are_clean();
}

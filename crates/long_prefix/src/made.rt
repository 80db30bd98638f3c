//! Synthetic recordings by number.

ghost use Rattle.std.specs.Prelude.{◌≡◌, ℕ, IfOk};
ghost use Rattle.lte_types.specs.declared.carrier.Carrier.TheVariants.{LongPrefix};
ghost use Rattle.sample_file.specs.Recording.{IsRecording};
ghost use Rattle.cell_plan.specs.Pair.{gain_of};
ghost use Rattle.capture_make.specs.Recipe.{gain as gain_of_number};
ghost use Rattle.capture_make.specs.Made.{IsMadeBy};
ghost use Rattle.long_prefix.specs.Made.{IsPlanOf, IsMadeLong, IsCleanlyMade};
ghost use Rattle.long_prefix.specs.declared.made.LongMade.{LongMade as MadeValue};

use crate::LongPlan;
use capture_make::{MadeBy, gain, make_by, numbers_are_clean, plan, timing};
use cell_plan::pair_of;
use lte_types::{Bandwidth, Carrier, CellId, Mib, Sfn};
use sample_file::Recording;
use std::alloc::{AllocError, Global};

/// A numbered synthetic recording with the extended cyclic prefix, and the transmission that it contains.
#[derive(Drop)]
pub struct LongMade {
    /// The cell's plan.
    pub plan: LongPlan,
    /// The number of the frame in which the recording begins.
    pub sfn: Sfn,
    /// The sample within frame `sfn` at which the recording begins, 0 to 19,199.
    pub offset: u32,
    /// The gain, real part first.
    pub gain: (i16, i16),
    /// The maximum error component magnitude: the largest integer that is at most twice the gain's magnitude.
    pub bound: i16,
    /// The samples, with the errors.
    pub recording: Recording,
}

// Returns the plan of cell number `n`.
fn plan_of(n: u32) -> LongPlan
    ensures { IsPlanOf n result }
{
    let cell = plan(n);
    let upper = (timing(n).sfn.value() / 4) as u8;
    let mib = Mib::new(
        Bandwidth::N6,
        cell.duration,
        cell.resource,
        upper,
        cell.spare,
    );
    match (CellId::new(cell.identity), mib) {
        (Some(id), Some(mib)) => LongPlan { id, mib },
        _ => unreachable!(),
    }
}

// Returns the gain of recording `n`, real part first.
fn pair(n: u32) -> (i16, i16)
    ensures { gain_of result ≡ gain_of_number n }
{
    pair_of(gain(n).value())
}

// Returns recording `n` with its transmission, from `made`, which `make_by` made with the extended cyclic prefix.
fn of_long_prefix(n: u32, made: MadeBy) -> LongMade
    requires made { IsMadeBy LongPrefix n made }
    requires valid { IsRecording made.recording }
    ensures made { IsMadeLong n result }
    ensures valid { IsRecording result.recording }
{
    let timing = timing(n);
    LongMade {
        plan: plan_of(n),
        sfn: timing.sfn,
        offset: timing.offset,
        gain: pair(n),
        bound: made.bound,
        recording: made.recording,
    }
}

/// Makes recording `n` of `capture_make::make_by` with the extended cyclic prefix, 10 to 99 frames long, without
/// control region and SIB1. Fails only if an allocation fails. (own)
pub fn make(alloc: Global, n: u32) -> Result<LongMade, AllocError>
    ensures made { IfOk result (IsMadeLong n) }
    ensures clean { IfOk result IsCleanlyMade }
    ensures valid { IfOk result (λ made. IsRecording made.recording) }
{
    let made = make_by(alloc, Carrier::LongPrefix, n)?;
    made_is_clean();
    Ok(of_long_prefix(n, made))
}

/// A law: each numbered recording with the extended cyclic prefix is a clean recording of its transmission.
pub fn made_is_clean()
    ensures { (n : ℕ) (made : MadeValue) → IsMadeLong n made → IsCleanlyMade made }
{
    numbers_are_clean();
}

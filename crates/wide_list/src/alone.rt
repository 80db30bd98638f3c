//! The SIB1 fields in a frame alone.

ghost use Rattle.std.specs.Prelude.{◌≡◌, ◌≢◌, IfOk};
ghost use Rattle.wide_block.specs.Answer.{fields_in};
ghost use Rattle.wide_list.specs.Frames.{AnswersAlone, HasBitsAlone, reason_without as reason_without_of};

use crate::offers::FrameOffers;
use lte_types::Sib1Reason;
use turbo_dec::Work;
use wide_block::SystemBlock;

/// Returns the SIB1 fields of the first offer that has any, with their transport block, or else the first offer's
/// reason. Without offers, the reason is `NoSearchSpace` if there are fewer than four control channel elements,
/// otherwise `NoControl`.
pub(crate) fn answer_alone(frame: &FrameOffers, work: &mut Work) -> Result<SystemBlock, Sib1Reason>
    ensures answer { AnswersAlone frame.now (fields_in result) }
    ensures bits { IfOk result (λ found. HasBitsAlone frame.now found.bits.items) }
{
    let mut reason = reason_without(frame.elements());
    for (at, offer) in frame.offers().iter().enumerate() {
        let other = match offer.system_block(work) {
            Ok(found) => return Ok(found),
            Err(other) => other,
        };
        reason = first_reason(at, reason, other);
    }
    Err(reason)
}

// Returns the reason of a frame without offers.
fn reason_without(elements: usize) -> Sib1Reason
    ensures { result ≡ reason_without_of elements }
{
    if elements < 4 {
        Sib1Reason::NoSearchSpace(elements as u8)
    } else {
        Sib1Reason::NoControl
    }
}

// Returns the reason of item `at` if it is the first, otherwise the earlier reason.
pub(crate) fn first_reason(at: usize, earlier: Sib1Reason, reason: Sib1Reason) -> Sib1Reason
    ensures first { at ≡ 0 → result ≡ reason }
    ensures later { at ≢ 0 → result ≡ earlier }
{
    if at == 0 { reason } else { earlier }
}

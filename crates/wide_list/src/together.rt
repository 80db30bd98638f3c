//! The SIB1 fields in the frames of one period of 80 ms together.

ghost use Rattle.std.specs.Prelude.{◌≡◌, ◌+◌, ◌≤◌, ◌<◌, length, IfOk, IfSome, MatchOption};
ghost use Rattle.wide_block.specs.Sums.{total, zero_sums};
ghost use Rattle.wide_block.specs.Answer.{fields_in};
ghost use Rattle.wide_list.specs.First.{HaveNone, IsFirstOf};
ghost use Rattle.wide_list.specs.Together.{is_same_mapping as is_same, is_alike as is_alike_of, first_like};
ghost use Rattle.wide_list.specs.Together.{like_in, like_offers, with_offer};
ghost use Rattle.wide_list.specs.Together.{AnswersWith, HasFieldsWith, HasFieldsTogether};
ghost use Rattle.wide_list.specs.Together.{HasBitsWith, HasBitsTogether};

use crate::offers::FrameOffers;
use lte_types::Sib1Reason;
use turbo_dec::Work;
use wide_block::{GrantSums, SystemBlock, Total};
use wide_grant::{Mapping, WideGrant};

/// Returns the SIB1 fields of the first offer, in the order of frames, that has any together with the frames' offers
/// like it, with their transport block. Returns `None` if no offer has.
pub(crate) fn first_together(frames: &[FrameOffers], work: &mut Work) -> Option<SystemBlock>
    requires { length frames.now ≤ 8 }
    ensures fields { MatchOption result (HaveNone (HasFieldsTogether frames.now) frames.now)
        (λ found. IsFirstOf (HasFieldsTogether frames.now) frames.now found.fields) }
    ensures bits { IfSome result (λ found. IsFirstOf (HasBitsTogether frames.now) frames.now found.bits.items) }
{
    for frame in frames {
        match together_in(frames, frame, work) {
            Some(found) => return Some(found),
            None => {}
        }
    }
    None
}

// Returns the SIB1 fields of a frame's first offer that has any together with the frames' offers like it, with their
// transport block, or `None`.
fn together_in(frames: &[FrameOffers], frame: &FrameOffers, work: &mut Work) -> Option<SystemBlock>
    requires { length frames.now ≤ 8 }
    ensures fields { MatchOption result (HaveNone (HasFieldsWith frames.now frame.now.period) frame.now.offers)
        (λ found. HasFieldsTogether frames.now frame.now found.fields) }
    ensures bits { IfSome result (λ found. HasBitsTogether frames.now frame.now found.bits.items) }
{
    for offer in frame.offers() {
        match answer_with_like(frames, frame.period(), offer, work) {
            Ok(found) => return Some(found),
            Err(_) => {}
        }
    }
    None
}

// Returns the answer of an offer in a period, together with the frames' offers like it, with its transport block.
fn answer_with_like(
    frames: &[FrameOffers],
    period: u16,
    offer: &GrantSums,
    work: &mut Work,
) -> Result<SystemBlock, Sib1Reason>
    requires { length frames.now ≤ 8 }
    ensures answer { AnswersWith frames.now period offer.now (fields_in result) }
    ensures bits { IfOk result (λ found. HasBitsWith frames.now period offer.now found.bits.items) }
{
    let mut sums = Total::new();
    add_all(frames, period, offer.grant(), &mut sums);
    sums.system_block(offer.grant().size, work)
}

// Adds the sums of the frames' offers in a period that are like a grant, the first of each frame.
fn add_all(frames: &[FrameOffers], period: u16, grant: &WideGrant, sums: &mut Total)
    requires few { length frames.now ≤ 8 }
    requires none { sums.old.count ≡ 0 }
    requires zero { sums.old.sums ≡ zero_sums }
    ensures { sums.new.sums ≡ total (like_offers frames.now period grant.now) }
{
    for frame in frames {
        add_like(frame, period, grant, sums);
    }
}

// Adds the sums of a frame's first offer like a grant, if the frame is in the period and has one.
fn add_like(frame: &FrameOffers, period: u16, grant: &WideGrant, sums: &mut Total)
    requires { sums.old.count < 8 }
    ensures count { sums.new.count ≤ sums.old.count + 1 }
    ensures sums { sums.new.sums ≡ with_offer sums.old.sums (like_in period grant.now frame.now) }
{
    if frame.period() == period {
        add_first(frame.offers(), grant, sums);
    }
}

// Adds the sums of the first offer like a grant, if there is one.
fn add_first(offers: &[GrantSums], grant: &WideGrant, sums: &mut Total)
    requires { sums.old.count < 8 }
    ensures count { sums.new.count ≤ sums.old.count + 1 }
    ensures sums { sums.new.sums ≡ with_offer sums.old.sums (first_like grant.now offers.now) }
{
    for offer in offers {
        if is_alike(grant, offer.grant()) {
            sums.add(offer);
            return;
        }
    }
}

// Returns whether two grants allocate the same virtual resource blocks, for a transport block of the same size.
fn is_alike(a: &WideGrant, b: &WideGrant) -> bool
    ensures { result ≡ is_alike_of a.now b.now }
{
    is_same_mapping(a.mapping, b.mapping)
        && a.run.start == b.run.start
        && a.run.blocks == b.run.blocks
        && a.size == b.size
}

// Returns whether two mappings are the same.
fn is_same_mapping(a: Mapping, b: Mapping) -> bool
    ensures { result ≡ is_same a b }
{
    match (a, b) {
        (Mapping::Localized, Mapping::Localized) => true,
        (Mapping::FirstGap, Mapping::FirstGap) => true,
        (Mapping::SecondGap, Mapping::SecondGap) => true,
        _ => false,
    }
}

//! What subframe 5 of a frame offers.

ghost use Rattle.std.specs.Prelude.{◌≡◌, ◌/◌, ◌<◌, ◌≤◌, All, IfOk, map};
ghost use Rattle.wide_control.specs.Control.{IsBounded};
ghost use Rattle.wide_block.specs.Sums.{offer_of};
ghost use Rattle.wide_list.specs.Frames.{IsOffered};

use lte_types::{Cfi, Sfn};
use std::alloc::{AllocError, Global};
use std::marker::Model;
use tailbite::Trellis;
use wide_block::{GrantSums, sums_of};
use wide_control::control_in;
use wide_grant::WideGrant;
use wide_slot::WideSlot;

/// What subframe 5 of a frame offers: the frame's period of 80 ms, the number of control channel elements, and the
/// grants with their sums. Contracts see the three. A frame has at most 12 grants, with 12,336 bytes of sums each, so
/// eight frames take at most 1.2 million bytes.
#[derive(Drop)]
pub(crate) struct FrameOffers {
    period: u16,
    elements: usize,
    offers: Vec<GrantSums>,
}

impl Model for FrameOffers {
    ghost use Rattle.wide_list.specs.Frames.{Frame};

    ghost Value = { Frame };

    ghost view = { λ f. record { period = f.period; elements = f.elements; offers = f.offers.items } };
}

impl FrameOffers {
    /// Returns what the frame with slots 10 and 11, `first` and `second`, offers. Its system frame number is `number`
    /// modulo 1,024. Fails only if an allocation fails.
    pub(crate) fn of_slots(
        alloc: Global,
        first: &WideSlot,
        second: &WideSlot,
        number: u16,
        work: &mut Trellis,
    ) -> Result<FrameOffers, AllocError>
        requires first { first.now.slot.number ≡ 10 }
        requires second { second.now.slot.number ≡ 11 }
        requires same { second.now.cell ≡ first.now.cell }
        ensures { IfOk result (IsOffered first.now second.now number) }
    {
        let control = control_in(alloc, first, Sfn::modulo(u64::from(number)), work)?;
        let offers = offers_of(alloc, first, second, control.cfi(), control.grants())?;
        Ok(FrameOffers {
            period: number / 8,
            elements: control.elements(),
            offers,
        })
    }

    /// Returns the frame's period of 80 ms: its number, divided by 8.
    pub(crate) fn period(&self) -> u16
        ensures { result ≡ self.now.period }
    {
        self.period
    }

    /// Returns the number of control channel elements.
    pub(crate) fn elements(&self) -> usize
        ensures { result ≡ self.now.elements }
    {
        self.elements
    }

    /// Returns the grants with their sums, in the order of search.
    pub(crate) fn offers(&self) -> &[GrantSums]
        ensures { result.now ≡ self.now.offers }
    {
        &self.offers
    }
}

// Returns grants with the sums of their soft values.
fn offers_of(
    alloc: Global,
    first: &WideSlot,
    second: &WideSlot,
    cfi: Cfi,
    grants: &[WideGrant],
) -> Result<Vec<GrantSums>, AllocError>
    requires first { first.now.slot.number ≡ 10 }
    requires second { second.now.slot.number ≡ 11 }
    requires same { second.now.cell ≡ first.now.cell }
    requires bounded { All IsBounded grants.now }
    ensures { IfOk result (λ offers. offers.items ≡ map (offer_of first.now second.now cfi) grants.now) }
{
    let mut offers = Vec::with_capacity(alloc, grants.len())?;
    for grant in grants {
        offers.push(sums_of(alloc, first, second, cfi, grant)?)?;
    }
    Ok(offers)
}

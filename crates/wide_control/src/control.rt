//! What the control channels say.

ghost use Rattle.std.specs.Prelude.{◌≡◌, ◌+◌, ◌*◌, ◌/◌, ◌≤◌, ◌∷◌, ◌++◌, [], All, IfOk, IfSome, List, OnOk, length};
ghost use Rattle.pcfich.specs.Indicator.{IsIndicator};
ghost use Rattle.wide_grid.specs.Group.{AreGroups};
ghost use Rattle.wide_grid.specs.Control.{element_count};
ghost use Rattle.wide_control.specs.Values.{indicator_values as indicator_values_of, ordered_groups as ordered_groups_of};
ghost use Rattle.wide_control.specs.Control.{Search, searches, searches_of, grants_among, AreGrants, IsControl, IsBounded};

use crate::values::{candidate_values, indicator_values};
use crate::{DciFormat, offer};
use lte_types::{Cfi, Sfn};
use pcfich::indicator;
use std::alloc::{AllocError, Global};
use std::marker::Model;
use tailbite::Trellis;
use wide_cell::WideCell;
use wide_grant::WideGrant;
use wide_grid::{CANDIDATES, Candidate, WideReg, has_candidate, pdcch_groups, quadruplet_groups};
use wide_slot::WideSlot;

/// What the control channels of a subframe say: the control format indicator, the number of control channel elements,
/// and the grants in the common search space, in the order in which they are searched. Contracts see the three.
#[derive(Debug, Drop)]
pub struct Control {
    cfi: Cfi,
    elements: usize,
    grants: Vec<WideGrant>,
}

impl Model for Control {
    ghost use Rattle.std.specs.Prelude.{All};
    ghost use Rattle.wide_control.specs.Control.{SeenControl, IsBounded};

    ghost Value = { SeenControl };

    ghost view = { λ c. record { cfi = c.cfi; elements = c.elements; grants = c.grants.items } };

    ghost invariant = { λ c. All IsBounded c.grants.items };
}

impl Control {
    /// Returns the control format indicator.
    pub fn cfi(&self) -> Cfi
        ensures { result ≡ self.now.cfi }
    {
        self.cfi
    }

    /// Returns the number of control channel elements (TS 36.211 section 6.8.1).
    pub fn elements(&self) -> usize
        ensures { result ≡ self.now.elements }
    {
        self.elements
    }

    /// Returns the grants, in the order in which they are searched.
    pub fn grants(&self) -> &[WideGrant]
        ensures grants { result.now ≡ self.now.grants }
        ensures bounded { All IsBounded result.now }
    {
        &self.grants
    }
}

/// Returns what the control channels of subframe 5 say in frame `sfn`. `slot` is slot 10. Fails only if an allocation
/// fails. (own: the order of the search)
pub fn control_in(
    alloc: Global,
    slot: &WideSlot,
    sfn: Sfn,
    work: &mut Trellis,
) -> Result<Control, AllocError>
    requires number { slot.now.slot.number ≡ 10 }
    ensures { IfOk result (IsControl slot.now sfn) }
{
    let cfi = cfi_in(alloc, slot)?;
    let groups = ordered_groups(alloc, slot.cell(), cfi)?;
    let elements = groups.len() / 9;
    let grants = grants_in(alloc, slot, sfn, &groups, elements, work)?;
    Ok(Control {
        cfi,
        elements,
        grants,
    })
}

// Returns the control format indicator.
fn cfi_in(alloc: Global, slot: &WideSlot) -> Result<Cfi, AllocError>
    requires { slot.now.slot.number ≡ 10 }
    ensures { IfOk result (IsIndicator (indicator_values_of slot.now)) }
{
    let values = indicator_values(alloc, slot)?;
    Ok(indicator(&array_of(&values)))
}

// Returns 32 values as an array.
fn array_of(values: &[i16]) -> [i16; 32]
    requires { length values.now ≡ 32 }
    ensures { result ≡ values.now }
{
    let mut array = [0; 32];
    array.copy_from_slice(values);
    array
}

// Returns the PDCCH groups in quadruplet order.
fn ordered_groups(alloc: Global, cell: &WideCell, cfi: Cfi) -> Result<Vec<WideReg>, AllocError>
    ensures groups { IfOk result (λ groups. groups.items ≡ ordered_groups_of cell.now cfi) }
    ensures valid { IfOk result (λ groups. AreGroups cell.now groups.items) }
    ensures count { IfOk result (λ groups. length groups.items / 9 ≡ element_count cell.now cfi) }
{
    let groups = pdcch_groups(alloc, cell, cfi)?;
    quadruplet_groups(alloc, cell, &groups)
}

// Returns the grants in a PDCCH with `elements` control channel elements and these groups in quadruplet order.
fn grants_in(
    alloc: Global,
    slot: &WideSlot,
    sfn: Sfn,
    groups: &[WideReg],
    elements: usize,
    work: &mut Trellis,
) -> Result<Vec<WideGrant>, AllocError>
    requires number { slot.now.slot.number ≡ 10 }
    requires groups { AreGroups slot.now.cell groups.now }
    requires elements { 9 * elements ≤ length groups.now }
    ensures grants { IfOk result (λ grants. AreGrants slot.now sfn groups.now (searches elements) grants.items) }
    ensures bounded { IfOk result (λ grants. All IsBounded grants.items) }
{
    let mut grants = Vec::new(alloc);
    for i in 0..6 {
        let candidate = CANDIDATES[i];
        if has_candidate(elements, candidate) {
            add_offers(&mut grants, alloc, slot, sfn, groups, candidate, work)?;
        }
    }
    Ok(grants)
}

// Appends the grants that a candidate offers.
fn add_offers(
    grants: &mut Vec<WideGrant>,
    alloc: Global,
    slot: &WideSlot,
    sfn: Sfn,
    groups: &[WideReg],
    candidate: Candidate,
    work: &mut Trellis,
) -> Result<(), AllocError>
    requires number { slot.now.slot.number ≡ 10 }
    requires groups { AreGroups slot.now.cell groups.now }
    requires there { 9 * (candidate.first + candidate.level) ≤ length groups.now }
    requires first { candidate.first ≤ 12 }
    requires level { candidate.level ≤ 8 }
    requires bounded { All IsBounded grants.old.items }
    ensures grants { OnOk result ((done : List Search) →
        AreGrants slot.now sfn groups.now done grants.old.items →
        AreGrants slot.now sfn groups.now (done ++ searches_of candidate) grants.new.items) }
    ensures bounded { OnOk result (All IsBounded grants.new.items) }
{
    let values = candidate_values(alloc, slot, groups, candidate)?;
    let long = offer(slot.cell(), sfn, DciFormat::Format1A, &values, work);
    add_offer(grants, long)?;
    let short = offer(slot.cell(), sfn, DciFormat::Format1C, &values, work);
    add_offer(grants, short)
}

// Appends the grant that a search found, if there is one.
fn add_offer(grants: &mut Vec<WideGrant>, found: Option<WideGrant>) -> Result<(), AllocError>
    requires bounded { All IsBounded grants.old.items }
    requires found { IfSome found IsBounded }
    ensures grants { OnOk result (grants.new.items ≡ grants.old.items ++ grants_among (found ∷ [])) }
    ensures bounded { OnOk result (All IsBounded grants.new.items) }
{
    if let Some(grant) = found {
        grants.push(grant)?;
    }
    Ok(())
}

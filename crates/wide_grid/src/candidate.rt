//! PDCCH candidates.

ghost use Rattle.std.specs.Prelude.{◌≡◌, ◌+◌, ◌*◌, ◌<◌, ◌≤◌, IfOk, length};
ghost use Rattle.wide_grid.specs.Group.{AreGroups, AreInside};
ghost use Rattle.wide_grid.specs.Candidate.{candidates, candidate_places as candidate_places_of};
ghost use Rattle.wide_grid.specs.Candidate.{has_candidate as has_candidate_of};

use crate::WideReg;
use crate::group::add_group_places;
use std::alloc::{AllocError, Global};
use wide_cell::{WideCell, WidePlace};

/// A PDCCH candidate: consecutive control channel elements (TS 36.213 section 9.1.1).
#[derive(Clone, Copy, Debug, PartialEq, Eq)]
pub struct Candidate {
    /// The aggregation level, the number of control channel elements: 4 or 8.
    pub level: u8,
    /// The first control channel element: 0, 4, 8 or 12.
    pub first: u8,
}

/// The candidates of the common search space, in the order in which they are tried. (own)
pub const CANDIDATES: [Candidate; 6] = [
    Candidate { level: 8, first: 0 },
    Candidate { level: 8, first: 8 },
    Candidate { level: 4, first: 0 },
    Candidate { level: 4, first: 4 },
    Candidate { level: 4, first: 8 },
    Candidate {
        level: 4,
        first: 12,
    },
];

/// A law: `CANDIDATES` lists the candidates of the common search space in the order of their definition.
pub fn candidates_are()
    ensures { CANDIDATES ≡ candidates }
{}

/// Returns whether a PDCCH with `count` control channel elements has the candidate.
pub fn has_candidate(count: usize, candidate: Candidate) -> bool
    ensures { result ≡ has_candidate_of count candidate }
{
    candidate.first as usize + candidate.level as usize <= count
}

/// Returns a candidate's resource elements, 36 for each control channel element, from the PDCCH groups in the order of
/// their quadruplets (TS 36.211 section 6.8.5).
pub fn candidate_places(
    alloc: Global,
    cell: &WideCell,
    groups: &[WideReg],
    candidate: Candidate,
) -> Result<Vec<WidePlace>, AllocError>
    requires there { 9 * (candidate.first + candidate.level) ≤ length groups.now }
    requires groups { AreGroups cell.now groups.now }
    ensures places { IfOk result (λ places. places.items ≡ candidate_places_of cell.now groups.now candidate) }
    ensures inside { IfOk result (λ places. AreInside cell.now places.items) }
    ensures count { IfOk result (λ places. length places.items ≡ 36 * candidate.level) }
{
    let mut places = Vec::new(alloc);
    for j in 0..9 * candidate.level as usize {
        let group = groups[9 * candidate.first as usize + j];
        add_group_places(&mut places, cell, group)?;
    }
    Ok(places)
}

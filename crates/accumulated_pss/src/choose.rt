//! Maxima and candidates.

ghost use Rattle.std.specs.Prelude.{◌≡◌, ◌+◌, ◌<◌, ◌≤◌, ℕ, All, [], ◌∷◌, ◌++◌, cond, filter, length, IfOk};
ghost use Rattle.lte_types.specs.Numerology.{half_frame_length};
ghost use Rattle.pss_search.specs.Hits.{first_place};
ghost use Rattle.accumulated_pss.specs.Sums.{IsPosition, row_in};
ghost use Rattle.accumulated_pss.specs.Maxima.{precedes as precedes_of, maxima as maxima_of, rank as rank_of};
ghost use Rattle.accumulated_pss.specs.Maxima.{candidates as candidates_of};
ghost use Rattle.accumulated_pss.specs.Tests.{is_maximum as is_maximum_of, stands_out as stands_out_of};
ghost use Rattle.accumulated_pss.specs.Tests.{stands_out_by as stands_out_by_of};

use crate::Accumulated;
use crate::sums::FIRST_POSITION;
use lte_types::HALF_FRAME_LENGTH;
use std::alloc::{AllocError, Global};

// A maximum has no greater sum at this distance.
const REACH: usize = 9;

// How many maxima of a primary signal are candidates.
const CANDIDATES: usize = 64;

/// Returns the candidates of the primary signal `n2`, 0 to 2, in ascending order: the maxima that fewer than 64 maxima
/// precede, by greater sum, then by position. Fails only if an allocation fails. (own)
pub fn candidates(alloc: Global, sums: &Accumulated, n2: u8) -> Result<Vec<u32>, AllocError>
    requires { n2 ≤ 2 }
    ensures list { IfOk result (λ list. list.items ≡ candidates_of (row_in sums.now n2)) }
    ensures positions { IfOk result (λ list. All IsPosition list.items) }
    ensures few { IfOk result (λ list. length list.items ≤ 64) }
{
    let row = sums.row(n2);
    let maxima = maxima(alloc, row)?;
    let mut list = Vec::new(alloc);
    for k in 0..maxima.len() {
        let t = maxima[k];
        add(&mut list, t, rank(row, &maxima, t) < CANDIDATES)?;
    }
    Ok(list)
}

// Appends a position if it is selected.
fn add(list: &mut Vec<u32>, t: u32, selected: bool) -> Result<(), AllocError>
    ensures { IfOk result (λ _. list.new.items ≡ list.old.items ++ cond selected (t ∷ []) []) }
{
    if selected {
        list.push(t)?;
    }
    Ok(())
}

// Returns the positions of the maxima in ascending order.
fn maxima(alloc: Global, row: &[u32]) -> Result<Vec<u32>, AllocError>
    requires { length row.now ≡ half_frame_length }
    ensures { IfOk result (λ list. list.items ≡ maxima_of row.now) }
{
    let mut list = Vec::new(alloc);
    for i in 0..HALF_FRAME_LENGTH {
        add(&mut list, (FIRST_POSITION + i) as u32, is_maximum(row, i))?;
    }
    Ok(list)
}

// Returns whether position 137 + `i` is a maximum.
fn is_maximum(row: &[u32], i: usize) -> bool
    requires count { length row.now ≡ half_frame_length }
    requires i { i < half_frame_length }
    ensures { result ≡ is_maximum_of row.now (first_place + i) }
{
    row[i] > 0 && stands_out(row, i)
}

// Returns whether no sum within nine positions of 137 + `i` is greater, and none before it is equal.
fn stands_out(row: &[u32], i: usize) -> bool
    requires count { length row.now ≡ half_frame_length }
    requires i { i < half_frame_length }
    ensures { result ≡ stands_out_of row.now (first_place + i) }
{
    for d in 0..REACH {
        if !stands_out_by(row, i, d) {
            return false;
        }
    }
    true
}

// Returns whether the sum `d` + 1 positions after 137 + `i` is not greater, and the sum as many before it is less.
fn stands_out_by(row: &[u32], i: usize, d: usize) -> bool
    requires count { length row.now ≡ half_frame_length }
    requires i { i < half_frame_length }
    requires d { d < 9 }
    ensures { result ≡ stands_out_by_of row.now (first_place + i) d }
{
    let own = row[i];
    let after = row[(i + (d + 1)) % HALF_FRAME_LENGTH];
    let before = row[(i + (HALF_FRAME_LENGTH - 1 - d)) % HALF_FRAME_LENGTH];
    after <= own && before < own
}

// Returns how many of the maxima precede position `t`.
fn rank(row: &[u32], maxima: &[u32], t: u32) -> usize
    requires count { length row.now ≡ half_frame_length }
    requires maxima { All IsPosition maxima.now }
    requires t { IsPosition t }
    ensures { result ≡ length (filter (λ u. precedes_of row.now u t) maxima.now) }
{
    let mut count = 0;
    for k in 0..maxima.len() {
        count += precedes(row, maxima[k], t) as usize;
    }
    count
}

// Returns whether position `t` precedes `u`: its sum is greater, or equal and `t` is earlier.
#[tactic(auto, using(std::proofs::lemmas::Bool::Decides::nat_tests), unfolding(crate::specs::Maxima::precedes))]
pub(crate) fn precedes(row: &[u32], t: u32, u: u32) -> bool
    requires count { length row.now ≡ half_frame_length }
    requires t { IsPosition t }
    requires u { IsPosition u }
    ensures { result ≡ precedes_of row.now t u }
{
    let first = row[t as usize - FIRST_POSITION];
    let second = row[u as usize - FIRST_POSITION];
    second < first || (first == second && t < u)
}

//! Echoes: cells that are not listed, since a cell of the same identity precedes them near by.

ghost use Rattle.std.specs.Prelude.{◌≡◌, ◌≤◌, ◌++◌, ◌∷◌, [], All, IfOk, cond};
ghost use Rattle.std.specs.List.{list_any};
ghost use Rattle.accumulated_pss.specs.Sums.{IsPosition, row_in};
ghost use Rattle.accumulated_pss.specs.Maxima.{distance as distance_of};
ghost use Rattle.accumulated_list.specs.Steps.{is_echo as is_echo_of, is_no_echo, without_echoes};

use crate::cell::DetectedCell;
use accumulated_pss::Accumulated;
use lte_types::HALF_FRAME_LENGTH;
use std::alloc::AllocError;

// A cell has its echoes at this distance, in samples.
const ECHO: u32 = 137;

// Appends those of `cells`, the cells of the primary signal `n2`, that are not echoes of another.
pub(crate) fn add_listed(
    list: &mut Vec<DetectedCell>,
    sums: &Accumulated,
    n2: u8,
    cells: &[DetectedCell],
) -> Result<(), AllocError>
    requires member { n2 ≤ 2 }
    requires positions { All (λ cell. IsPosition cell.position) cells.now }
    ensures { IfOk result (λ _. list.new.items ≡ list.old.items ++ without_echoes (row_in sums.now n2) cells.now) }
{
    for k in 0..cells.len() {
        add_unless_echo(list, sums, n2, cells, &cells[k])?;
    }
    Ok(())
}

// Appends `cell`, unless it is an echo of one of `cells`, the cells of the primary signal `n2`.
#[tactic(auto, unfolding(crate::specs::Steps::is_no_echo))]
fn add_unless_echo(
    list: &mut Vec<DetectedCell>,
    sums: &Accumulated,
    n2: u8,
    cells: &[DetectedCell],
    cell: &DetectedCell,
) -> Result<(), AllocError>
    requires member { n2 ≤ 2 }
    requires positions { All (λ other. IsPosition other.position) cells.now }
    requires position { IsPosition cell.now.position }
    ensures { IfOk result (λ _. list.new.items ≡
        list.old.items ++ cond (is_no_echo (row_in sums.now n2) cells.now cell.now) (cell.now ∷ []) []) }
{
    if !has_echo(sums, n2, cells, cell) {
        list.push(*cell)?;
    }
    Ok(())
}

// Returns whether `cell` is an echo of one of `cells`, the cells of the primary signal `n2`.
fn has_echo(sums: &Accumulated, n2: u8, cells: &[DetectedCell], cell: &DetectedCell) -> bool
    requires member { n2 ≤ 2 }
    requires positions { All (λ other. IsPosition other.position) cells.now }
    requires position { IsPosition cell.now.position }
    ensures { result ≡ list_any (λ other. is_echo_of (row_in sums.now n2) other cell.now) cells.now }
{
    for k in 0..cells.len() {
        if is_echo(sums, n2, &cells[k], cell) {
            return true;
        }
    }
    false
}

// Returns whether `cell` is an echo of `other`; both are cells of the primary signal `n2`.
#[tactic(auto, using(std::proofs::lemmas::Bool::Decides::nat_tests), unfolding(crate::specs::Steps::is_echo))]
fn is_echo(sums: &Accumulated, n2: u8, other: &DetectedCell, cell: &DetectedCell) -> bool
    requires member { n2 ≤ 2 }
    requires first { IsPosition other.now.position }
    requires second { IsPosition cell.now.position }
    ensures { result ≡ is_echo_of (row_in sums.now n2) other.now cell.now }
{
    let is_near = distance(other.position, cell.position) <= ECHO;
    let is_first = sums.precedes(n2, other.position, cell.position);
    other.id.value() == cell.id.value() && is_near && is_first
}

// Returns the distance of two positions on the circle of a half-frame.
fn distance(t: u32, u: u32) -> u32
    requires first { IsPosition t }
    requires second { IsPosition u }
    ensures { result ≡ distance_of t u }
{
    let circle = HALF_FRAME_LENGTH as u32;
    let forwards = (u + circle - t) % circle;
    let backwards = (t + circle - u) % circle;
    forwards.min(backwards)
}

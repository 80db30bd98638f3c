// Counts and checksums are from the reference implementation, `python/lte_reference/wide_rows.py`.
ghost use Rattle.std.specs.Prelude.{◌≤◌, ◌<◌, ◌+◌, ◌≡◌, IfOk};

use crate::checksum::{after, after_blocks};
use lte_types::{Bandwidth, CellId, Duration, Resource, Sfn};
use std::alloc::{AllocError, Global};
use std::test::Fail;
use wide_cell::WideCell;
use wide_grant::{Refusal, WideGrant, allocated_blocks, bits_1a, bits_1c, grant_1a, grant_1c};

// Fills `bits` with the low bits of numbers drawn from `state`, and returns the next state.
fn draw(state: u32, bits: &mut [bool]) -> u32 {
    let mut state = state;
    for i in 0..bits.len() {
        state = state.wrapping_mul(1_103_515_245).wrapping_add(12_345) & 0x7fff_ffff;
        bits[i] = (state >> 16) % 2 == 1;
    }
    state
}

// Returns count and checksum after one more answer.
fn after_answer(
    alloc: Global,
    cell: &WideCell,
    answer: Result<WideGrant, Refusal>,
    count: u32,
    sum: u64,
) -> Result<(u32, u64), AllocError>
    requires { IfOk answer (λ grant. grant.run.start + grant.run.blocks ≤ 1000) }
{
    match answer {
        Ok(grant) => {
            let sum = after(after(sum, grant.size as usize), grant.rv as usize);
            let sum = after_blocks(sum, &allocated_blocks(alloc, cell, &grant, false)?);
            let sum = after_blocks(sum, &allocated_blocks(alloc, cell, &grant, true)?);
            Ok((count.wrapping_add(1), sum))
        }
        Err(_) => Ok((count, after(sum, 0))),
    }
}

fn cell_of(bandwidth: Bandwidth) -> Option<WideCell> {
    let id = CellId::new(0)?;
    WideCell::new(id, 1, bandwidth, Duration::Normal, Resource::One)
}

// Returns how many of 2,000 drawn payloads of format 1A have a grant, and the checksum of the answers.
fn answers_1a(alloc: Global, cell: &WideCell) -> Result<(u32, u64), AllocError> {
    let mut bits = [false; 32];
    let size = bits_1a(cell);
    let mut state = cell.blocks() as u32;
    let mut found = (0, 0);
    for _ in 0..2000 {
        state = draw(state, &mut bits[..size]);
        let answer = grant_1a(cell, &bits[..size]);
        found = after_answer(alloc, cell, answer, found.0, found.1)?;
    }
    Ok(found)
}

// Returns how many of 2,000 drawn payloads of format 1C have a grant, and the checksum of the answers.
fn answers_1c(alloc: Global, cell: &WideCell) -> Result<(u32, u64), AllocError> {
    let mut bits = [false; 32];
    let size = bits_1c(cell);
    let mut state = cell.blocks() as u32;
    let mut found = (0, 0);
    for w in 0..2000 {
        state = draw(state, &mut bits[..size]);
        let answer = grant_1c(cell, Sfn::modulo(2 * w), &bits[..size]);
        found = after_answer(alloc, cell, answer, found.0, found.1)?;
    }
    Ok(found)
}

// Format 1A by bandwidth: the number of bits, how many payloads have a grant, and the checksum.
const FORMAT_1A: [(Bandwidth, usize, u32, u64); 6] = [
    (Bandwidth::N6, 21, 545, 3_315_766_689),
    (Bandwidth::N15, 22, 796, 1_898_040_042),
    (Bandwidth::N25, 25, 566, 796_518_309),
    (Bandwidth::N50, 27, 402, 1_571_894_157),
    (Bandwidth::N75, 27, 530, 201_998_236),
    (Bandwidth::N100, 28, 523, 1_279_358_420),
];

#[test]
fn grants_of_format_1a_are_the_references(rt: HostRuntime) -> Result<(), Fail> {
    for (bandwidth, size, count, sum) in FORMAT_1A {
        let cell = cell_of(bandwidth).ok_or("a cell")?;
        assert!(rt; bits_1a(&cell) == size, "{bandwidth}");
        assert!(rt;
            answers_1a(rt.alloc(), &cell)? == (count, sum),
            "{bandwidth}"
        );
    }
    Ok(())
}

// Format 1C by bandwidth: the number of bits, how many payloads have a grant, and the checksum.
const FORMAT_1C: [(Bandwidth, usize, u32, u64); 6] = [
    (Bandwidth::N6, 8, 1_522, 287_248_096),
    (Bandwidth::N15, 10, 1_739, 867_228_342),
    (Bandwidth::N25, 12, 1_212, 296_168_968),
    (Bandwidth::N50, 13, 834, 1_026_810_340),
    (Bandwidth::N75, 14, 1_080, 2_644_116_301),
    (Bandwidth::N100, 15, 1_147, 389_323_651),
];

#[test]
fn grants_of_format_1c_are_the_references(rt: HostRuntime) -> Result<(), Fail> {
    for (bandwidth, size, count, sum) in FORMAT_1C {
        let cell = cell_of(bandwidth).ok_or("a cell")?;
        assert!(rt; bits_1c(&cell) == size, "{bandwidth}");
        assert!(rt;
            answers_1c(rt.alloc(), &cell)? == (count, sum),
            "{bandwidth}"
        );
    }
    Ok(())
}

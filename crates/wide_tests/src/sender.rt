//! Subframe 5 of a cell as the reference implementation sends it, `python/lte_reference/wide_subframes.py`: reference
//! signals, PCFICH, and the PDCCH candidates and PDSCH of grants, in whole numbers.
ghost use Rattle.std.specs.Prelude.{◌<◌, ◌≤◌};

use crate::rows::Row;
use crate::slots::rate_of;
use crs::{Pattern, c_init};
use cs_num::{Cpx, Sample};
use halving::WideRecording;
use std::alloc::{AllocError, Global};
use std::test::Fail;
use tones::wide_start;
use wide_cell::{WideCell, WidePlace, points};
use wide_grant::{WideGrant, allocated_blocks};
use wide_grid::{
    Candidate, candidate_places, has_candidate, pcfich_places, pdcch_groups, pdsch_places,
    quadruplet_groups,
};

// The gains of the antenna ports.
const GAINS: [Cpx; 4] = [
    Cpx { re: 5, im: 2 },
    Cpx { re: -3, im: 4 },
    Cpx { re: 2, im: -5 },
    Cpx { re: -4, im: -3 },
];

// 2^30 times the first root of unity of 2,048.
const STEP: Cpx = Cpx {
    re: 1_073_736_771,
    im: 3_294_193,
};

// The port and symbol of reference signals, with their first subcarriers in an even and an odd slot, before the shift by
// the cell's identity (TS 36.211 section 6.10.1.2).
const REFERENCES: [(u8, u8, u16, u16); 6] = [
    (0, 0, 0, 0),
    (0, 4, 3, 3),
    (1, 0, 3, 3),
    (1, 4, 0, 0),
    (2, 1, 0, 3),
    (3, 1, 3, 0),
];

const ZERO: Cpx = Cpx { re: 0, im: 0 };

fn sum(a: Cpx, b: Cpx) -> Cpx {
    Cpx {
        re: a.re.wrapping_add(b.re),
        im: a.im.wrapping_add(b.im),
    }
}

fn product(a: Cpx, b: Cpx) -> Cpx {
    Cpx {
        re: a
            .re
            .wrapping_mul(b.re)
            .wrapping_sub(a.im.wrapping_mul(b.im)),
        im: a
            .re
            .wrapping_mul(b.im)
            .wrapping_add(a.im.wrapping_mul(b.re)),
    }
}

// Returns the point with these sign bits.
fn point(first: bool, second: bool) -> Cpx {
    Cpx {
        re: if first { -1 } else { 1 },
        im: if second { -1 } else { 1 },
    }
}

fn gain_of(port: u8) -> Cpx {
    GAINS[port as usize % 4]
}

// Returns bit `i` of a row, from the highest bit of each number on.
pub(crate) fn bit_at(row: &Row, i: usize) -> bool {
    match row.bits.get(i / 64) {
        Some(number) => *number >> (63 - i % 64) & 1 == 1,
        None => false,
    }
}

// The points of 14 symbols, added over the ports.
#[derive(Drop)]
struct Grid {
    cell: WideCell,
    points: Vec<Cpx>,
}

impl Grid {
    fn new(alloc: Global, cell: &WideCell) -> Result<Grid, AllocError> {
        let count = 14 * cell.subcarriers() as usize;
        Ok(Grid {
            cell: *cell,
            points: vec![in alloc; ZERO; count]?,
        })
    }

    fn add(&mut self, place: WidePlace, port: u8, point: Cpx) {
        let at = place.symbol as usize * self.cell.subcarriers() as usize + place.k as usize;
        if at < self.points.len() {
            self.points[at] = sum(self.points[at], product(gain_of(port), point));
        }
    }

    // Adds the reference signals of a port in a symbol of slot 10 or 11.
    fn add_references(&mut self, port: u8, half: u8, symbol: u8, first: u16)
        requires half { half < 2 }
        requires symbol { symbol < 7 }
        requires first { first < 6 }
    {
        let mut bits = [false; 440];
        let init = c_init(Pattern::FIRST_PORT, self.cell.id(), 10 + half, symbol);
        gold::fill(init, &mut bits);
        let blocks = self.cell.blocks() as usize;
        for m in 0..2 * blocks {
            let at = 2 * (110 - blocks + m);
            let place = WidePlace {
                symbol: 7 * half + symbol,
                k: 6 * m as u16 + first,
            };
            self.add(place, port, point(bits[at], bits[at + 1]));
        }
    }

    // Adds the reference signals of all ports.
    fn add_all_references(&mut self) {
        let shift = self.cell.id().value() % 6;
        for (port, symbol, even, odd) in REFERENCES {
            if port < self.cell.ports() && symbol < 7 {
                self.add_references(port, 0, symbol, (even % 6 + shift) % 6);
                self.add_references(port, 1, symbol, (odd % 6 + shift) % 6);
            }
        }
    }

    // Adds the points of a row from bit `first` on, with transmit diversity if the cell has several ports (TS 36.211
    // section 6.3.4.3). Returns the number of the next bit.
    fn add_points(&mut self, row: &Row, first: usize, places: &[WidePlace]) -> usize {
        let mut next = first;
        for (i, place) in places.iter().enumerate() {
            self.add_point(row, next, i, *place);
            next = next.wrapping_add(2);
        }
        next
    }

    // Adds point `i` of a channel, whose sign bits begin at bit `at` of the row.
    fn add_point(&mut self, row: &Row, at: usize, i: usize, place: WidePlace) {
        let ports = self.cell.ports();
        let lower = if ports == 4 { (i / 2 % 2) as u8 } else { 0 };
        let own = point(bit_at(row, at), bit_at(row, at.wrapping_add(1)));
        self.add(place, lower, own);
        if ports > 1 {
            let other = if i % 2 == 0 {
                // The negative conjugate of the pair's second point.
                point(
                    !bit_at(row, at.wrapping_add(2)),
                    bit_at(row, at.wrapping_add(3)),
                )
            } else {
                // The conjugate of the pair's first point.
                point(
                    bit_at(row, at.wrapping_sub(2)),
                    !bit_at(row, at.wrapping_sub(1)),
                )
            };
            self.add(place, lower + ports / 2, other);
        }
    }
}

// Returns the resource elements of a candidate, or none if there is no such candidate.
pub(crate) fn places_of(
    alloc: Global,
    cell: &WideCell,
    row: &Row,
    candidate: Candidate,
) -> Result<Vec<WidePlace>, Fail> {
    let cfi = row.cfi()?;
    let groups = pdcch_groups(alloc, cell, cfi)?;
    let ordered = quadruplet_groups(alloc, cell, &groups)?;
    if has_candidate(ordered.len() / 9, candidate) {
        Ok(candidate_places(alloc, cell, &ordered, candidate)?)
    } else {
        Ok(Vec::new(alloc))
    }
}

// Returns the resource elements of a grant.
fn shared_places(
    alloc: Global,
    cell: &WideCell,
    row: &Row,
    grant: &WideGrant,
) -> Result<Vec<WidePlace>, Fail> {
    if grant.run.start > 500 || grant.run.blocks > 500 {
        return Ok(Vec::new(alloc));
    }
    let first = allocated_blocks(alloc, cell, grant, false)?;
    let second = allocated_blocks(alloc, cell, grant, true)?;
    Ok(pdsch_places(alloc, cell, row.cfi()?, &first, &second)?)
}

// Returns the points of a row's subframe.
fn grid_of(alloc: Global, row: &Row, cell: &WideCell) -> Result<Grid, Fail> {
    let mut grid = Grid::new(alloc, cell)?;
    grid.add_all_references();
    let mut next = grid.add_points(row, 0, &pcfich_places(alloc, cell)?);
    for (_, candidate, grant) in row.sent {
        next = grid.add_points(row, next, &places_of(alloc, cell, row, *candidate)?);
        next = grid.add_points(row, next, &shared_places(alloc, cell, row, grant)?);
    }
    Ok(grid)
}

// Returns 2^30 times the roots of unity of 2,048.
fn roots() -> [Cpx; 2048] {
    let mut roots = [Cpx { re: 1 << 30, im: 0 }; 2048];
    for m in 1..2048 {
        let next = product(roots[m - 1], STEP);
        roots[m] = Cpx {
            re: next.re >> 30,
            im: next.im >> 30,
        };
    }
    roots
}

fn component(total: i64) -> i16 {
    (total >> 30).clamp(-32_768, 32_767) as i16
}

// A point of a symbol that is not 0, and its frequency modulo 2,048.
#[derive(Clone, Copy)]
struct Tone {
    frequency: usize,
    point: Cpx,
}

// Returns the points of a symbol that are not 0.
fn tones_of(alloc: Global, symbol: &[Cpx]) -> Result<Vec<Tone>, AllocError> {
    let half = symbol.len() / 2;
    let mut tones = Vec::new(alloc);
    for (k, point) in symbol.iter().enumerate() {
        let above = if k < half { 0 } else { 1 };
        let frequency = k.wrapping_sub(half).wrapping_add(above) % 2048;
        if point.re != 0 || point.im != 0 {
            tones.push(Tone {
                frequency,
                point: *point,
            })?;
        }
    }
    Ok(tones)
}

// Returns the sample of a symbol at which the lowest frequency's root is number `turn`.
fn sample_of(tones: &[Tone], roots: &[Cpx; 2048], turn: usize) -> Sample {
    let mut total = ZERO;
    for tone in tones {
        let root = roots[tone.frequency.wrapping_mul(turn) % 2048];
        total = sum(total, product(tone.point, root));
    }
    Sample {
        re: component(total.re),
        im: component(total.im),
    }
}

// Returns the distance in the table of roots for symbols of `count` samples.
fn stride_of(count: usize) -> usize {
    if count == 0 { 0 } else { 2048 / count }
}

// Returns the samples of the 14 useful parts of a row's subframe.
pub(crate) fn symbols_of(alloc: Global, row: &Row) -> Result<Vec<Sample>, Fail> {
    let cell = row.cell()?;
    let grid = grid_of(alloc, row, &cell)?;
    let roots = roots();
    let count = points(rate_of(row.bandwidth));
    let stride = stride_of(count);
    let mut samples = Vec::new(alloc);
    for symbol in grid.points.chunks(cell.subcarriers() as usize) {
        let tones = tones_of(alloc, symbol)?;
        for t in 0..count {
            samples.push(sample_of(&tones, &roots, t.wrapping_mul(stride)))?;
        }
    }
    Ok(samples)
}

// Writes the useful parts of subframe 5 in the frame that begins at sample `start` at 1.92 million samples per second.
fn put(samples: &mut [Sample], rate: u8, start: usize, symbols: &[Sample])
    requires rate { rate ≤ 4 }
    requires start { start < 200000 }
{
    let count = points(rate);
    for l in 0..14_u8 {
        let from = (l as usize).wrapping_mul(count);
        let to = wide_start(rate, start, 10 + l / 7, l % 7);
        if from <= symbols.len()
            && count <= symbols.len() - from
            && to <= samples.len()
            && count <= samples.len() - to
        {
            samples[to..to + count].copy_from_slice(&symbols[from..from + count]);
        }
    }
}

// Returns 30 ms with these symbols in subframe 5 of the frame that begins at sample `start`, and any others in the one
// two frames later.
pub(crate) fn recording_of(
    alloc: Global,
    rate: u8,
    start: usize,
    symbols: &[Sample],
    later: &[Sample],
) -> Result<Option<WideRecording>, AllocError>
    requires rate { rate ≤ 4 }
    requires start { start < 100000 }
{
    let mut samples = vec![in alloc; Sample { re: 0, im: 0 }; 57_600 << rate]?;
    put(&mut samples, rate, start, symbols);
    put(&mut samples, rate, start + 38_400, later);
    Ok(WideRecording::new(samples, rate))
}

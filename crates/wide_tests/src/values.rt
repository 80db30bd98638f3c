// Checksums are from the reference implementation, `python/lte_reference/wide_rows.py`.
ghost use Rattle.std.specs.Prelude.{◌≡◌, ◌<◌, ◌^◌};

use crate::cells::{cell_of, cfi_of};
use crate::checksum::{after_large, after_signed};
use crate::places::grant_of;
use crate::samples::subframe;
use crate::slots::{rate_of, received};
use grid_map::{pcfich_c_init, pdcch_c_init, pdsch_c_init};
use halving::WideRecording;
use lte_types::{Bandwidth, Cfi};
use std::alloc::{AllocError, Global};
use std::test::Fail;
use tones::Tones;
use wide_cell::{WideCell, WidePlace};
use wide_grant::allocated_blocks;
use wide_grid::{
    CANDIDATES, candidate_places, has_candidate, pcfich_places, pdcch_groups, pdsch_places,
    quadruplet_groups,
};
use wide_slot::{WideSlot, descrambled, soft_values};

// Returns the checksum of the descrambled values of a list of resource elements.
fn checksum(
    alloc: Global,
    first: &WideSlot,
    second: &WideSlot,
    places: &[WidePlace],
    c_init: u32,
) -> Result<u64, AllocError>
    requires same { second.now.cell ≡ first.now.cell }
    requires c_init { c_init < 2 ^ 31 }
{
    let values = soft_values(alloc, first, second, places)?;
    let mut sum = 0;
    if values.len() <= 5760 {
        for value in &descrambled(alloc, c_init, 0, &values)? {
            sum = after_signed(sum, *value as i64);
        }
    }
    Ok(sum)
}

// Returns the resource elements of the first candidate of level 4, or none if there is no such candidate.
fn third_candidate(alloc: Global, cell: &WideCell, cfi: Cfi) -> Result<Vec<WidePlace>, AllocError> {
    let groups = pdcch_groups(alloc, cell, cfi)?;
    let ordered = quadruplet_groups(alloc, cell, &groups)?;
    if has_candidate(ordered.len() / 9, CANDIDATES[2]) {
        candidate_places(alloc, cell, &ordered, CANDIDATES[2])
    } else {
        Ok(Vec::new(alloc))
    }
}

// Returns the resource elements of the PDSCH for an allocation that depends on the cell.
fn trial_places(alloc: Global, cell: &WideCell, cfi: Cfi) -> Result<Vec<WidePlace>, AllocError> {
    let grant = grant_of(cell, cfi);
    let first = allocated_blocks(alloc, cell, &grant, false)?;
    let second = allocated_blocks(alloc, cell, &grant, true)?;
    pdsch_places(alloc, cell, cfi, &first, &second)
}

// Returns the checksums of a cell's values: the PCFICH, a candidate, and the PDSCH.
fn sums_of(
    alloc: Global,
    first: &WideSlot,
    second: &WideSlot,
    cfi: Cfi,
) -> Result<[u64; 3], AllocError>
    requires { second.now.cell ≡ first.now.cell }
{
    let cell = first.cell();
    let indicator = pcfich_places(alloc, cell)?;
    let candidate = third_candidate(alloc, cell, cfi)?;
    let shared = trial_places(alloc, cell, cfi)?;
    Ok([
        checksum(
            alloc,
            first,
            second,
            &indicator,
            pcfich_c_init(cell.id(), 10),
        )?,
        checksum(
            alloc,
            first,
            second,
            &candidate,
            pdcch_c_init(cell.id(), 10),
        )?,
        checksum(
            alloc,
            first,
            second,
            &shared,
            pdsch_c_init(cell.id(), 10, 0xffff),
        )?,
    ])
}

// Returns the checksums of a cell's values.
fn sums_of_cell(
    alloc: Global,
    tones: &Tones,
    wide: &WideRecording,
    cell: &WideCell,
    cfi: Cfi,
) -> Result<Option<[u64; 3]>, AllocError> {
    let first = received(alloc, tones, wide, cell, 10)?;
    let second = received(alloc, tones, wide, cell, 11)?;
    match (first, second) {
        (Some(first), Some(second)) => Ok(Some(sums_of(alloc, &first, &second, cfi)?)),
        _ => Ok(None),
    }
}

fn after_each(sums: [u64; 3], numbers: [u64; 3]) -> [u64; 3] {
    [
        after_large(sums[0], numbers[0]),
        after_large(sums[1], numbers[1]),
        after_large(sums[2], numbers[2]),
    ]
}

// Checksums for a bandwidth and a port count, over twelve cells: the soft values of the PCFICH, of the first candidate
// of level 4, and of the PDSCH for an allocation that depends on the cell.
const VALUES: [(Bandwidth, u8, [u64; 3]); 18] = [
    (
        Bandwidth::N6,
        1,
        [1_445_367_684, 927_058_885, 1_776_836_633],
    ),
    (
        Bandwidth::N6,
        2,
        [712_204_174, 3_492_504_546, 3_406_191_304],
    ),
    (
        Bandwidth::N6,
        4,
        [3_230_567_962, 1_239_975_530, 1_505_432_640],
    ),
    (
        Bandwidth::N15,
        1,
        [1_057_717_218, 3_329_962_903, 129_659_494],
    ),
    (
        Bandwidth::N15,
        2,
        [121_679_680, 2_935_604_787, 1_227_431_045],
    ),
    (
        Bandwidth::N15,
        4,
        [763_368_995, 2_213_167_464, 3_127_589_624],
    ),
    (Bandwidth::N25, 1, [1_649_091_904, 229_489_718, 482_127_296]),
    (
        Bandwidth::N25,
        2,
        [2_370_859_482, 934_802_299, 3_054_265_138],
    ),
    (
        Bandwidth::N25,
        4,
        [2_148_090_680, 4_241_333_554, 2_830_034_777],
    ),
    (
        Bandwidth::N50,
        1,
        [3_005_604_993, 1_544_847_856, 2_950_114_801],
    ),
    (Bandwidth::N50, 2, [4_576_065, 4_194_623_177, 3_094_425_465]),
    (
        Bandwidth::N50,
        4,
        [2_769_529_246, 4_011_276_507, 1_175_136_374],
    ),
    (
        Bandwidth::N75,
        1,
        [3_792_338_519, 4_209_369_061, 4_081_577_903],
    ),
    (
        Bandwidth::N75,
        2,
        [952_378_298, 3_863_198_610, 3_230_650_369],
    ),
    (
        Bandwidth::N75,
        4,
        [2_528_411_800, 3_520_644_984, 2_423_707_314],
    ),
    (
        Bandwidth::N100,
        1,
        [1_768_061_761, 1_727_896_063, 3_494_564_017],
    ),
    (
        Bandwidth::N100,
        2,
        [3_544_109_643, 1_283_212_727, 471_790_277],
    ),
    (
        Bandwidth::N100,
        4,
        [81_728_109, 2_057_587_006, 3_255_791_240],
    ),
];

#[test]
fn soft_values_are_the_references(rt: HostRuntime) -> Result<(), Fail> {
    let tones = Tones::new(rt.alloc())?;
    for (bandwidth, ports, expected) in VALUES {
        let wide = subframe(rt.alloc(), rate_of(bandwidth))?.ok_or("a recording")?;
        let mut sums = [0; 3];
        for i in [1, 3, 5, 7, 9, 11, 13, 15, 17, 19, 21, 23] {
            let cell = cell_of(bandwidth, ports, i).ok_or("a cell")?;
            let cfi = cfi_of(i).ok_or("an indicator")?;
            let found = sums_of_cell(rt.alloc(), &tones, &wide, &cell, cfi)?.ok_or("slots")?;
            sums = after_each(sums, found);
        }
        assert!(rt; sums == expected, "{bandwidth}, {ports} ports");
    }
    Ok(())
}

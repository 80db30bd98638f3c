// Checksums are from the reference implementation, `python/lte_reference/wide_rows.py`.
ghost use Rattle.std.specs.Prelude.{◌≤◌, ◌<◌, ◌+◌, ◌≡◌};
ghost use Rattle.wide_grid.specs.Group.{AreGroups};

use crate::cells::{cell_of, cfi_of};
use crate::checksum::{after_groups, after_places};
use lte_types::{Bandwidth, Cfi};
use std::alloc::{AllocError, Global};
use std::test::Fail;
use wide_cell::WideCell;
use wide_grant::{Mapping, Run, WideGrant, allocated_blocks};
use wide_grid::{
    CANDIDATES, WideReg, candidate_places, has_candidate, pcfich_places, pdcch_groups,
    pdsch_places, phich_groups, quadruplet_groups,
};

// Checksums for a bandwidth and a port count: the resource elements of the PCFICH, the groups of the PHICH, the groups
// of the PDCCH by subcarrier and by quadruplet, and the resource elements of the candidates.
const CONTROL: [(Bandwidth, u8, [u64; 5]); 18] = [
    (
        Bandwidth::N6,
        1,
        [
            4_223_845_833,
            584_584_802,
            945_239_924,
            1_376_372_953,
            1_116_226_862,
        ],
    ),
    (
        Bandwidth::N6,
        2,
        [
            4_223_845_833,
            584_584_802,
            945_239_924,
            1_376_372_953,
            1_116_226_862,
        ],
    ),
    (
        Bandwidth::N6,
        4,
        [
            4_223_845_833,
            1_786_655_383,
            4_019_799_230,
            2_513_670_523,
            3_344_791_573,
        ],
    ),
    (
        Bandwidth::N15,
        1,
        [
            2_631_394_780,
            1_123_946_876,
            3_271_149_014,
            19_849_037,
            719_495_390,
        ],
    ),
    (
        Bandwidth::N15,
        2,
        [
            2_631_394_780,
            1_123_946_876,
            3_271_149_014,
            19_849_037,
            719_495_390,
        ],
    ),
    (
        Bandwidth::N15,
        4,
        [
            2_631_394_780,
            1_358_851_194,
            1_158_705_920,
            1_552_467_077,
            3_111_500_792,
        ],
    ),
    (
        Bandwidth::N25,
        1,
        [
            2_842_571_348,
            2_049_160_729,
            3_870_443_319,
            3_895_485_022,
            756_454_641,
        ],
    ),
    (
        Bandwidth::N25,
        2,
        [
            2_842_571_348,
            2_049_160_729,
            3_870_443_319,
            3_895_485_022,
            756_454_641,
        ],
    ),
    (
        Bandwidth::N25,
        4,
        [
            2_842_571_348,
            273_676_562,
            169_168_862,
            1_203_738_875,
            2_074_723_545,
        ],
    ),
    (
        Bandwidth::N50,
        1,
        [
            2_770_874_671,
            825_584_290,
            1_829_317_389,
            174_564_222,
            3_567_595_135,
        ],
    ),
    (
        Bandwidth::N50,
        2,
        [
            2_770_874_671,
            825_584_290,
            1_829_317_389,
            174_564_222,
            3_567_595_135,
        ],
    ),
    (
        Bandwidth::N50,
        4,
        [
            2_770_874_671,
            963_745_112,
            1_014_493_542,
            2_977_352_094,
            3_888_376_282,
        ],
    ),
    (
        Bandwidth::N75,
        1,
        [
            3_191_298_789,
            2_562_513_068,
            3_655_047_021,
            954_888_706,
            3_921_672_838,
        ],
    ),
    (
        Bandwidth::N75,
        2,
        [
            3_191_298_789,
            2_562_513_068,
            3_655_047_021,
            954_888_706,
            3_921_672_838,
        ],
    ),
    (
        Bandwidth::N75,
        4,
        [
            3_191_298_789,
            3_570_232_605,
            1_118_281_332,
            2_484_593_396,
            2_203_585_956,
        ],
    ),
    (
        Bandwidth::N100,
        1,
        [
            2_537_352_586,
            2_423_377_862,
            700_623_364,
            1_528_791_216,
            864_252_835,
        ],
    ),
    (
        Bandwidth::N100,
        2,
        [
            2_537_352_586,
            2_423_377_862,
            700_623_364,
            1_528_791_216,
            864_252_835,
        ],
    ),
    (
        Bandwidth::N100,
        4,
        [
            2_537_352_586,
            825_398_376,
            994_518_642,
            920_581_136,
            3_527_981_812,
        ],
    ),
];

fn after_candidates(
    alloc: Global,
    cell: &WideCell,
    ordered: &[WideReg],
    sum: u64,
) -> Result<u64, AllocError>
    requires { AreGroups cell.now ordered.now }
{
    let mut sum = sum;
    for candidate in CANDIDATES {
        if has_candidate(ordered.len() / 9, candidate) {
            sum = after_places(sum, &candidate_places(alloc, cell, ordered, candidate)?);
        }
    }
    Ok(sum)
}

fn after_control(
    alloc: Global,
    cell: &WideCell,
    cfi: Cfi,
    sums: [u64; 5],
) -> Result<[u64; 5], AllocError> {
    let [pcfich, phich, pdcch, quadruplets, candidates] = sums;
    let groups = pdcch_groups(alloc, cell, cfi)?;
    let ordered = quadruplet_groups(alloc, cell, &groups)?;
    Ok([
        after_places(pcfich, &pcfich_places(alloc, cell)?),
        after_groups(phich, &phich_groups(alloc, cell)?),
        after_groups(pdcch, &groups),
        after_groups(quadruplets, &ordered),
        after_candidates(alloc, cell, &ordered, candidates)?,
    ])
}

fn control_sums(alloc: Global, bandwidth: Bandwidth, ports: u8) -> Result<[u64; 5], Fail> {
    let mut sums = [0; 5];
    for i in 0..24 {
        let cell = cell_of(bandwidth, ports, i).ok_or("a cell")?;
        let cfi = cfi_of(i).ok_or("an indicator")?;
        sums = after_control(alloc, &cell, cfi, sums)?;
    }
    Ok(sums)
}

#[test]
fn control_channels_are_the_references(rt: HostRuntime) -> Result<(), Fail> {
    for (bandwidth, ports, expected) in CONTROL {
        let sums = control_sums(rt.alloc(), bandwidth, ports)?;
        assert!(rt; sums == expected, "{bandwidth}, {ports} ports");
    }
    Ok(())
}

// Checksums for a bandwidth and a port count: the resource elements of the PDSCH for an allocation that depends on the
// cell, and for all resource blocks.
const PDSCH: [(Bandwidth, u8, [u64; 2]); 18] = [
    (Bandwidth::N6, 1, [4_018_536_297, 902_299_825]),
    (Bandwidth::N6, 2, [651_480_879, 3_224_938_086]),
    (Bandwidth::N6, 4, [1_614_282_487, 1_914_180_090]),
    (Bandwidth::N15, 1, [2_862_664_053, 3_732_649_406]),
    (Bandwidth::N15, 2, [2_879_074_081, 3_403_337_757]),
    (Bandwidth::N15, 4, [2_667_638_466, 3_710_491_799]),
    (Bandwidth::N25, 1, [3_445_404_022, 3_670_001_998]),
    (Bandwidth::N25, 2, [2_141_445_413, 3_971_388_088]),
    (Bandwidth::N25, 4, [824_383_139, 2_706_482_733]),
    (Bandwidth::N50, 1, [2_631_264_009, 1_840_149_698]),
    (Bandwidth::N50, 2, [2_551_811_918, 2_734_788_263]),
    (Bandwidth::N50, 4, [2_129_647_342, 484_210_213]),
    (Bandwidth::N75, 1, [835_665_730, 1_528_952_438]),
    (Bandwidth::N75, 2, [1_414_059_142, 3_427_876_338]),
    (Bandwidth::N75, 4, [2_594_645_764, 786_777_864]),
    (Bandwidth::N100, 1, [1_625_411_906, 3_117_027_817]),
    (Bandwidth::N100, 2, [1_680_829_465, 1_842_899_723]),
    (Bandwidth::N100, 4, [1_311_321_035, 2_014_043_086]),
];

// Returns the number of distributed virtual resource blocks.
fn virtual_blocks(blocks: u8, second: bool) -> u16 {
    match (blocks, second) {
        (6, _) => 6,
        (15, _) => 14,
        (25, _) => 24,
        (50, false) => 46,
        (50, true) => 36,
        (75, _) => 64,
        _ => 96,
    }
}

// Returns the mapping of a cell's grant, localized for odd identities, and the number of virtual resource blocks.
fn mapping_of(cell: &WideCell, cfi: Cfi) -> (Mapping, u16) {
    if cell.id().value() % 2 == 1 {
        (Mapping::Localized, cell.blocks() as u16)
    } else if cell.blocks() >= 50 && cfi.value() == 2 {
        (Mapping::SecondGap, virtual_blocks(cell.blocks(), true))
    } else {
        (Mapping::FirstGap, virtual_blocks(cell.blocks(), false))
    }
}

pub(crate) fn grant_of(cell: &WideCell, cfi: Cfi) -> WideGrant
    ensures { result.run.start + result.run.blocks ≤ 1000 }
{
    let identity = cell.id().value();
    let (mapping, available) = mapping_of(cell, cfi);
    let start = identity % available.max(1);
    let blocks = (1 + identity % 7).min(available.saturating_sub(start));
    WideGrant {
        mapping,
        run: Run { start, blocks },
        size: 0,
        rv: 0,
    }
}

fn after_pdsch(
    alloc: Global,
    cell: &WideCell,
    cfi: Cfi,
    sums: [u64; 2],
) -> Result<[u64; 2], AllocError> {
    let [trial, whole] = sums;
    let grant = grant_of(cell, cfi);
    let first = allocated_blocks(alloc, cell, &grant, false)?;
    let second = allocated_blocks(alloc, cell, &grant, true)?;
    let all = [true; 100];
    Ok([
        after_places(trial, &pdsch_places(alloc, cell, cfi, &first, &second)?),
        after_places(whole, &pdsch_places(alloc, cell, cfi, &all, &all)?),
    ])
}

fn pdsch_sums(alloc: Global, bandwidth: Bandwidth, ports: u8) -> Result<[u64; 2], Fail> {
    let mut sums = [0; 2];
    for i in 0..24 {
        let cell = cell_of(bandwidth, ports, i).ok_or("a cell")?;
        let cfi = cfi_of(i).ok_or("an indicator")?;
        sums = after_pdsch(alloc, &cell, cfi, sums)?;
    }
    Ok(sums)
}

#[test]
fn pdsch_places_are_the_references(rt: HostRuntime) -> Result<(), Fail> {
    for (bandwidth, ports, expected) in PDSCH {
        let sums = pdsch_sums(rt.alloc(), bandwidth, ports)?;
        assert!(rt; sums == expected, "{bandwidth}, {ports} ports");
    }
    Ok(())
}

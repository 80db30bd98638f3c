// Blocks are from the reference implementation, `python/lte_reference/wide_rows.py`.
ghost use Rattle.std.specs.Prelude.{◌<◌};

use lte_types::{Bandwidth, CellId, Duration, Resource};
use std::alloc::{AllocError, Global};
use std::test::Fail;
use wide_cell::WideCell;
use wide_grant::{Mapping, Run, WideGrant, allocated_blocks};

// Returns whether virtual resource block `v` is mapped to resource block `expected` alone.
fn is_mapped(
    alloc: Global,
    cell: &WideCell,
    mapping: Mapping,
    odd: bool,
    v: u16,
    expected: u8,
) -> Result<bool, AllocError>
    requires { v < 1000 }
{
    let grant = WideGrant {
        mapping,
        run: Run {
            start: v,
            blocks: 1,
        },
        size: 0,
        rv: 0,
    };
    let mut is = true;
    let allocated = allocated_blocks(alloc, cell, &grant, odd)?;
    for (block, has) in allocated.iter().enumerate() {
        is = is && *has == (block == expected as usize);
    }
    Ok(is)
}

// Returns whether the virtual resource blocks, from 0, are mapped to the resource blocks `expected`.
fn are_mapped(
    alloc: Global,
    cell: &WideCell,
    mapping: Mapping,
    odd: bool,
    expected: &[u8],
) -> Result<bool, AllocError> {
    let mut are = true;
    for (v, block) in expected.iter().enumerate() {
        are = is_mapped(alloc, cell, mapping, odd, v.min(999) as u16, *block)? && are;
    }
    Ok(are)
}

// Returns whether `expected` has the resource blocks in slots with an even number, and in slots with an odd number.
fn are_mapped_in_slots<const N: usize>(
    alloc: Global,
    bandwidth: Bandwidth,
    mapping: Mapping,
    expected: &[[u8; N]; 2],
) -> Result<bool, Fail> {
    let id = CellId::new(0).ok_or("an identity")?;
    let cell = WideCell::new(id, 1, bandwidth, Duration::Normal, Resource::One).ok_or("a cell")?;
    Ok(
        are_mapped(alloc, &cell, mapping, false, &expected[0])?
            && are_mapped(alloc, &cell, mapping, true, &expected[1])?,
    )
}

// The resource blocks of the virtual resource blocks by gap and bandwidth, in slots with an even and an odd number.
const FIRST_6: [[u8; 6]; 2] = [[0, 2, 3, 5, 1, 4], [3, 5, 0, 2, 4, 1]];

const FIRST_15: [[u8; 14]; 2] = [
    [0, 4, 8, 12, 1, 5, 9, 13, 2, 6, 10, 14, 3, 11],
    [8, 12, 0, 4, 9, 13, 1, 5, 10, 14, 2, 6, 11, 3],
];

const FIRST_25: [[u8; 24]; 2] = [
    [
        0, 6, 12, 18, 1, 7, 13, 19, 2, 8, 14, 20, 3, 9, 15, 21, 4, 10, 16, 22, 5, 11, 17, 23,
    ],
    [
        12, 18, 0, 6, 13, 19, 1, 7, 14, 20, 2, 8, 15, 21, 3, 9, 16, 22, 4, 10, 17, 23, 5, 11,
    ],
];

const FIRST_50: [[u8; 46]; 2] = [
    [
        0, 12, 27, 39, 1, 13, 28, 40, 2, 14, 29, 41, 3, 15, 30, 42, 4, 16, 31, 43, 5, 17, 32, 44,
        6, 18, 33, 45, 7, 19, 34, 46, 8, 20, 35, 47, 9, 21, 36, 48, 10, 22, 37, 49, 11, 38,
    ],
    [
        27, 39, 0, 12, 28, 40, 1, 13, 29, 41, 2, 14, 30, 42, 3, 15, 31, 43, 4, 16, 32, 44, 5, 17,
        33, 45, 6, 18, 34, 46, 7, 19, 35, 47, 8, 20, 36, 48, 9, 21, 37, 49, 10, 22, 38, 11,
    ],
];

const SECOND_50: [[u8; 36]; 2] = [
    [
        0, 6, 9, 15, 1, 7, 10, 16, 2, 8, 11, 17, 3, 12, 4, 13, 5, 14, 18, 24, 27, 33, 19, 25, 28,
        34, 20, 26, 29, 35, 21, 30, 22, 31, 23, 32,
    ],
    [
        9, 15, 0, 6, 10, 16, 1, 7, 11, 17, 2, 8, 12, 3, 13, 4, 14, 5, 27, 33, 18, 24, 28, 34, 19,
        25, 29, 35, 20, 26, 30, 21, 31, 22, 32, 23,
    ],
];

const FIRST_75: [[u8; 64]; 2] = [
    [
        0, 16, 32, 48, 1, 17, 33, 49, 2, 18, 34, 50, 3, 19, 35, 51, 4, 20, 36, 52, 5, 21, 37, 53,
        6, 22, 38, 54, 7, 23, 39, 55, 8, 24, 40, 56, 9, 25, 41, 57, 10, 26, 42, 58, 11, 27, 43, 59,
        12, 28, 44, 60, 13, 29, 45, 61, 14, 30, 46, 62, 15, 31, 47, 63,
    ],
    [
        32, 48, 0, 16, 33, 49, 1, 17, 34, 50, 2, 18, 35, 51, 3, 19, 36, 52, 4, 20, 37, 53, 5, 21,
        38, 54, 6, 22, 39, 55, 7, 23, 40, 56, 8, 24, 41, 57, 9, 25, 42, 58, 10, 26, 43, 59, 11, 27,
        44, 60, 12, 28, 45, 61, 13, 29, 46, 62, 14, 30, 47, 63, 15, 31,
    ],
];

const SECOND_75: [[u8; 64]; 2] = [
    [
        0, 8, 16, 24, 1, 9, 17, 25, 2, 10, 18, 26, 3, 11, 19, 27, 4, 12, 20, 28, 5, 13, 21, 29, 6,
        14, 22, 30, 7, 15, 23, 31, 32, 40, 48, 56, 33, 41, 49, 57, 34, 42, 50, 58, 35, 43, 51, 59,
        36, 44, 52, 60, 37, 45, 53, 61, 38, 46, 54, 62, 39, 47, 55, 63,
    ],
    [
        16, 24, 0, 8, 17, 25, 1, 9, 18, 26, 2, 10, 19, 27, 3, 11, 20, 28, 4, 12, 21, 29, 5, 13, 22,
        30, 6, 14, 23, 31, 7, 15, 48, 56, 32, 40, 49, 57, 33, 41, 50, 58, 34, 42, 51, 59, 35, 43,
        52, 60, 36, 44, 53, 61, 37, 45, 54, 62, 38, 46, 55, 63, 39, 47,
    ],
];

const FIRST_100: [[u8; 96]; 2] = [
    [
        0, 24, 48, 72, 1, 25, 49, 73, 2, 26, 50, 74, 3, 27, 51, 75, 4, 28, 52, 76, 5, 29, 53, 77,
        6, 30, 54, 78, 7, 31, 55, 79, 8, 32, 56, 80, 9, 33, 57, 81, 10, 34, 58, 82, 11, 35, 59, 83,
        12, 36, 60, 84, 13, 37, 61, 85, 14, 38, 62, 86, 15, 39, 63, 87, 16, 40, 64, 88, 17, 41, 65,
        89, 18, 42, 66, 90, 19, 43, 67, 91, 20, 44, 68, 92, 21, 45, 69, 93, 22, 46, 70, 94, 23, 47,
        71, 95,
    ],
    [
        48, 72, 0, 24, 49, 73, 1, 25, 50, 74, 2, 26, 51, 75, 3, 27, 52, 76, 4, 28, 53, 77, 5, 29,
        54, 78, 6, 30, 55, 79, 7, 31, 56, 80, 8, 32, 57, 81, 9, 33, 58, 82, 10, 34, 59, 83, 11, 35,
        60, 84, 12, 36, 61, 85, 13, 37, 62, 86, 14, 38, 63, 87, 15, 39, 64, 88, 16, 40, 65, 89, 17,
        41, 66, 90, 18, 42, 67, 91, 19, 43, 68, 92, 20, 44, 69, 93, 21, 45, 70, 94, 22, 46, 71, 95,
        23, 47,
    ],
];

const SECOND_100: [[u8; 96]; 2] = [
    [
        0, 8, 16, 24, 1, 9, 17, 25, 2, 10, 18, 26, 3, 11, 19, 27, 4, 12, 20, 28, 5, 13, 21, 29, 6,
        14, 22, 30, 7, 15, 23, 31, 32, 40, 48, 56, 33, 41, 49, 57, 34, 42, 50, 58, 35, 43, 51, 59,
        36, 44, 52, 60, 37, 45, 53, 61, 38, 46, 54, 62, 39, 47, 55, 63, 64, 72, 80, 88, 65, 73, 81,
        89, 66, 74, 82, 90, 67, 75, 83, 91, 68, 76, 84, 92, 69, 77, 85, 93, 70, 78, 86, 94, 71, 79,
        87, 95,
    ],
    [
        16, 24, 0, 8, 17, 25, 1, 9, 18, 26, 2, 10, 19, 27, 3, 11, 20, 28, 4, 12, 21, 29, 5, 13, 22,
        30, 6, 14, 23, 31, 7, 15, 48, 56, 32, 40, 49, 57, 33, 41, 50, 58, 34, 42, 51, 59, 35, 43,
        52, 60, 36, 44, 53, 61, 37, 45, 54, 62, 38, 46, 55, 63, 39, 47, 80, 88, 64, 72, 81, 89, 65,
        73, 82, 90, 66, 74, 83, 91, 67, 75, 84, 92, 68, 76, 85, 93, 69, 77, 86, 94, 70, 78, 87, 95,
        71, 79,
    ],
];

#[test]
fn distributed_blocks_are_the_references(rt: HostRuntime) -> Result<(), Fail> {
    let alloc = rt.alloc();
    assert!(rt; are_mapped_in_slots(alloc, Bandwidth::N6, Mapping::FirstGap, &FIRST_6)?);
    assert!(rt; are_mapped_in_slots(alloc, Bandwidth::N15, Mapping::FirstGap, &FIRST_15)?);
    assert!(rt; are_mapped_in_slots(alloc, Bandwidth::N25, Mapping::FirstGap, &FIRST_25)?);
    assert!(rt; are_mapped_in_slots(alloc, Bandwidth::N50, Mapping::FirstGap, &FIRST_50)?);
    assert!(rt; are_mapped_in_slots(alloc, Bandwidth::N50, Mapping::SecondGap, &SECOND_50)?);
    assert!(rt; are_mapped_in_slots(alloc, Bandwidth::N75, Mapping::FirstGap, &FIRST_75)?);
    assert!(rt; are_mapped_in_slots(alloc, Bandwidth::N75, Mapping::SecondGap, &SECOND_75)?);
    assert!(rt; are_mapped_in_slots(alloc, Bandwidth::N100, Mapping::FirstGap, &FIRST_100)?);
    assert!(rt; are_mapped_in_slots(alloc, Bandwidth::N100, Mapping::SecondGap, &SECOND_100)?);
    Ok(())
}

// The checksum of the reference implementation, `python/lte_reference/wide_rows.py`.

use cs_num::Sample;
use wide_cell::WidePlace;
use wide_grid::WideReg;

const MODULUS: u64 = 4_294_967_291;

// Returns the checksum after one more number, below 4,294,967,291.
pub(crate) fn after(sum: u64, number: usize) -> u64 {
    (31 * (sum % MODULUS) + number as u64 % MODULUS + 67_108_864) % MODULUS
}

// Returns the checksum after one more signed number.
pub(crate) fn after_signed(sum: u64, number: i64) -> u64 {
    let times = (31 * (sum % MODULUS)) as i64;
    (times + number % 4_294_967_291 + 4_362_076_155) as u64 % MODULUS
}

// Returns the checksum after one more number, such as another checksum.
pub(crate) fn after_large(sum: u64, number: u64) -> u64 {
    after_signed(sum, (number % MODULUS) as i64)
}

pub(crate) fn after_places(sum: u64, places: &[WidePlace]) -> u64 {
    let mut sum = sum;
    for place in places {
        sum = after(sum, 1200 * place.symbol as usize + place.k as usize);
    }
    sum
}

pub(crate) fn after_groups(sum: u64, groups: &[WideReg]) -> u64 {
    let mut sum = sum;
    for group in groups {
        sum = after(sum, 1200 * group.symbol as usize + group.first as usize);
    }
    sum
}

// Returns the checksum after the number of allocated blocks, and the blocks.
pub(crate) fn after_blocks(sum: u64, allocated: &[bool]) -> u64 {
    let count = allocated.iter().filter(|is| **is).count();
    let mut sum = after(sum, count);
    for (block, is) in allocated.iter().enumerate() {
        if *is {
            sum = after(sum, block);
        }
    }
    sum
}

pub(crate) fn of_samples(samples: &[Sample]) -> u64 {
    let mut sum = 0;
    for sample in samples {
        sum = after_signed(sum, sample.re as i64);
        sum = after_signed(sum, sample.im as i64);
    }
    sum
}

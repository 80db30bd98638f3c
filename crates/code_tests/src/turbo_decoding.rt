ghost use Rattle.std.specs.Prelude.{◌≡◌, ◌+◌, ◌*◌, ◌<◌, ◌≤◌, All, IsTrue, length, nat_abs};
ghost use Rattle.turbo_code.specs.Table.{IsRow};
ghost use Rattle.turbo_dec.specs.Decoder.{IsSmall};

use arrayvec::ArrayVec;
use cs_bits::crc24a;
use std::alloc::{AllocError, Global};
use std::test::Fail;
use turbo_code::{Combined, Row, encode, row_of};
use turbo_dec::{Work, decode, greatest_scores, half, orders_undo_each_other};

// Returns whether each value has a magnitude of at most 4,096.
fn are_small(values: &[i32]) -> bool
    ensures { IsTrue result → All IsSmall values.now }
{
    values.iter().all(|value| value.unsigned_abs() <= 4096)
}

// Returns whether one constituent decoder returns the expected extrinsic values; false if the inputs violate its
// precondition.
fn has_extrinsics(
    alloc: Global,
    systematic: &[i32],
    parity: &[i32],
    tail: &[i32; 6],
    prior: &[i32],
    expected: &[i32],
) -> Result<bool, AllocError> {
    let places = systematic.len();
    let are_long = places <= 16 && parity.len() == places && prior.len() == places;
    if are_long
        && are_small(systematic)
        && are_small(parity)
        && are_small(tail)
        && are_small(prior)
    {
        let mut work = Work::new(alloc)?;
        let mut out = vec![in alloc; 0; places]?;
        half(systematic, parity, tail, prior, &mut out, &mut work);
        Ok(out.as_slice() == expected)
    } else {
        Ok(false)
    }
}

#[test]
fn extrinsic_value_of_one_bit(rt: HostRuntime) -> Result<(), Fail> {
    let alloc = rt.alloc();
    for (systematic, parity, tail, prior, expected) in [
        ([-7], [5], [1, 2, 3, 4, 5, 6], [9], [21]),
        ([0], [4096], [4096; 6], [0], [2047]),
        ([6], [0], [4, 6, -5, 0, -1, -5], [1], [-5]),
        (
            [-3610],
            [-1336],
            [3053, -2040, 3647, 307, -602, -2500],
            [1904],
            [-2047],
        ),
    ] {
        assert!(rt; has_extrinsics(alloc, &systematic, &parity, &tail, &prior, &expected)?);
    }
    greatest_scores();
    Ok(())
}

#[test]
fn extrinsic_values_of_two_and_three_bits(rt: HostRuntime) -> Result<(), Fail> {
    let alloc = rt.alloc();
    for (systematic, parity, tail, prior, expected) in [
        ([-2, -1], [0, -1], [1, 2, -2, 2, -1, -2], [-2, -1], [6, 0]),
        (
            [-36, -11],
            [28, 29],
            [-33, 0, -11, 31, 30, -40],
            [-614, -98],
            [8, -28],
        ),
    ] {
        assert!(rt; has_extrinsics(alloc, &systematic, &parity, &tail, &prior, &expected)?);
    }
    for (systematic, parity, tail, prior, expected) in [
        (
            [2, -3, -2],
            [2, -3, -2],
            [-2, -3, 3, 1, -1, 0],
            [-1, -3, -3],
            [8, -3, -5],
        ),
        (
            [-4096, 4096, -4096],
            [-4096, 4096, 4096],
            [-4096, 4096, 4096, -4096, -4096, -4096],
            [-4096, -4096, -4096],
            [0, -2047, 2047],
        ),
    ] {
        assert!(rt; has_extrinsics(alloc, &systematic, &parity, &tail, &prior, &expected)?);
    }
    Ok(())
}

#[test]
fn extrinsic_values_of_five_and_eight_bits(rt: HostRuntime) -> Result<(), Fail> {
    assert!(rt;
        has_extrinsics(
            rt.alloc(),
            &[-1473, -169, -2314, -609, 39],
            &[-1701, 1111, 1392, 1523, -371],
            &[-2060, 779, 714, -122, 982, -1362],
            &[-1028, 2428, -1444, 850, -1812],
            &[-2047, 837, -1205, 2047, 56],
        )?
    );
    assert!(rt;
        has_extrinsics(
            rt.alloc(),
            &[273, -101, 976, -812, -471, -604, 338, -50],
            &[680, -1038, 106, 410, -308, -304, -1029, 356],
            &[-580, 525, -331, 605, -91, -1034],
            &[347, -336, -327, -545, -155, -563, 256, -154],
            &[2047, -2047, 1720, -1012, -646, -1295, 678, 1476],
        )?
    );
    Ok(())
}

#[test]
fn extrinsic_values_of_eleven_bits(rt: HostRuntime) -> Result<(), Fail> {
    let alloc = rt.alloc();
    for (systematic, parity, tail, prior, expected) in [
        (
            [-3, 1, -2, 2, 2, 3, 0, 3, -1, -3, -3],
            [-3, 0, 1, 1, -3, 3, -1, 3, 3, -2, -2],
            [-3, -3, 0, 3, 0, -1],
            [0; 11],
            [-1, -1, 0, -2, -1, -3, -1, 1, 1, 0, 1],
        ),
        (
            [
                1915, 59, -3592, 2690, -1189, 3147, 2434, 3156, 131, -1173, -2151,
            ],
            [
                3527, 763, 2127, -2246, 1649, -624, -2772, 2950, 1638, 3727, -3778,
            ],
            [3710, -1534, -3991, 284, -1387, -2515],
            [
                -458, 289, -578, -493, 404, -1001, 499, 1378, 1419, -1164, -926,
            ],
            [
                2047, -318, 618, -134, 755, -2047, -2047, -2047, 1878, 2047, -1647,
            ],
        ),
    ] {
        assert!(rt; has_extrinsics(alloc, &systematic, &parity, &tail, &prior, &expected)?);
    }
    Ok(())
}

// The decoder's result for a reception.
#[derive(PartialEq, Eq, Drop)]
enum Answer {
    Unfit,
    Nothing,
    Sent,
    Other,
}

// A block of `size` bits, received with gain `gain` and noise up to `spread`. `sizes`, the sum of the received
// magnitudes, shows that the reception equals the reference implementation's.
#[derive(Drop)]
struct Reception {
    size: u16,
    block: [u32; 6],
    gain: i32,
    spread: u32,
    seed: u32,
    sizes: u32,
}

// Returns a reception of a 32-bit block.
fn short(block: u32, gain: i32, spread: u32, seed: u32, sizes: u32) -> Reception {
    Reception {
        size: 32,
        block: [block, 0, 0, 0, 0, 0],
        gain,
        spread,
        seed,
        sizes,
    }
}

// Returns bit `i` of the block.
fn sent_bit(reception: &Reception, i: usize) -> bool {
    match reception.block.get(i / 32) {
        Some(number) => *number >> (31 - i % 32) & 1 == 1,
        None => false,
    }
}

// Returns the block and its CRC.
fn sent_word(alloc: Global, reception: &Reception) -> Result<Vec<bool>, AllocError> {
    let mut word = Vec::new(alloc);
    for i in 0..reception.size as usize {
        word.push(sent_bit(reception, i))?;
    }
    let check = crc24a(&word);
    for i in 0..24_u32 {
        word.push(check >> (23 - i) & 1 == 1)?;
    }
    Ok(word)
}

// Returns the next number of a linear congruential generator modulo 2^31.
fn next_number(x: u32) -> u32 {
    x.wrapping_mul(1_103_515_245).wrapping_add(12_345) & 0x7fff_ffff
}

// Returns the received soft value of a coded bit.
fn received_bit(reception: &Reception, bit: bool, x: u32) -> i32 {
    let spread = reception.spread.min(10_000);
    let gain = reception.gain.clamp(-10_000, 10_000);
    let noise = (x >> 16) % (2 * spread + 1);
    let value = noise as i32 - spread as i32 + if bit { -gain } else { gain };
    value.clamp(-2047, 2047)
}

// Returns the received soft values of all coded bits.
fn received(reception: &Reception, row: Row, word: &[bool]) -> Combined
    requires row { IsRow row }
    requires count { length word.now ≡ row.k }
{
    let coded = encode(word, row);
    let mut d = [[0; 1028]; 3];
    let mut x = reception.seed;
    for t in 0..3 {
        for p in 0..row.k as usize + 4 {
            x = next_number(x);
            if let (Some(value), Some(bit)) = (d[t].get_mut(p), coded.d[t].get(p)) {
                *value = received_bit(reception, *bit, x);
            }
        }
    }
    Combined { k: row.k, d }
}

// Returns whether all sums have a magnitude of at most 4,096.
fn are_all_small(sums: &[[i32; 1028]; 3]) -> bool
    ensures { IsTrue result → All (All IsSmall) sums.now }
{
    sums.iter().all(|stream| are_small(stream))
}

// Returns the total magnitude of all sums.
fn sizes_of(sums: &[[i32; 1028]; 3]) -> u32 {
    let mut sizes: u32 = 0;
    for stream in sums {
        for sum in stream {
            sizes = sizes.saturating_add(sum.unsigned_abs());
        }
    }
    sizes
}

// Returns whether `block` is the sent block.
fn is_sent(reception: &Reception, block: &[bool]) -> bool {
    let mut same = block.len() == reception.size as usize;
    for (i, bit) in block.iter().enumerate() {
        same = same && *bit == sent_bit(reception, i);
    }
    same
}

// Decodes a reception, and returns how the decoder's result compares with the sent block.
fn decoded(alloc: Global, reception: &Reception) -> Result<Answer, AllocError> {
    let mut work = Work::new(alloc)?;
    let word = sent_word(alloc, reception)?;
    let Some(row) = row_of(reception.size) else {
        return Ok(Answer::Unfit);
    };
    if word.len() != row.k as usize {
        return Ok(Answer::Unfit);
    }
    let values = received(reception, row, &word);
    if sizes_of(&values.d) != reception.sizes || !are_all_small(&values.d) {
        return Ok(Answer::Unfit);
    }
    match decode(&values, row, &mut work) {
        None => Ok(Answer::Nothing),
        Some(block) if is_sent(reception, block.as_slice()) => Ok(Answer::Sent),
        Some(_) => Ok(Answer::Other),
    }
}

#[test]
fn short_blocks(rt: HostRuntime) -> Result<(), Fail> {
    let alloc = rt.alloc();
    for (block, gain, spread, seed, sizes, answer) in [
        // A later iteration decodes the block.
        (0x9a3b_5d71, 8, 17, 30_415, 2059, Answer::Sent),
        (0xc0ff_ee42, 8, 16, 4996, 1734, Answer::Sent),
        (0x5eed_f00d, 3, 6, 7408, 719, Answer::Sent),
        // No iteration up to the eighth decodes the block.
        (0x9a3b_5d71, 8, 17, 12_371, 1798, Answer::Nothing),
        (0x8000_0001, 100, 205, 21_512, 23_747, Answer::Nothing),
        // The result depends on the scaling by 3/4 or on the clamp.
        (0x1b2c_3d4e, 2, 4, 21_055, 497, Answer::Sent),
        (0x5eed_f00d, 3, 6, 29_008, 745, Answer::Nothing),
        (0x7e57_ab1e, 1000, 2000, 29_537, 215_739, Answer::Sent),
        (0x0bad_cafe, 1800, 3700, 14_632, 276_067, Answer::Nothing),
        (0xc0ff_ee42, 1800, 3700, 5502, 275_180, Answer::Nothing),
        // The result depends on tails, priors and zeros.
        (0xc0ff_ee42, 8, 16, 21_517, 2010, Answer::Sent),
        (0x8000_0001, 100, 205, 4, 22_379, Answer::Sent),
        (0x9a3b_5d71, 8, 17, 1187, 1940, Answer::Sent),
        (0x1b2c_3d4e, 2, 4, 15_997, 458, Answer::Sent),
        (0x0bad_cafe, 1800, 3700, 24_847, 273_106, Answer::Sent),
    ] {
        let reception = short(block, gain, spread, seed, sizes);
        assert!(rt; decoded(alloc, &reception)? == answer, "seed {seed}");
    }
    Ok(())
}

#[test]
fn longer_blocks(rt: HostRuntime) -> Result<(), Fail> {
    let first = Reception {
        size: 120,
        block: [0x1234_5678, 0x9abc_def0, 0xfedc_ba98, 0x7654_3200, 0, 0],
        gain: 8,
        spread: 17,
        seed: 1089,
        sizes: 4517,
    };
    assert!(rt; decoded(rt.alloc(), &first)? == Answer::Sent);
    let second = Reception {
        size: 176,
        block: [
            0x0011_2233,
            0x4455_6677,
            0x8899_aabb,
            0xccdd_eeff,
            0x0123_4567,
            0x89ab_0000,
        ],
        gain: 8,
        spread: 18,
        seed: 443,
        sizes: 7131,
    };
    assert!(rt; decoded(rt.alloc(), &second)? == Answer::Sent);
    orders_undo_each_other();
    Ok(())
}

// Decodes sums that are all `value`, except for the first; the sent block is all zeros.
fn decoded_of(alloc: Global, first: i32, value: i32) -> Result<Answer, AllocError> {
    let mut work = Work::new(alloc)?;
    let Some(row) = row_of(32) else {
        return Ok(Answer::Unfit);
    };
    let mut d = [[value; 1028]; 3];
    d[0][0] = first;
    if !are_all_small(&d) {
        return Ok(Answer::Unfit);
    }
    let block: Option<ArrayVec<bool, 1000>> = decode(&Combined { k: row.k, d }, row, &mut work);
    match block {
        None => Ok(Answer::Nothing),
        Some(bits) if bits.as_slice() == [false; 32].as_slice() => Ok(Answer::Sent),
        Some(_) => Ok(Answer::Other),
    }
}

#[test]
fn blocks_of_sums_that_are_all_the_same(rt: HostRuntime) -> Result<(), Fail> {
    let alloc = rt.alloc();
    for (first, value, answer) in [
        (0, 0, Answer::Sent),
        (8, 8, Answer::Sent),
        (-2047, 0, Answer::Nothing),
        (0, -4097, Answer::Unfit),
    ] {
        assert!(rt;
            decoded_of(alloc, first, value)? == answer,
            "{first} and {value}"
        );
    }
    Ok(())
}

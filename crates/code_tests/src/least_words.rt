ghost use Rattle.std.specs.Prelude.{◌^◌, ◌≤◌, nat_abs};
ghost use Rattle.finite.specs.Sizes.{RowsWithin};

use crate::shared::{number_of, triple};
use std::test::Fail;
use tailbite::{Trellis, least, values_determine_the_word};

// A linear congruential generator of soft values.
#[derive(Drop)]
struct Numbers {
    state: u32,
}

impl Numbers {
    // Returns the next number, of magnitude at most `spread`.
    fn next(&mut self, spread: u8) -> i32
        ensures { nat_abs result ≤ 255 }
    {
        self.state = self
            .state
            .wrapping_mul(1_664_525)
            .wrapping_add(1_013_904_223);
        ((self.state >> 16) % (2 * spread as u32 + 1)) as i32 - spread as i32
    }
}

// Returns generated soft values of magnitude at most `spread`.
fn values_of<const N: usize>(seed: u32, spread: u8) -> [[i32; 3]; N]
    ensures { RowsWithin (2 ^ 20) result }
{
    let mut numbers = Numbers { state: seed };
    let mut values = [triple(0, 0, 0); N];
    for k in 0..N {
        values[k] = triple(
            numbers.next(spread),
            numbers.next(spread),
            numbers.next(spread),
        );
    }
    values
}

// Returns whether the Viterbi decoder returns the word `number` with cost `cost`.
fn is_least<const N: usize>(
    values: &[[i32; 3]; N],
    number: u64,
    cost: u32,
    work: &mut Trellis,
) -> bool
    requires low { 6 ≤ N }
    requires high { N ≤ 64 }
    requires magnitudes { RowsWithin (2 ^ 20) values.now }
{
    let (word, found) = least(values, work);
    number_of(word.slice()) == number && found == cost
}

// Returns whether the decoder returns the word and the cost in each row, for the row's seed and spread.
fn are_least<const N: usize>(rows: &[(u32, u8, u64, u32)], work: &mut Trellis) -> bool
    requires low { 6 ≤ N }
    requires high { N ≤ 64 }
{
    for (seed, spread, number, cost) in rows {
        if !is_least::<N>(&values_of(*seed, *spread), *number, *cost, work) {
            return false;
        }
    }
    true
}

#[test]
fn all_values_0_give_the_zero_word(rt: HostRuntime) -> Result<(), Fail> {
    let mut work = Trellis::new(rt.alloc())?;
    assert!(rt; are_least::<40>(&[(7, 0, 0, 0)], &mut work));
    assert!(rt; are_least::<37>(&[(7, 0, 0, 0)], &mut work));
    Ok(())
}

// Returns soft values of which the first is -1, and all others are 0.
fn one_value<const N: usize>() -> [[i32; 3]; N]
    requires { 1 ≤ N }
    ensures { RowsWithin (2 ^ 20) result }
{
    let mut values = [triple(0, 0, 0); N];
    values[0] = triple(-1, 0, 0);
    values
}

#[test]
fn one_value_gives_the_last_bit_that_turns_it(rt: HostRuntime) -> Result<(), Fail> {
    let mut work = Trellis::new(rt.alloc())?;
    assert!(rt;
        is_least::<40>(&one_value(), 1 << 1, 0, &mut work),
        "bit 38 alone"
    );
    assert!(rt;
        is_least::<37>(&one_value(), 1 << 1, 0, &mut work),
        "bit 35 alone"
    );
    Ok(())
}

#[test]
fn small_cases_agree_with_a_search_of_all_words(rt: HostRuntime) -> Result<(), Fail> {
    let mut work = Trellis::new(rt.alloc())?;
    let work = &mut work;
    let rows = [(1, 1, 32, 3), (2, 1, 26, 1), (4, 2, 11, 4), (5, 3, 5, 5)];
    assert!(rt; are_least::<6>(&rows, work));
    let rows = [(1, 1, 9, 3), (2, 1, 20, 2), (4, 2, 29, 5), (5, 3, 58, 10)];
    assert!(rt; are_least::<7>(&rows, work));
    let rows = [(1, 1, 33, 2), (2, 1, 2, 2), (3, 1, 72, 3), (5, 3, 240, 7)];
    assert!(rt; are_least::<8>(&rows, work));
    let rows = [
        (1, 1, 440, 1),
        (3, 1, 144, 3),
        (4, 2, 352, 5),
        (5, 3, 77, 6),
    ];
    assert!(rt; are_least::<9>(&rows, work));
    Ok(())
}

#[test]
fn words_of_37_to_64_bits_agree_with_a_second_program(rt: HostRuntime) -> Result<(), Fail> {
    let mut work = Trellis::new(rt.alloc())?;
    let work = &mut work;
    let rows = [
        (1, 20, 0xd0_23a6_defc, 172),
        (2, 3, 0x47_3d61_2ac2, 28),
        (7, 1, 0xaf_de4e_9bac, 10),
    ];
    assert!(rt; are_least::<40>(&rows, work));
    let rows = [(3, 20, 0x7c58_0a7d, 192), (4, 2, 0x16_0933_60fe, 17)];
    assert!(rt; are_least::<37>(&rows, work));
    let rows = [
        (1, 1, 0x0456_fce0_a63b_edf7, 14),
        (2, 20, 0xe028_3a66_3ece_2459, 304),
        (5, 100, 0x505c_5cd9_7197_8977, 1444),
    ];
    assert!(rt; are_least::<64>(&rows, work));
    let rows = [
        (3, 1, 0x2184_ab01_6cae_74ba, 16),
        (4, 20, 0x65f5_526e_f1a1_cd32, 229),
    ];
    assert!(rt; are_least::<63>(&rows, work));
    Ok(())
}

#[test]
fn longer_cases_agree_with_a_search_of_all_words(rt: HostRuntime) -> Result<(), Fail> {
    let mut work = Trellis::new(rt.alloc())?;
    let work = &mut work;
    let rows = [
        (1, 1, 73, 4),
        (3, 1, 363, 3),
        (4, 2, 191, 5),
        (5, 3, 611, 12),
    ];
    assert!(rt; are_least::<10>(&rows, work));
    let rows = [
        (1, 1, 2022, 3),
        (3, 1, 989, 3),
        (4, 2, 383, 5),
        (5, 3, 422, 11),
    ];
    assert!(rt; are_least::<11>(&rows, work));
    let rows = [
        (1, 1, 4046, 3),
        (3, 1, 1452, 5),
        (4, 2, 767, 6),
        (5, 3, 1330, 11),
    ];
    assert!(rt; are_least::<12>(&rows, work));
    values_determine_the_word();
    Ok(())
}

//! The room of a word. The expected values are from the reference implementation,
//! `python/lte_reference/evidence.py:room`.

ghost use Rattle.std.specs.Prelude.{◌^◌, ◌<◌, ◌≤◌, nat_abs};
ghost use Rattle.finite.specs.Sizes.{RowsWithin};

use crate::shared::triple;
use code_distance::room;
use cs_bits::Bits;
use std::test::Fail;

// Returns soft value `t` at index `k`, from -`less` to 100 - `less`.
fn value(k: usize, t: usize, less: u8) -> i32
    requires k { k < 40 }
    requires t { t < 3 }
    ensures { nat_abs result ≤ 2032 }
{
    ((37 * k + 11 * t + 29 * (k / 3)) % 101) as i32 - less as i32
}

// Returns three soft values for each of `N` indices.
fn values<const N: usize>(less: u8) -> [[i32; 3]; N]
    requires { N ≤ 40 }
    ensures { RowsWithin (2 ^ 20) result }
{
    let mut values = [triple(0, 0, 0); N];
    for k in 0..N {
        values[k] = triple(value(k, 0, less), value(k, 1, less), value(k, 2, less));
    }
    values
}

// How much less the soft values are, the word as a number, and its room. The second, fifth and last words are 0; the
// first, fifth and last ones have the minimum cost.
const ROOMS: [(u8, u64, i64); 6] = [
    (50, 949_086_410_239, -386),
    (50, 0, -672),
    (50, 0x0a_0000_1234, -658),
    (50, 0xff_ffff_ffff, -656),
    (25, 0, -297),
    (5, 0, 3),
];

#[test]
fn rooms_of_words(rt: HostRuntime) -> Result<(), Fail> {
    for (less, word, expected) in ROOMS {
        let found = room(&values::<40>(less), &Bits::of_number(word));
        assert!(rt; found == expected, "{word} {found}");
    }
    Ok(())
}

ghost use Rattle.std.specs.Prelude.{◌^◌, ◌≤◌, nat_abs};
ghost use Rattle.finite.specs.Sizes.{RowsWithin};

use crate::shared::{number_of, triple};
use conv_code::encode;
use cs_bits::Bits;
use std::test::Fail;
use tailbite::{Trellis, least};
use test_support::bits_of;

// Gives soft values of magnitude 1. The first `wrong` of those that distinguish two codewords have wrong signs.
#[derive(Drop)]
struct Between {
    wrong: u32,
}

impl Between {
    // Returns the next value, for a coded bit `sent` in whose place the other codeword has `other`.
    fn next(&mut self, sent: bool, other: bool) -> i32
        ensures { nat_abs result ≤ 255 }
    {
        let mut bit = sent;
        if sent != other && self.wrong > 0 {
            self.wrong -= 1;
            bit = other;
        }
        if bit { -1 } else { 1 }
    }
}

// Returns soft values for the codeword `sent`, with `wrong` wrong signs where the codeword `other` differs.
fn values_between<const N: usize>(
    sent: &[[bool; 3]; N],
    other: &[[bool; 3]; N],
    wrong: u32,
) -> [[i32; 3]; N]
    ensures { RowsWithin (2 ^ 20) result }
{
    let mut between = Between { wrong };
    let mut values = [triple(0, 0, 0); N];
    for k in 0..N {
        values[k] = triple(
            between.next(sent[k][0], other[k][0]),
            between.next(sent[k][1], other[k][1]),
            between.next(sent[k][2], other[k][2]),
        );
    }
    values
}

// Returns the decoded word and its cost if the codeword of `word` arrives with `wrong` wrong signs, at coded bits in
// which the codeword of `other` differs.
fn decoded(word: u64, other: u64, wrong: u32, work: &mut Trellis) -> (u64, u32) {
    let sent = encode::<40>(&Bits::new(bits_of(word)));
    let others = encode::<40>(&Bits::new(bits_of(other)));
    let (found, cost) = least(&values_between(&sent, &others, wrong), work);
    (number_of(found.slice()), cost)
}

// Returns whether `distance` wrong signs, an odd number, lead from one word to the other, and the decoder's result
// changes in the middle.
fn are_apart(word: u64, other: u64, distance: u32, work: &mut Trellis) -> bool {
    let half = distance / 2;
    decoded(word, other, half, work) == (word, half)
        && half < distance
        && decoded(word, other, half + 1, work) == (other, half)
        && decoded(word, other, distance, work) == (other, 0)
}

// The distances are those of `convolutional` in python/lte_reference/cell.py.
#[test]
fn seven_wrong_signs_of_fifteen_leave_the_word(rt: HostRuntime) -> Result<(), Fail> {
    let mut work = Trellis::new(rt.alloc())?;
    for other in [0x3c_0ffe_e122, 0xbc_0ffe_e123, 0x3c_0f8e_e123] {
        assert!(rt;
            are_apart(0x3c_0ffe_e123, other, 15, &mut work),
            "{other:#x}"
        );
    }
    Ok(())
}

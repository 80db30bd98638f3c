ghost use Rattle.std.specs.Prelude.{◌≡◌, ◌≤◌};

use crate::control::cfi_of;
use crate::seen::{SlotRows, subframe_of};
use cs_bits::Bits;
use pdsch::{MOST_VALUES, values};
use std::process::Abort;
use test_support::{EMPTY, Rows, bits_of};

// Instances of slots 10 and 11 with only the PDSCH, and the PDSCH's coded bits, from
// `python/lte_reference/subframe.py`.

// A PDSCH in resource block 2, for identity 77 with CFI 2.
const ONE_10: Rows = [
    b".....2.....3.....2.....2.....2.....0.....0.....3.....2.....3.....1.....3",
    EMPTY,
    EMPTY,
    b"........................323113030222....................................",
    b"..3.....0.....2.....0...323222213323..2.....2.....1.....2.....1.....0...",
];

const ONE_11: SlotRows = [
    b".....3.....3.....1.....2303230123302.....2.....2.....2.....1.....0.....2",
    b"........................021331322321....................................",
    b"........................200032013031....................................",
    b"........................011101321020....................................",
    b"..3.....3.....2.....1...011122230211..3.....0.....1.....1.....1.....0...",
    b"........................222303223033....................................",
    b"........................233311332302....................................",
];

const ONE_BITS: &[u8; 204] =
    b"101111010101011110100011010000001101110010110011110101011000110011101111\
    100010100111110001000000010011011110010010101010110011100001010011010010\
    100110100100010100000010111000101011101111010101011110100011";

// A PDSCH in resource blocks 4 and 5, for identity 503 with CFI 3.
const TWO_10: Rows = [
    b".....1.....1.....1.....2.....2.....0.....3.....3.....1.....0.....0.....1",
    EMPTY,
    EMPTY,
    EMPTY,
    b"..2.....1.....3.....2.....0.....2.....0.....0...232012330320021302311303",
];

const TWO_11: SlotRows = [
    b".....2.....1.....0.....3.....2.....1.....1.....3310103020011033200302110",
    b"................................................110023122320113320201120",
    b"................................................130202222222123103001010",
    b"................................................003120301032111233330323",
    b"..0.....3.....2.....2.....3.....1.....1.....2...231110112203100303033302",
    b"................................................202120203233312201012210",
    b"................................................322103300220203212211100",
];

const TWO_BITS: &[u8; 360] =
    b"010000001110111100100101000011011101001100000101010000001110001010010000\
    110001100011110111100101111010110000000000001001010000000010000100001000\
    000000100000001000100000000000000010000000000000000100011000010000000010\
    000000011000010010001001000000100000010000001011110000111100001010110100\
    100100010111110011000000000011100100110011010100000001001111000011010100";

// Returns the soft values for the grant in `word`, in a buffer filled with 7, and the number of soft values.
fn values_of(
    rt: &impl Abort,
    identity: u16,
    cfi: u8,
    word: u64,
    first: Rows,
    second: SlotRows,
) -> ([i16; MOST_VALUES], usize)
    requires { 2 ≤ cfi }
{
    let (first, second) = subframe_of(rt, identity, first, second);
    let grant = dci::read(&Bits::new(bits_of(word)))
        .ok()
        .expect(rt, "a grant");
    let mut out = [7; MOST_VALUES];
    let count = values(&first, &second, cfi_of(rt, cfi), &grant, &mut out);
    (out, count)
}

// Returns whether the buffer has 67 for each coded 0 and -67 for each coded 1, and 7 after the coded bits.
fn shows(values: &[i16; MOST_VALUES], coded: &[u8]) -> bool {
    values.iter().enumerate().all(|(i, value)| match coded.get(i) {
        Some(digit) => *value == if *digit == b'1' { -67 } else { 67 },
        None => *value == 7,
    })
}

#[test]
fn blocks_have_the_coded_bits(rt: HostRuntime) {
    let (values, count) = values_of(&rt, 77, 2, 0b100001000000000000000, ONE_10, ONE_11);
    assert!(rt; count == 204 && shows(&values, ONE_BITS));
    let (values, _) = values_of(&rt, 77, 2, 0b100001100000000000000, ONE_10, ONE_11);
    assert!(rt; !shows(&values, ONE_BITS));
    // The PDSCH with CFI 3 is one symbol shorter than with CFI 2.
    let (values, count) = values_of(&rt, 503, 3, 0b100101000100000011000, TWO_10, TWO_11);
    assert!(rt; count == 360 && shows(&values, TWO_BITS));
    let (values, count) = values_of(&rt, 503, 2, 0b100101000100000011000, TWO_10, TWO_11);
    assert!(rt; count == 408 && !shows(&values, TWO_BITS));
}

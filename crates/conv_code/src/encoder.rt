//! The encoder.

ghost use Rattle.std.specs.Prelude.{◌≡◌, ◌<◌, ◌≤◌, length, All};
ghost use Rattle.conv_code.specs.Code.{bit_back, tapped_bit, coded_bits, coded_word};

use cs_bits::Bits;

// The taps of the three streams; the generators are 133, 171 and 165 (octal).
const TAPS_0: [usize; 5] = [0, 2, 3, 5, 6];

const TAPS_1: [usize; 5] = [0, 1, 2, 3, 6];

const TAPS_2: [usize; 5] = [0, 1, 2, 4, 6];

/// Returns bit `k` - `t` of `word`, cyclically.
fn bit_before(word: &[bool], k: usize, t: usize) -> bool
    requires inside { k < length word.now }
    requires near { t ≤ length word.now }
    requires short { length word.now ≤ 64 }
    ensures { result ≡ bit_back word.now k t }
{
    word[(k + word.len() - t) % word.len()]
}

/// Returns bit `k` of the coded stream with the taps `taps`.
fn coded_bit(word: &[bool], k: usize, taps: &[usize; 5]) -> bool
    requires inside { k < length word.now }
    requires short { length word.now ≤ 64 }
    requires near { All (λ t. t ≤ length word.now) taps.now }
    ensures { result ≡ tapped_bit taps.now word.now k }
{
    let mut sum = false;
    for t in taps {
        sum = sum ^ bit_before(word, k, *t);
    }
    sum
}

/// Returns the three coded bits at index `k`, one per stream.
fn coded_at(word: &[bool], k: usize) -> [bool; 3]
    requires inside { k < length word.now }
    requires low { 6 ≤ length word.now }
    requires high { length word.now ≤ 64 }
    ensures { result ≡ coded_bits word.now k }
{
    [
        coded_bit(word, k, &TAPS_0),
        coded_bit(word, k, &TAPS_1),
        coded_bit(word, k, &TAPS_2),
    ]
}

/// Encodes a word of 6 to 64 bits to three coded bits per index (TS 36.212 section 5.1.3.1).
pub fn encode<const N: usize>(word: &Bits<N>) -> [[bool; 3]; N]
    requires low { 6 ≤ N }
    requires high { N ≤ 64 }
    ensures { result ≡ coded_word word.now }
{
    let bits = word.slice();
    let mut coded = [[false; 3]; N];
    for k in 0..N {
        coded[k] = coded_at(bits, k);
    }
    coded
}

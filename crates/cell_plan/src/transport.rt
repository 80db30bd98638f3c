//! The transport block, which carries SIB1: the encoded SIB1, its CRC and its turbo encoding.

ghost use Rattle.std.specs.Prelude.{◌≡◌, ℕ, ◌+◌, ◌≤◌, ◌++◌, length, take, drop};
ghost use Rattle.cs_bits.specs.Checks.{with_check_24};
ghost use Rattle.turbo_code.specs.Table.{IsSize};
ghost use Rattle.turbo_code.specs.Encoder.{coded};
ghost use Rattle.cell_plan.specs.Transport.{filled, row_with, is_resolvable_by};

use cs_bits::{crc24a, put_number};
use erasure::fills;
use turbo_code::{Coded, encode, row_of};

// Writes `text` over the first bits of `word`.
fn put_text(word: &mut [bool; 1024], text: &[bool])
    requires { length text.now ≤ 1000 }
    ensures { word.new ≡ text.now ++ drop (length text.now) word.old }
{
    word[..text.len()].copy_from_slice(text);
}

// Returns `text` followed by zeros, 1,024 bits in all.
fn filled(text: &[bool]) -> [bool; 1024]
    requires { length text.now ≤ 1000 }
    ensures { (size : ℕ) → length text.now ≤ size → size ≤ 1024 → take size result ≡ filled size text.now }
{
    let mut word = [false; 1024];
    put_text(&mut word, text);
    word
}

// Writes the 24-bit CRC of the first `size` bits of `word` after these bits.
fn put_check(word: &mut [bool; 1024], size: usize)
    requires { size ≤ 1000 }
    ensures { take (size + 24) word.new ≡ with_check_24 (take size word.old) }
{
    let check = crc24a(&word[..size]);
    put_number(check as u64, &mut word[size..size + 24]);
}

// Returns a transport block of `size` bits, which is `text` followed by zeros, with its 24-bit CRC.
fn checked_block(text: &[bool], size: u16) -> [bool; 1024]
    requires room { size ≤ 1000 }
    requires fits { length text.now ≤ size }
    ensures { take (size + 24) result ≡ with_check_24 (filled size text.now) }
{
    let mut word = filled(text);
    put_check(&mut word, size as usize);
    word
}

/// Returns the turbo-encoded transport block of `size` bits, which is `text` followed by zeros, with its CRC (TS 36.212
/// section 5.3.2). The interleaver table must have a row for `size + 24`.
pub(crate) fn coded_block(text: &[bool], size: u16) -> Coded
    requires size { IsSize (size + 24) }
    requires room { size ≤ 1000 }
    requires fits { length text.now ≤ size }
    ensures k { result.k ≡ size + 24 }
    ensures d { result.d ≡ coded (row_with (size + 24)) (with_check_24 (filled size text.now)) }
{
    let Some(row) = row_of(size) else {
        unreachable!()
    };
    encode(&checked_block(text, size)[..size as usize + 24], row)
}

/// Returns whether, for each redundancy version, the first `count` bits after rate matching resolve the transport block
/// of `size` bits: `text`, zeros, and its CRC. The interleaver table must have a row for `size + 24`.
pub(crate) fn block_fills(text: &[bool], size: u16, count: u16) -> bool
    requires size { IsSize (size + 24) }
    requires room { size ≤ 1000 }
    requires fits { length text.now ≤ size }
    requires count { count ≤ 1224 }
    ensures { result ≡ is_resolvable_by (size + 24) count (with_check_24 (filled size text.now)) }
{
    let Some(row) = row_of(size) else {
        unreachable!()
    };
    fills(&checked_block(text, size)[..size as usize + 24], row, count)
}

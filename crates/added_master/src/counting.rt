//! The coded bits that change as the frame number counts on.

ghost use Rattle.std.specs.Prelude.{◌≡◌, ◌<◌};
ghost use Rattle.conv_code.specs.Code.{coded_word};
ghost use Rattle.added_master.specs.Sums.{change as change_of, change_word as change_word_of};

use conv_code::encode;
use cs_bits::{Bits, crc16};

// The weight of the frame number's lowest upper bit in a MIB.
const NUMBER: u64 = 1 << 10;

// The weight of a MIB's lowest bit in a word with CRC.
const MESSAGE: u64 = 1 << 16;

// Returns the coded bits that change from period 0, where the upper frame number bits are `upper`, to period `d`.
pub(crate) fn changed_bits(upper: u8, d: u8) -> [[bool; 3]; 40]
    ensures { result ≡ coded_word (change_word_of upper d) }
{
    encode(&change_word(upper, d))
}

// Returns the word whose coded bits change from period 0 to period `d`.
fn change_word(upper: u8, d: u8) -> Bits<40>
    ensures { result ≡ change_word_of upper d }
{
    let message = NUMBER * change(upper, d) as u64;
    let check = crc16(Bits::<24>::of_number(message).slice());
    Bits::of_number(MESSAGE * message + check as u64)
}

// Returns the upper frame number bits that change from period 0 to period `d`.
fn change(upper: u8, d: u8) -> u8
    ensures value { result ≡ change_of upper d }
{
    upper ^ upper.wrapping_add(d)
}

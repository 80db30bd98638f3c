//! The bits that one constituent decoder finds.

ghost use Rattle.std.specs.Prelude.{◌≡◌, ℕ, ◌<◌, ◌≤◌, false, length, slice_index_or};
ghost use Rattle.erasure.specs.Sets.{HasSets, found_by};

use crate::states::{States, any_led_through, earlier_set, later_set, start_set, tail_set};

/// One mark per bit of a word of at most 1,024 bits; entries beyond the word are not used.
pub(crate) type Marks = [bool; 1024];

/// Writes to `sets`, for the point before the first step and after each step, the set of states that steps from state 0
/// without a known bit 1 reach.
fn forward(own: &[bool], parity: &[bool], sets: &mut [States])
    requires short { length own.now ≤ 1024 }
    requires parities { length parity.now ≡ length own.now }
    requires room { length own.now < length sets.old }
    ensures { HasSets own.now parity.now sets.new (length own.now) }
{
    let mut set = start_set();
    sets[0] = set;
    for k in 0..own.len() {
        set = later_set(own[k], parity[k], &set);
        sets[k + 1] = set;
    }
}

/// Returns the marks of the bits that are found, given the sets of the forward pass.
fn backward(own: &[bool], parity: &[bool], tail: &[bool; 6], sets: &[States]) -> Marks
    requires short { length own.now ≤ 1024 }
    requires parities { length parity.now ≡ length own.now }
    requires room { length own.now < length sets.now }
    requires sets { HasSets own.now parity.now sets.now (length own.now) }
    ensures found { (k : ℕ) → k < length own.now →
        slice_index_or result k false ≡ found_by own.now parity.now tail.now k }
    ensures size { length result ≡ 1024 }
{
    let mut found = [false; 1024];
    let mut set = tail_set(tail);
    for k in (0..own.len()).rev() {
        found[k] = !any_led_through(parity[k], &sets[k], &set);
        set = earlier_set(own[k], parity[k], &set);
    }
    found
}

/// Returns the marks of the bits that a decoder finds: every word with a 1 at such a bit has another known 1, in its
/// information bits, its parity bits or its tail bits.
pub(crate) fn find(own: &[bool], parity: &[bool], tail: &[bool; 6]) -> Marks
    requires short { length own.now ≤ 1024 }
    requires parities { length parity.now ≡ length own.now }
    ensures found { (k : ℕ) → k < length own.now →
        slice_index_or result k false ≡ found_by own.now parity.now tail.now k }
    ensures size { length result ≡ 1024 }
{
    let mut sets = [[false; 8]; 1025];
    forward(own, parity, &mut sets);
    backward(own, parity, tail, &sets)
}

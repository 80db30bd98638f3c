//! The fine offset, from the cyclic prefixes.

ghost use Rattle.std.specs.Prelude.{◌≡◌, ◌+◌, ◌-◌, ◌*◌, ◌^◌, ◌<◌, ◌≤◌, length, nat_abs, int_lt, nat_le};
ghost use Rattle.std.specs.Prelude.{◌&&◌, if◌then◌else◌};
ghost use Rattle.cs_num.specs.Complex.{IsWithin};
ghost use Rattle.lte_types.specs.Numerology.{half_frame_length, useful_length};
ghost use Rattle.frequency_offset.specs.Order.{by_magnitude as by_magnitude_of};
ghost use Rattle.frequency_offset.specs.Fine.{half_start as half_start_of, is_carried as is_carried_at};
ghost use Rattle.frequency_offset.specs.Fine.{repeat_term as repeat_term_at, repeat_sum as repeat_sum_at};
ghost use Rattle.frequency_offset.specs.Fine.{symbol_sum as symbol_sum_at, slot_sum as slot_sum_at, prefix_sum as prefix_sum_of};
ghost use Rattle.frequency_offset.specs.Fine.{fit as fit_of, best_fit as best_fit_of, fine_turn as fine_turn_of};

use crate::at_turn::Turned;
use crate::order::by_magnitude;
use crate::table::w_at;
use cs_num::Cpx;
use lte_types::{HALF_FRAME_LENGTH, Half, Prefix, USEFUL_LENGTH};

// Returns the fine offset, -64 to 63, of a corrected recording whose PSS is at sample `t`.
pub(crate) fn fine_turn(turned: &Turned, t: usize) -> i16
    requires { t < 19600 }
    ensures value { result ≡ fine_turn_of turned.now t }
    ensures small { nat_abs result ≤ 64 }
{
    best_fit(prefix_sum(turned, t))
}

// Returns the offset that matches the prefix sum best.
fn best_fit(sum: Cpx) -> i16
    requires { IsWithin (2 ^ 46) sum }
    ensures value { result ≡ best_fit_of sum }
    ensures small { nat_abs result ≤ 64 }
{
    let mut best = 0;
    for k in 1..128 {
        best = better_fit(sum, best, k);
    }
    by_magnitude(best)
}

// Returns the index, `first` or `second`, of the offset that matches the prefix sum better; `first` on a tie.
fn better_fit(sum: Cpx, first: usize, second: usize) -> usize
    requires sum { IsWithin (2 ^ 46) sum }
    requires first { first < useful_length }
    requires second { second < useful_length }
    ensures { result ≡ (if int_lt (fit_of sum (by_magnitude_of first)) (fit_of sum (by_magnitude_of second))
        then second else first) }
{
    if fit(sum, by_magnitude(first)) < fit(sum, by_magnitude(second)) {
        second
    } else {
        first
    }
}

// Returns how well the prefix sum matches offset `m`.
fn fit(sum: Cpx, m: i16) -> i64
    requires { IsWithin (2 ^ 46) sum }
    ensures { result ≡ fit_of sum m }
{
    sum.mul(w_at(m as i64).conj()).re
}

// Returns the sum of the prefix products over 160 slots, for a PSS at sample `t`.
fn prefix_sum(turned: &Turned, t: usize) -> Cpx
    requires { t < 19600 }
    ensures value { result ≡ prefix_sum_of turned.now t }
    ensures small { IsWithin (2 ^ 46) result }
{
    let start = half_start(t);
    let mut sum = Cpx::ZERO;
    for slot in 0..160 {
        sum = sum + slot_sum(turned, start, slot);
    }
    sum
}

// Returns the start of the first half-frame in a recording whose PSS is at sample `t`.
fn half_start(t: usize) -> usize
    requires { t < 19600 }
    ensures value { result ≡ half_start_of t }
    ensures early { result < half_frame_length }
{
    let primary = Half::Zero.primary_start() as usize;
    (t + (HALF_FRAME_LENGTH - primary)) % HALF_FRAME_LENGTH
}

// Returns the sum of the prefix products over a slot's seven symbols.
fn slot_sum(turned: &Turned, start: usize, slot: usize) -> Cpx
    requires start { start < half_frame_length }
    requires slot { slot < 160 }
    ensures value { result ≡ slot_sum_at turned.now start slot }
    ensures small { IsWithin (63 * 2 ^ 31) result }
{
    let mut sum = Cpx::ZERO;
    for symbol in 0..7 {
        sum = sum + symbol_sum(turned, start, slot, symbol);
    }
    sum
}

// Returns whether every cell transmits in a symbol of a slot.
fn is_carried(slot: usize, symbol: usize) -> bool
    ensures { result ≡ is_carried_at slot symbol }
{
    symbol == 0 || symbol == 4 || (slot % 10 == 0 && (symbol == 5 || symbol == 6))
}

// Returns the sum of a symbol's prefix products; 0 if some cells do not transmit in the symbol, or the recording ends
// before the symbol does.
fn symbol_sum(turned: &Turned, start: usize, slot: usize, symbol: usize) -> Cpx
    requires start { start < half_frame_length }
    requires slot { slot < 160 }
    requires symbol { symbol < 7 }
    ensures value { result ≡ symbol_sum_at turned.now start slot symbol }
    ensures small { IsWithin (9 * 2 ^ 31) result }
{
    let u = Prefix::NORMAL.useful_start(start, slot, symbol);
    if counts(turned, u, slot, symbol) {
        repeat_sum(turned, u)
    } else {
        Cpx::ZERO
    }
}

// Returns whether every cell transmits in the symbol with its useful part at `u`, and the symbol lies in the
// recording.
fn counts(turned: &Turned, u: usize, slot: usize, symbol: usize) -> bool
    requires { u < 170000 }
    ensures { result ≡ (is_carried_at slot symbol && nat_le (u + useful_length) (length turned.now)) }
{
    is_carried(slot, symbol) && u + USEFUL_LENGTH <= turned.len()
}

// Returns the sum of the products for the last nine samples in the cyclic prefix before `u`.
fn repeat_sum(turned: &Turned, u: usize) -> Cpx
    requires first { 9 ≤ u }
    requires few { u < 170000 }
    requires last { u + useful_length ≤ length turned.now }
    ensures value { result ≡ repeat_sum_at turned.now u }
    ensures small { IsWithin (9 * 2 ^ 31) result }
{
    let mut sum = Cpx::ZERO;
    for i in 0..9 {
        sum = sum + repeat_term(turned, u, i);
    }
    sum
}

// Returns the conjugate of sample `i` among the last nine in the cyclic prefix before `u`, times the sample 128 later.
fn repeat_term(turned: &Turned, u: usize, i: usize) -> Cpx
    requires first { 9 ≤ u }
    requires few { u < 170000 }
    requires last { u + useful_length ≤ length turned.now }
    requires i { i < 9 }
    ensures value { result ≡ repeat_term_at turned.now u i }
    ensures small { IsWithin (2 ^ 31) result }
{
    let early = Cpx::from(turned.at(u - 9 + i));
    let late = Cpx::from(turned.at(u + 119 + i));
    early.conj().mul(late)
}

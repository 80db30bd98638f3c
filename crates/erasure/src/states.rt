//! Sets of encoder states, reached or left by steps without a known bit 1.

ghost use Rattle.std.specs.Prelude.{◌≡◌, ℕ, ◌<◌, false, length, slice_index_or, nat_eq};
ghost use Rattle.finite.specs.Tests.{any_below};
ghost use Rattle.erasure.specs.Sets.{hides, leads_to, leads_from, leads_through, tail_step_hides, tail_hides};

use turbo_code::{before, bit_to, next, parity_bit, tail_bit, tail_parity};

/// The number of encoder states.
const STATES: usize = 8;

/// A set of encoder states: entry x states whether state x is a member.
pub(crate) type States = [bool; STATES];

/// Returns whether the step from state `x` with input bit `u` has no known bit 1.
fn is_hidden(own: bool, parity: bool, x: usize, u: bool) -> bool
    requires { x < 8 }
    ensures { result ≡ hides own parity x u }
{
    !(u && own) && !(parity_bit(x, u) && parity)
}

/// Returns whether a step without a known bit 1 leads from a state in `set` to state `y`.
fn is_led_to(own: bool, parity: bool, set: &States, y: usize) -> bool
    requires { y < 8 }
    ensures { result ≡ leads_to own parity set.now y }
{
    let (first, second) = before(y);
    let by_first = set[first] && is_hidden(own, parity, first, bit_to(first, y));
    let by_second = set[second] && is_hidden(own, parity, second, bit_to(second, y));
    by_first || by_second
}

/// Returns whether a step without a known bit 1 leads from state `x` into `set`.
fn is_led_from(own: bool, parity: bool, set: &States, x: usize) -> bool
    requires { x < 8 }
    ensures { result ≡ leads_from own parity set.now x }
{
    let by_zero = is_hidden(own, parity, x, false) && set[next(x, false)];
    let by_one = is_hidden(own, parity, x, true) && set[next(x, true)];
    by_zero || by_one
}

/// Returns the set of states before the first step: state 0 alone.
pub(crate) fn start_set() -> States
    ensures set { (x : ℕ) → x < 8 → slice_index_or result x false ≡ nat_eq x 0 }
    ensures size { length result ≡ 8 }
{
    [true, false, false, false, false, false, false, false]
}

/// Returns the set of states that a step without a known bit 1 reaches from `set`.
pub(crate) fn later_set(own: bool, parity: bool, set: &States) -> States
    ensures set { (x : ℕ) → x < 8 → slice_index_or result x false ≡ leads_to own parity set.now x }
    ensures size { length result ≡ 8 }
{
    let mut later = [false; STATES];
    for x in 0..STATES {
        later[x] = is_led_to(own, parity, set, x);
    }
    later
}

/// Returns the set of states from which a step without a known bit 1 leads into `set`.
pub(crate) fn earlier_set(own: bool, parity: bool, set: &States) -> States
    ensures set { (x : ℕ) → x < 8 → slice_index_or result x false ≡ leads_from own parity set.now x }
    ensures size { length result ≡ 8 }
{
    let mut earlier = [false; STATES];
    for x in 0..STATES {
        earlier[x] = is_led_from(own, parity, set, x);
    }
    earlier
}

/// Returns whether the step from state `x` in `before`, with input bit 1, leads into `after`. The input bit counts as
/// unknown, and the parity bit is not a known 1.
fn is_led_through(parity: bool, before: &States, after: &States, x: usize) -> bool
    requires { x < 8 }
    ensures { result ≡ leads_through parity before.now after.now x }
{
    before[x] && is_hidden(false, parity, x, true) && after[next(x, true)]
}

/// Returns whether a step from any state in `before`, with input bit 1, leads into `after`. The input bit counts as
/// unknown, and the parity bit is not a known 1.
pub(crate) fn any_led_through(parity: bool, before: &States, after: &States) -> bool
    ensures { result ≡ any_below 8 (leads_through parity before.now after.now) }
{
    let mut any = false;
    for x in 0..STATES {
        any |= is_led_through(parity, before, after, x);
    }
    any
}

/// Returns whether tail step `j` from state `x` has no known bit 1.
fn is_tail_step_hidden(tail: &[bool; 6], j: usize, x: usize) -> bool
    requires { j < 3 }
    ensures { result ≡ tail_step_hides tail.now j x }
{
    !(tail_bit(x) && tail[2 * j]) && !(tail_parity(x) && tail[2 * j + 1])
}

/// Returns whether the tail from state `x` has no known bit 1.
fn is_tail_hidden(tail: &[bool; 6], x: usize) -> bool
    ensures { result ≡ tail_hides tail.now x }
{
    is_tail_step_hidden(tail, 0, x)
        && is_tail_step_hidden(tail, 1, x / 2)
        && is_tail_step_hidden(tail, 2, x / 2 / 2)
}

/// Returns the states whose tail has no known bit 1.
pub(crate) fn tail_set(tail: &[bool; 6]) -> States
    ensures set { (x : ℕ) → x < 8 → slice_index_or result x false ≡ tail_hides tail.now x }
    ensures size { length result ≡ 8 }
{
    let mut set = [false; STATES];
    for x in 0..STATES {
        set[x] = is_tail_hidden(tail, x);
    }
    set
}

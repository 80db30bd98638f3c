//! The encoder as an 8-state machine. A state holds the register's last three bits, the latest with weight 4.

ghost use Rattle.std.specs.Prelude.{◌≡◌, ◌/◌, ◌<◌};
ghost use Rattle.finite.specs.Bits.{odd};
ghost use Rattle.turbo_code.specs.Machine.{bit_to, first_from, next, parity_bit, register, second_from};
ghost use Rattle.turbo_code.specs.Machine.{tail_bit, tail_parity};

/// Returns the latest register bit, a(k - 1), of state `x`.
fn latest(x: usize) -> bool
    ensures { result ≡ odd (x / 4) }
{
    x / 4 % 2 == 1
}

/// Returns the middle register bit, a(k - 2), of state `x`.
fn middle(x: usize) -> bool
    ensures { result ≡ odd (x / 2) }
{
    x / 2 % 2 == 1
}

/// Returns the oldest register bit, a(k - 3), of state `x`.
fn oldest(x: usize) -> bool
    ensures { result ≡ odd x }
{
    x % 2 == 1
}

/// Returns the register's new bit when state `x` takes the input bit `u` (TS 36.212 section 5.1.3.2.1).
pub fn register(x: usize, u: bool) -> bool
    ensures { result ≡ register x u }
{
    u ^ middle(x) ^ oldest(x)
}

/// Returns the parity bit for a step from state `x` with input bit `u`.
pub fn parity_bit(x: usize, u: bool) -> bool
    ensures { result ≡ parity_bit x u }
{
    register(x, u) ^ latest(x) ^ oldest(x)
}

/// Returns the state after a step from state `x` with input bit `u`. States are below 8.
pub fn next(x: usize, u: bool) -> usize
    requires { x < 8 }
    ensures next { result ≡ next x u }
    ensures bound { result < 8 }
{
    x / 2 + if register(x, u) { 4 } else { 0 }
}

/// Returns the two states that have a step to state `x`. States are below 8.
pub fn before(x: usize) -> (usize, usize)
    requires { x < 8 }
    ensures first { result.0 ≡ first_from x }
    ensures second { result.1 ≡ second_from x }
    ensures bound { result.1 < 8 }
{
    let first = 2 * (x % 4);
    (first, first + 1)
}

/// Returns the input bit in the step from state `p` to state `x`. If there is no such step, the result has no meaning.
pub fn bit_to(p: usize, x: usize) -> bool
    ensures { result ≡ bit_to p x }
{
    register(p, latest(x))
}

/// Returns the systematic bit for a tail step, which leads from state `x` to `x / 2` (TS 36.212 section 5.1.3.2.2).
pub fn tail_bit(x: usize) -> bool
    ensures { result ≡ tail_bit x }
{
    middle(x) ^ oldest(x)
}

/// Returns the parity bit for a tail step from state `x`.
pub fn tail_parity(x: usize) -> bool
    ensures { result ≡ tail_parity x }
{
    latest(x) ^ oldest(x)
}

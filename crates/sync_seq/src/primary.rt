//! The PSS.

ghost use Rattle.std.specs.Prelude.{◌≡◌, ◌<◌, ◌≤◌};
ghost use Rattle.sync_seq.specs.Primary.{root_of, pss_at, pss_list};

use cs_num::Cpx;
use fold128::z63;

/// Returns the 62 PSS values for the identity `n2` within the group, 0 to 2 (TS 36.211 section 6.11.1): 63rd roots of
/// unity times 127, rounded to integers (`z63`).
pub fn pss(n2: u8) -> [Cpx; 62]
    requires { n2 ≤ 2 }
    ensures { result ≡ pss_list n2 }
{
    let mut values = [Cpx::ZERO; 62];
    for n in 0..62 {
        values[n] = pss_value(n2, n);
    }
    values
}

// Returns PSS value `n`, 0 to 61.
fn pss_value(n2: u8, n: usize) -> Cpx
    requires identity { n2 ≤ 2 }
    requires n { n < 62 }
    ensures { result ≡ pss_at n2 n }
{
    let turns = if n < 31 {
        n * (n + 1) / 2
    } else {
        (n + 1) * (n + 2) / 2
    };
    z63((63 - root(n2)) * turns)
}

// Returns the Zadoff-Chu root index: 25, 29 or 34.
fn root(n2: u8) -> usize
    requires { n2 ≤ 2 }
    ensures value { result ≡ root_of n2 }
    ensures small { result ≤ 34 }
{
    match n2 {
        0 => 25,
        1 => 29,
        _ => 34,
    }
}

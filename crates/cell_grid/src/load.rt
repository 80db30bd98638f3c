//! The load of a frame: pseudo-random bits of QPSK symbols. (own)

ghost use Rattle.std.specs.Prelude.{◌≡◌, ℕ, ◌+◌, ◌*◌, ◌^◌, ◌<◌, ◌≤◌, ◌++◌, Some, length, take};
ghost use Rattle.gold.specs.Gold.{gold_bits};
ghost use Rattle.cell_grid.specs.Load.{load_c_init};
ghost use Rattle.cell_grid.specs.Rows.{load_bits as bits_of};

use crate::Port;
use lte_types::Sfn;

// The number of load bits in a subframe: 14 symbols with 72 subcarriers, and two bits for each resource element.
const SUBFRAME: usize = 2016;

/// The number of load bits in a frame.
pub(crate) const LOAD_BITS: usize = 10 * SUBFRAME;

// Returns `c_init` of the Gold sequence that gives the load's bits in a subframe, at most 31 bits.
fn c_init(load: u32, port: Port, sfn: Sfn, subframe: u8) -> u32
    requires { subframe < 10 }
    ensures value { result ≡ load_c_init load port sfn subframe }
    ensures fits { result < 2 ^ 31 }
{
    let number = 40_960 * load as u64
        + 10_240 * port.number as u64
        + 10 * sfn.value() as u64
        + subframe as u64;
    (number % (1 << 31)) as u32
}

// Writes the 2,016 load bits of a subframe to `bits` from index `first`.
fn put_subframe(bits: &mut [bool], first: usize, c_init: u32)
    requires inside { first + 2016 ≤ length bits.old }
    requires c_init { c_init < 2 ^ 31 }
    ensures bits { take (first + 2016) bits.new ≡ take first bits.old ++ gold_bits c_init 2016 }
    ensures count { length bits.new ≡ length bits.old }
{
    gold::fill(c_init, &mut bits[first..first + SUBFRAME]);
}

// Returns the bits of load number `load` in frame `sfn`.
fn bits_with(load: u32, port: Port, sfn: Sfn) -> [bool; LOAD_BITS]
    ensures { result ≡ bits_of load port sfn }
{
    let mut bits = [false; LOAD_BITS];
    for subframe in 0..10_u8 {
        let c_init = c_init(load, port, sfn, subframe);
        put_subframe(&mut bits, SUBFRAME * subframe as usize, c_init);
    }
    bits
}

/// Returns the load's bits in frame `sfn`, 2,016 for each subframe, or zeros if there is no load.
pub(crate) fn load_bits(load: Option<u32>, port: Port, sfn: Sfn) -> [bool; LOAD_BITS]
    ensures { (number : ℕ) → load ≡ Some number → result ≡ bits_of number port sfn }
{
    match load {
        Some(number) => bits_with(number, port, sfn),
        None => [false; LOAD_BITS],
    }
}

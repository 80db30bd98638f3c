//! A constituent decoder's extrinsic values, by max-log-MAP (own).
//!
//! For each bit, the extrinsic value is the maximum score of a word with 0 there, less the maximum score of a word with
//! 1, less the bit's own soft value and prior, clamped to -2047 to 2047. A word's score is the sum of the soft values
//! of its information, parity and tail bits that are 0 (TS 36.212 sections 5.1.3.2.1 and 5.1.3.2.2), where an
//! information bit's prior is added to its soft value.

ghost use Rattle.std.specs.Prelude.{◌≡◌, ℕ, ◌+◌, ◌*◌, ◌^◌, ◌<◌, ◌≤◌, ◌+ℤ◌, ◌-ℤ◌, All, pos, nat_abs, length, slice_index, []};
ghost use Rattle.turbo_dec.specs.Decoder.{IsSmall, at, values_of, within_2047, extrinsics, extrinsic};
ghost use Rattle.turbo_dec.specs.Costs.{starts, HasRows};

use crate::costs::{Soft, backward_row, forward_row, least_through, tail_row};
use crate::work::Work;

/// A cost that is more than the cost of any path.
const FAR: u32 = 0x1000_0000;

/// A constituent decoder's input: for each information bit its soft value, its prior, and the soft value of its parity
/// bit.
#[derive(Clone, Copy)]
struct Streams<'a> {
    systematic: &'a [i32],
    parity: &'a [i32],
    prior: &'a [i32],
    ghost short: { length systematic.now ≤ 1024 },
    ghost parities: { length parity.now ≡ length systematic.now },
    ghost priors: { length prior.now ≡ length systematic.now },
    ghost small_systematic: { All IsSmall systematic.now },
    ghost small_parity: { All IsSmall parity.now },
    ghost small_prior: { All IsSmall prior.now },
}

/// Returns the soft values of the step at index `k`, with the information bit's prior added.
fn soft_at(streams: &Streams, k: usize) -> Soft
    requires index { k < length streams.now.systematic.now }
    ensures sum { result.sum ≡ at streams.now.systematic.now k +ℤ at streams.now.prior.now k }
    ensures parity { result.parity ≡ at streams.now.parity.now k }
{
    let sum = streams.systematic[k] + streams.prior[k];
    Soft {
        sum,
        parity: streams.parity[k],
    }
}

/// Returns the row of costs before the first step: 0 for state 0, in which the encoder starts, and more than any path
/// costs for the others.
fn start_row() -> [u32; 8]
    ensures row { (x : ℕ) → x < 8 → slice_index result x ≡ starts x }
    ensures size { length result ≡ 8 }
{
    [0, FAR, FAR, FAR, FAR, FAR, FAR, FAR]
}

/// Writes the rows of minimum costs to each state: before the first step, and after each step.
fn forward(streams: &Streams, rows: &mut [[u32; 8]])
    requires room { length streams.now.systematic.now < length rows.old }
    ensures { HasRows (values_of streams.now.systematic.now streams.now.parity.now [] streams.now.prior.now)
        rows.new (length streams.now.systematic.now) }
{
    let mut row = start_row();
    rows[0] = row;
    for k in 0..streams.systematic.len() {
        row = forward_row(&soft_at(streams, k), &row);
        rows[k + 1] = row;
    }
}

/// Returns a bit's extrinsic value, from the minimum path costs with the bit 0 (`zeros`) and with the bit 1 (`ones`),
/// and its step's soft values.
fn extrinsic_of(zeros: u32, ones: u32, soft: &Soft) -> i32
    requires zeros { zeros ≤ 2 ^ 30 }
    requires ones { ones ≤ 2 ^ 30 }
    ensures { result ≡ within_2047 ((pos ones -ℤ pos zeros) -ℤ soft.now.sum) }
{
    let difference = ones as i32 - zeros as i32 - soft.sum;
    difference.clamp(-2047, 2047)
}

/// Writes the extrinsic values to `out` by the backward recursion. `rows` are the minimum costs from the forward
/// recursion.
fn backward(streams: &Streams, tail: &[i32; 6], rows: &[[u32; 8]], out: &mut [i32])
    requires outs { length out.old ≡ length streams.now.systematic.now }
    requires small_tail { All IsSmall tail.now }
    requires room { length streams.now.systematic.now < length rows.now }
    requires rows { HasRows (values_of streams.now.systematic.now streams.now.parity.now [] streams.now.prior.now)
        rows.now (length streams.now.systematic.now) }
    ensures { out.new ≡ extrinsics (values_of streams.now.systematic.now
        streams.now.parity.now tail.now streams.now.prior.now) }
{
    let mut row = tail_row(tail);
    for k in (0..streams.systematic.len()).rev() {
        let soft = soft_at(streams, k);
        let zeros = least_through(&soft, &rows[k], &row, false);
        let ones = least_through(&soft, &rows[k], &row, true);
        out[k] = extrinsic_of(zeros, ones, &soft);
        row = backward_row(&soft, &row);
    }
}

/// Writes the extrinsic values for at most 1,024 information bits to `out`. The four slices have equal lengths, `tail`
/// has the order x(K), z(K), x(K + 1), .., and each input is at most 4,096 in magnitude.
pub fn half(
    systematic: &[i32],
    parity: &[i32],
    tail: &[i32; 6],
    prior: &[i32],
    out: &mut [i32],
    work: &mut Work,
)
    requires short { length systematic.now ≤ 1024 }
    requires parities { length parity.now ≡ length systematic.now }
    requires priors { length prior.now ≡ length systematic.now }
    requires outs { length out.old ≡ length systematic.now }
    requires small_systematic { All IsSmall systematic.now }
    requires small_parity { All IsSmall parity.now }
    requires small_tail { All IsSmall tail.now }
    requires small_prior { All IsSmall prior.now }
    ensures { out.new ≡ extrinsics (values_of systematic.now parity.now tail.now prior.now) }
{
    let streams = Streams {
        systematic,
        parity,
        prior,
    };
    forward(&streams, &mut work.rows);
    backward(&streams, tail, &work.rows, out);
}

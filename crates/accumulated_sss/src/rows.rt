//! Sums over the half-frames of even or of odd number.

ghost use Rattle.std.specs.Prelude.{◌≡◌, ◌+◌, ◌*◌, ◌^◌, ◌≤◌, length};
ghost use Rattle.finite.specs.Sizes.{AllWithin};
ghost use Rattle.lte_types.specs.Numerology.{most_samples, normal, symbol_step};
ghost use Rattle.pss_search.specs.Correlation.{wave_list};
ghost use Rattle.accumulated_sss.specs.Votes.{product, vote};
ghost use Rattle.accumulated_sss.specs.Steps.{added as added_lists, row_of};
ghost use Rattle.accumulated_sss.specs.Signs.{last_end};

use crate::votes::{energy_of_both, products, votes_for};
use cs_num::Cpx;
use lte_types::{HALF_FRAME_LENGTH, USEFUL_LENGTH};
use sample_file::Recording;

// Sums over the half-frames of one parity, for each of the 62 signs of the secondary signal.
#[derive(Drop)]
pub(crate) struct Sums {
    pub votes: [i128; 62],
    pub products: [i128; 62],
}

// Returns the sums over the half-frames `parity`, 0 or 1, `parity` + 2 and so on among the first `halves`, at position
// `t`; `wave` is the primary signal `n2`.
pub(crate) fn row(
    recording: &Recording,
    halves: usize,
    t: usize,
    n2: u8,
    wave: &[Cpx; USEFUL_LENGTH],
    parity: usize,
) -> Sums
    requires first { symbol_step normal ≤ t }
    requires covered { last_end halves t ≤ length recording.now }
    requires long { length recording.now ≤ most_samples }
    requires member { n2 ≤ 2 }
    requires wave { wave.now ≡ wave_list n2 }
    requires parity { parity ≤ 1 }
    ensures votes { result.votes ≡ row_of halves t parity (vote recording.now n2) }
    ensures products { result.products ≡ row_of halves t parity (product recording.now n2) }
    ensures few_votes { AllWithin (2 ^ 64) result.votes }
    ensures few_products { AllWithin (2 ^ 64) result.products }
{
    let mut vote_sums = [0; 62];
    let mut product_sums = [0; 62];
    for j in 0..(halves + 1 - parity) / 2 {
        let at = t + HALF_FRAME_LENGTH * (2 * j + parity);
        let here = products(recording, at, n2, wave);
        let votes = votes_for(&here, energy_of_both(recording, at));
        vote_sums = added(&vote_sums, &votes);
        product_sums = added(&product_sums, &here);
    }
    Sums {
        votes: vote_sums,
        products: product_sums,
    }
}

// Returns `values` added to `sums`.
fn added(sums: &[i128; 62], values: &[i64; 62]) -> [i128; 62]
    requires sums { AllWithin (2 ^ 64) sums.now }
    requires values { AllWithin (2 ^ 57) values.now }
    ensures { result ≡ added_lists sums.now values.now }
{
    let mut out = [0; 62];
    for n in 0..62 {
        out[n] = sums[n] + values[n] as i128;
    }
    out
}

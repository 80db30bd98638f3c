//! A wide recording, corrected by an offset.

ghost use Rattle.std.specs.Prelude.{◌≡◌, ◌*◌, ◌<◌, ◌≤◌, length};
ghost use Rattle.finite.specs.Lists.{values_below};
ghost use Rattle.cs_num.specs.Complex.{IsWithin, sample_at};
ghost use Rattle.lte_types.specs.Numerology.{most_samples};
ghost use Rattle.frequency_offset.specs.Turned.{turned_back as turned_back_by};
ghost use Rattle.wide_turn.specs.Turned.{angle as angle_of, turned as turned_by};

use cs_num::{Cpx, Sample};
use frequency_offset::{mean, turned_back};

/// Corrects a recording of 1 to 30,720,000 samples at 2^`rate` times 1.92 million per second, `rate` at most 4:
/// subtracts the mean, shifts the frequency by `-m` times 117.1875 Hz, rounds, and clamps to 16 bits. (own)
#[tactic(auto, unfolding(crate::specs::Turned::turned_at))]
pub fn turned(samples: Vec<Sample>, rate: u8, m: i16) -> Vec<Sample>
    requires rate { rate ≤ 4 }
    requires some { 0 < length samples.items }
    requires few { length samples.items ≤ 16 * most_samples }
    ensures { result.items ≡ turned_by rate samples.items m }
{
    let mut turned = samples;
    let centre = mean(&turned);
    turn(&mut turned, rate, m, centre);
    turned
}

// Corrects samples with the mean `centre` by offset `m`.
fn turn(samples: &mut [Sample], rate: u8, m: i16, centre: Cpx)
    requires rate { rate ≤ 4 }
    requires few { length samples.old ≤ 16 * most_samples }
    requires centre { IsWithin 32768 centre }
    ensures { samples.new ≡ values_below (length samples.old)
        (λ i. turned_back_by (sample_at samples.old i) centre (angle_of rate m i)) }
{
    for i in 0..samples.len() {
        samples[i] = turned_back(samples[i], centre, angle(rate, m, i));
    }
}

// Returns the phase for offset `m` at sample `i`, in 1/128 of a cycle.
fn angle(rate: u8, m: i16, i: usize) -> i64
    requires rate { rate ≤ 4 }
    requires i { i < 16 * most_samples }
    ensures { result ≡ angle_of rate m i }
{
    let phase = m as i64 * i as i64;
    match rate {
        0 => phase >> 7,
        1 => phase >> 8,
        2 => phase >> 9,
        3 => phase >> 10,
        _ => phase >> 11,
    }
}

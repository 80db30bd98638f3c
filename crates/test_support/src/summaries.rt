//! Checksums of recordings, from the reference implementations.

use cs_num::Sample;
use sample_file::Recording;

/// A recording's summary: its sample count, its first four samples, and four sums over the real and imaginary parts,
/// two plain and two weighted by position.
#[derive(Clone, Copy)]
pub struct Summary {
    /// The sample count.
    pub count: usize,
    /// The first four samples.
    pub front: [(i16, i16); 4],
    /// The sums of the real and of the imaginary parts, without weights and then weighted by position.
    pub sums: [i64; 4],
}

/// Returns whether `summary` is the summary of `recording`.
pub fn is_summed_up(recording: &Recording, summary: &Summary) -> bool {
    recording.len() == summary.count
        && front(recording) == summary.front
        && sums(recording) == summary.sums
}

// Returns the four sums in a recording's summary. The weights are 1 to 999 and 0, repeated.
fn sums(recording: &Recording) -> [i64; 4] {
    let (mut re, mut im) = (0i64, 0i64);
    let (mut far_re, mut far_im) = (0i64, 0i64);
    let mut weight = 0i64;
    for sample in recording.as_slice() {
        weight = (weight.wrapping_add(1)) % 1_000;
        re = re.wrapping_add(sample.re as i64);
        im = im.wrapping_add(sample.im as i64);
        far_re = far_re.wrapping_add(weight.wrapping_mul(sample.re as i64));
        far_im = far_im.wrapping_add(weight.wrapping_mul(sample.im as i64));
    }
    [re, im, far_re, far_im]
}

// Returns the first four samples.
fn front(recording: &Recording) -> [(i16, i16); 4] {
    let samples = recording.as_slice();
    prove!(57_600 <= recording.len());
    let pair = |s: Sample| (s.re, s.im);
    [
        pair(samples[0]),
        pair(samples[1]),
        pair(samples[2]),
        pair(samples[3]),
    ]
}

/// Returns whether the component sums of `recording`, weighted by index modulo 997, are `expected`.
pub fn has_sums(recording: &Recording, expected: (i64, i64)) -> bool {
    sums_by_place(recording.as_slice()) == expected
}

// Returns the component sums, weighted by index modulo 997.
fn sums_by_place(samples: &[Sample]) -> (i64, i64) {
    let mut re: i64 = 0;
    let mut im: i64 = 0;
    for (i, sample) in samples.iter().enumerate() {
        let weight = (i % 997) as i64;
        re = re.wrapping_add(weight * sample.re as i64);
        im = im.wrapping_add(weight * sample.im as i64);
    }
    (re, im)
}

//! The estimated frequency offset of shifted synthetic recordings. The expected texts are from two reference
//! implementations, `python/lte_reference/make.py` and `python/lte_reference/tune.py`.

use capture_make::make;
use cs_num::Sample;
use frequency_offset::{OffsetEstimate, applied, tell, turned};
use report_text::tell_text;
use sample_file::Recording;
use std::alloc::{AllocError, Global};
use std::test::Fail;
use test_support::{has_sums, silent_recording};

// Returns synthetic recording `n`, shifted by `m` phase steps.
fn made_and_turned(alloc: Global, n: u32, m: i16) -> Result<Recording, AllocError> {
    let made = make(alloc, n)?;
    turned(alloc, &made.recording, m)
}

// Returns the first 1,000 samples of a recording, followed by silence up to 30 ms.
fn front_and_silence(alloc: Global, recording: &Recording) -> Result<Vec<Sample>, AllocError> {
    let end = recording.len();
    let mut samples = Vec::with_capacity(alloc, 57_600)?;
    for i in 0..57_600_usize {
        samples.push(if i < 1_000 && i < end {
            recording.get(i)
        } else {
            Sample { re: 0, im: 0 }
        })?;
    }
    Ok(samples)
}

// Returns whether `text` is the frequency offset report on a recording.
fn is_estimated(alloc: Global, recording: &Recording, text: &str) -> Result<bool, AllocError> {
    Ok(tell_text(alloc, recording)?.as_str() == text)
}

#[test]
fn the_first_recording_is_estimated_and_corrected(rt: HostRuntime) -> Result<(), Fail> {
    let recording = made_and_turned(rt.alloc(), 0, -213)?;
    assert!(rt; has_sums(&recording, (3_883_257, 10_827_710)));
    assert!(rt; is_estimated(rt.alloc(), &recording, "hits 2\nturn 213\ncells 1\n")?);
    let back = applied(rt.alloc(), &recording)?;
    assert!(rt; back.get(1) == Sample { re: 5, im: 50 });
    assert!(rt; has_sums(&back, (-5_195_754, 4_935_601)));
    Ok(())
}

#[test]
fn a_turn_the_other_way_is_estimated(rt: HostRuntime) -> Result<(), Fail> {
    let recording = made_and_turned(rt.alloc(), 1, 400)?;
    assert!(rt; is_estimated(rt.alloc(), &recording, "hits 2\nturn -400\ncells 1\n")?);
    Ok(())
}

#[test]
fn without_a_cell_the_first_candidate_is_reported(rt: HostRuntime) -> Result<(), Fail> {
    let recording = made_and_turned(rt.alloc(), 0, -213)?;
    let samples = front_and_silence(rt.alloc(), &recording)?;
    let short = Recording::new(samples).expect(&rt, "30 ms");
    let first = OffsetEstimate {
        turn: 213,
        hits: 1,
        cells: 0,
    };
    assert!(rt; tell(rt.alloc(), &short)? == Some(first));
    Ok(())
}

#[test]
fn silence_gives_no_estimate(rt: HostRuntime) -> Result<(), Fail> {
    let recording = silent_recording(rt.alloc())?;
    assert!(rt; tell(rt.alloc(), &recording)? == None);
    assert!(rt; is_estimated(rt.alloc(), &recording, "hits 0\n")?);
    assert!(rt; has_sums(&applied(rt.alloc(), &recording)?, (0, 0)));
    Ok(())
}

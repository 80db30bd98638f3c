// Recordings at their length limits, the byte format of samples, and sources that end or fail.
use cs_num::Sample;
use cs_outside::{FailSource, MemSource};
use sample_file::{
    FileError, Recording, SampleForm, read_as, read_cu8, read_front, read_recording,
};
use std::alloc::{AllocError, Global};
use std::test::Fail;
use test_support::silent;

// Returns why `count` bytes in a sample format are refused.
fn refusal(alloc: Global, form: SampleForm, count: usize) -> Result<Option<FileError>, AllocError> {
    let mut source = MemSource::new(vec![in alloc; 127u8; count]?);
    Ok(read_as(alloc, &mut source, form).err())
}

// Returns why `count` bytes are refused if the source returns 1,000 bytes a call and fails at the calls in `fails`.
fn refusal_with_faults(
    alloc: Global,
    count: usize,
    fails: Vec<u64>,
) -> Result<Option<FileError>, AllocError> {
    let mut source = FailSource::new(vec![in alloc; 0u8; count]?, fails, 1_000);
    Ok(read_recording(alloc, &mut source).err())
}

// Returns whether `sample` is the first sample of a recording that begins with `bytes`, followed by zeros.
fn begins_with(
    alloc: Global,
    form: SampleForm,
    bytes: &[u8],
    sample: Sample,
) -> Result<bool, AllocError> {
    let mut input = bytes.to_vec(alloc)?;
    input.resize(230_400, 0)?;
    let mut source = MemSource::new(input);
    Ok(match read_as(alloc, &mut source, form) {
        Ok(recording) => recording.get(0) == sample,
        Err(_) => false,
    })
}

// Returns whether exactly the first 57,600 samples are kept of `count` bytes. The bytes are 0 to 250, repeated.
fn keeps_the_first(alloc: Global, count: usize) -> Result<bool, AllocError> {
    let mut input = vec![in alloc; 0u8; count]?;
    for i in 0..input.len() {
        input[i] = (i % 251) as u8;
    }
    let mut source = MemSource::new(input);
    Ok(
        match read_front(alloc, &mut source, SampleForm::Cu8, 57_600) {
            Ok(front) => front.len() == 57_600 && front.get(57_599) == Sample { re: 225, im: 227 },
            Err(_) => false,
        },
    )
}

// Returns why `count` zero bytes are refused by `read_front`, which keeps the first 57,600 samples.
fn refusal_of_front(alloc: Global, count: usize) -> Result<Option<FileError>, AllocError> {
    let mut source = MemSource::new(vec![in alloc; 0u8; count]?);
    Ok(read_front(alloc, &mut source, SampleForm::Ci16, 57_600).err())
}

#[test]
fn the_first_samples_are_kept_of_a_recording_of_any_length(rt: HostRuntime) -> Result<(), Fail> {
    assert!(rt; keeps_the_first(rt.alloc(), 115_200)?);
    assert!(rt; keeps_the_first(rt.alloc(), 115_202)?);
    assert!(rt; keeps_the_first(rt.alloc(), 300_000)?);
    Ok(())
}

#[test]
fn what_stands_behind_the_kept_samples_is_refused_as_in_a_whole_recording(
    rt: HostRuntime,
) -> Result<(), Fail> {
    assert!(rt; refusal_of_front(rt.alloc(), 230_400)? == None);
    assert!(rt; refusal_of_front(rt.alloc(), 230_399)? == Some(FileError::Ragged));
    assert!(rt; refusal_of_front(rt.alloc(), 230_396)? == Some(FileError::TooShort));
    assert!(rt; refusal_of_front(rt.alloc(), 400_002)? == Some(FileError::Ragged));
    assert!(rt; refusal_of_front(rt.alloc(), 7_680_000)? == None);
    assert!(rt; refusal_of_front(rt.alloc(), 7_680_001)? == Some(FileError::TooLong));
    Ok(())
}

#[test]
fn a_sample_has_its_low_bytes_first_and_its_real_component_first(
    rt: HostRuntime,
) -> Result<(), Fail> {
    let sample = Sample { re: 258, im: -1 };
    assert!(rt;
        begins_with(
            rt.alloc(),
            SampleForm::Ci16,
            &[0x02, 0x01, 0xff, 0xff],
            sample
        )?
    );
    Ok(())
}

#[test]
fn bytes_stand_for_odd_numbers_from_minus_255_to_255(rt: HostRuntime) -> Result<(), Fail> {
    for (bytes, sample) in [
        ([0x00, 0xff], Sample { re: -255, im: 255 }),
        ([0x80, 0x7f], Sample { re: 1, im: -1 }),
    ] {
        assert!(rt; begins_with(rt.alloc(), SampleForm::Cu8, &bytes, sample)?);
    }
    Ok(())
}

// Returns whether the samples around sample 1,000 are 1 + 1j, and sample 1,000 is 1 + 255j.
fn has_a_greater_sample_at_1000(recording: &Recording) -> bool {
    recording.len() == 57_600
        && recording.get(999) == Sample { re: 1, im: 1 }
        && recording.get(1_000) == Sample { re: 1, im: 255 }
        && recording.get(1_001) == Sample { re: 1, im: 1 }
}

#[test]
fn samples_are_read_across_the_ends_of_pieces(rt: HostRuntime) -> Result<(), Fail> {
    let alloc = rt.alloc();
    let mut bytes = vec![in alloc; 0x80u8; 115_200]?;
    bytes[2_001] = 0xff;
    let mut source = FailSource::new(bytes, Vec::new(alloc), 1_001);
    let recording = read_cu8(alloc, &mut source).ok().ok_or("refused")?;
    assert!(rt; has_a_greater_sample_at_1000(&recording));
    Ok(())
}

#[test]
fn a_recording_has_57600_samples_or_more(rt: HostRuntime) -> Result<(), Fail> {
    let alloc = rt.alloc();
    assert!(rt; Recording::new(silent(alloc, 57_599)?).is_none());
    assert!(rt; Recording::new(silent(alloc, 57_600)?).is_some());
    Ok(())
}

#[test]
fn a_read_that_fails_is_reported(rt: HostRuntime) -> Result<(), Fail> {
    let alloc = rt.alloc();
    let fails = [2u64].to_vec(alloc)?;
    assert!(rt; refusal_with_faults(alloc, 230_400, fails)? == Some(FileError::ReadFault));
    assert!(rt; refusal_with_faults(alloc, 230_400, Vec::new(alloc))? == None);
    Ok(())
}

#[test]
fn an_input_of_another_length_is_refused(rt: HostRuntime) -> Result<(), Fail> {
    let alloc = rt.alloc();
    for (form, count, refused) in [
        (SampleForm::Ci16, 0, Some(FileError::TooShort)),
        (SampleForm::Ci16, 230_396, Some(FileError::TooShort)),
        (SampleForm::Ci16, 230_399, Some(FileError::Ragged)),
        (SampleForm::Ci16, 7_680_000, None),
        (SampleForm::Ci16, 7_680_001, Some(FileError::TooLong)),
        (SampleForm::Cu8, 115_198, Some(FileError::TooShort)),
        (SampleForm::Cu8, 115_201, Some(FileError::Ragged)),
        (SampleForm::Cu8, 115_200, None),
        (SampleForm::Cu8, 3_840_000, None),
        (SampleForm::Cu8, 3_840_001, Some(FileError::TooLong)),
    ] {
        assert!(rt; refusal(alloc, form, count)? == refused);
    }
    Ok(())
}

use cs_num::{Cpx, Sample};
use observe::symbol;
use sample_file::Recording;
use std::alloc::{AllocError, Global};
use std::test::Fail;
use test_support::silent;

// Returns the OFDM symbol at sample 1,000 of a recording that has `count` copies of `sample` from sample 1,000, and is
// silent elsewhere.
fn seen_of(alloc: Global, sample: Sample, count: usize) -> Result<Option<[Cpx; 72]>, AllocError> {
    let mut samples = silent(alloc, 57_600)?;
    for place in samples.iter_mut().skip(1000).take(count) {
        *place = sample;
    }
    Ok(Recording::new(samples).map(|recording| symbol(&recording, 1000)))
}

#[test]
fn one_sample_is_seen_alike_at_all_subcarriers(rt: HostRuntime) -> Result<(), Fail> {
    let seen = seen_of(rt.alloc(), Sample { re: 1, im: 0 }, 1)?.ok_or("too short")?;
    assert!(rt; seen == [Cpx { re: 4, im: 0 }; 72]);
    Ok(())
}

#[test]
fn a_constant_is_not_seen(rt: HostRuntime) -> Result<(), Fail> {
    let seen = seen_of(rt.alloc(), Sample { re: 1, im: 0 }, 128)?.ok_or("too short")?;
    assert!(rt; seen == [Cpx::ZERO; 72]);
    Ok(())
}

#[test]
fn a_symbol_begins_at_its_first_sample(rt: HostRuntime) -> Result<(), Fail> {
    let mut samples = silent(rt.alloc(), 57_600)?;
    samples[1000] = Sample { re: 1, im: 0 };
    let recording = Recording::new(samples).expect(&rt, "30 ms");
    assert!(rt; symbol(&recording, 1000)[71] == Cpx { re: 4, im: 0 });
    assert!(rt; symbol(&recording, 1001)[71] == Cpx::ZERO);
    Ok(())
}

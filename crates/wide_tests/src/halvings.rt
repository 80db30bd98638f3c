// Samples and checksums are from the reference implementation, `python/lte_reference/wide_rows.py`.
use crate::checksum::of_samples;
use crate::samples::drawn;
use cs_num::Sample;
use halving::halve;
use std::alloc::{AllocError, Global};
use std::test::Fail;

// Returns at most 4,096 samples, halved.
fn halved(alloc: Global, samples: &[Sample]) -> Result<Vec<Sample>, AllocError> {
    if samples.len() <= 4096 {
        halve(alloc, samples)
    } else {
        Ok(Vec::new(alloc))
    }
}

// The checksum of 4,096 drawn samples, halved once, twice, three and four times.
const HALVED: [u64; 4] = [2_191_954_506, 4_071_407_861, 1_169_882_518, 1_577_295_804];

#[test]
fn halved_samples_are_the_references(rt: HostRuntime) -> Result<(), Fail> {
    let mut samples = drawn(rt.alloc(), 9, 4096)?;
    for (i, expected) in HALVED.iter().enumerate() {
        samples = halved(rt.alloc(), &samples)?;
        assert!(rt; samples.len() == 2048 >> i, "halved {i} times before");
        assert!(rt;
            of_samples(&samples) == *expected,
            "halved {i} times before"
        );
    }
    Ok(())
}

// The first samples of the recording halved once: the filter's output next to the recording's edge.
#[test]
fn first_samples_are_the_references(rt: HostRuntime) -> Result<(), Fail> {
    let half = halved(rt.alloc(), &drawn(rt.alloc(), 9, 4096)?)?;
    assert!(rt; half.first() == Some(&Sample { re: -394, im: 325 }));
    assert!(rt; half.get(1) == Some(&Sample { re: 247, im: -57 }));
    Ok(())
}

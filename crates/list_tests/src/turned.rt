//! Frequency-shifted recordings. The expected sums are from the reference implementation,
//! `python/lte_reference/tune.py`.

use cs_num::Sample;
use frequency_offset::turned;
use sample_file::Recording;
use std::alloc::{AllocError, Global};
use std::test::Fail;
use test_support::has_sums;

// Returns 57,600 samples with small and large components.
fn samples(alloc: Global) -> Result<Vec<Sample>, AllocError> {
    let mut samples = Vec::with_capacity(alloc, 57_600)?;
    for i in 0..57_600_usize {
        samples.push(Sample {
            re: ((i * 7_919 % 65_536) as i32 - 32_768) as i16,
            im: (((i * 104_729 + 5) % 65_536) as i32 - 32_768) as i16,
        })?;
    }
    Ok(samples)
}

#[test]
fn samples_of_all_sizes_are_turned(rt: HostRuntime) -> Result<(), Fail> {
    let recording = Recording::new(samples(rt.alloc())?).expect(&rt, "30 ms");
    assert!(rt; has_sums(&recording, (65_981_934, 139_623_939)));
    let back = turned(rt.alloc(), &recording, -2_048)?;
    assert!(rt;
        back.get(2)
            == Sample {
                re: 19_919,
                im: -16_929
            }
    );
    assert!(rt; has_sums(&back, (127_847_600, 82_754_481)));
    let forth = turned(rt.alloc(), &recording, 77)?;
    assert!(rt;
        forth.get(57_599)
            == Sample {
                re: -1_929,
                im: 29_781
            }
    );
    assert!(rt; has_sums(&forth, (339_779_699, 206_157_122)));
    Ok(())
}

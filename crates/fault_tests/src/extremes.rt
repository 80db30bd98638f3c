//! Recordings whose samples have the largest magnitudes.

use lte_top::Status;
use run_support::{gives, output_of};
use sample_file::bytes_of;
use std::alloc::{AllocError, Global};
use std::test::Fail;
use test_support::{primary_grid, put_sample, send_often, silence, silent};

// Returns a recording of 57,600 equal samples.
fn constant(alloc: Global, re: i16, im: i16) -> Result<Vec<u8>, AllocError> {
    let mut bytes = silence(alloc, 230_400)?;
    for at in 0..57_600 {
        put_sample(&mut bytes, at, re, im);
    }
    Ok(bytes)
}

#[test]
fn a_constant_of_the_least_number_holds_no_hit_and_no_cell(rt: HostRuntime) -> Result<(), Fail> {
    for (word, text) in [("hits", "hits 0\n"), ("search", "cells 0\n")] {
        let bytes = constant(rt.alloc(), -32_768, -32_768)?;
        assert!(rt; gives(rt.alloc(), word, bytes, text)?, "{word}");
    }
    Ok(())
}

#[test]
fn a_constant_of_the_greatest_and_the_least_number_holds_no_cell(
    rt: HostRuntime,
) -> Result<(), Fail> {
    let bytes = constant(rt.alloc(), 32_767, -32_768)?;
    assert!(rt; gives(rt.alloc(), "search", bytes, "cells 0\n")?);
    Ok(())
}

// Returns a recording with the PSS of root 25, times 28, every 400 samples from sample 1,000.
fn many_loud_signals(alloc: Global) -> Result<Vec<u8>, AllocError> {
    let mut samples = silent(alloc, 57_600)?;
    send_often(&mut samples[..], &primary_grid(0));
    for sample in &mut samples {
        sample.re = sample.re.saturating_mul(28);
        sample.im = sample.im.saturating_mul(28);
    }
    bytes_of(alloc, &samples)
}

#[test]
fn many_loud_signals_are_hits_and_no_cell(rt: HostRuntime) -> Result<(), Fail> {
    let bytes = many_loud_signals(rt.alloc())?;
    let hits = output_of(rt.alloc(), "hits", bytes.clone()?)?;
    assert!(rt; hits.status == Status::Done && hits.written.starts_with(b"hits 46\n"));
    assert!(rt; gives(rt.alloc(), "search", bytes, "cells 0\n")?);
    Ok(())
}

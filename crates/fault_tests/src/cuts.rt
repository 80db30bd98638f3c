//! Truncated inputs.

use crate::inputs::plain_description;
use cell_tx::CellError;
use lte_top::Status;
use run_support::{Output, output_of};
use std::alloc::{AllocError, Global};
use std::test::Fail;
use test_support::certificate_of_zeros;

// Runs `check` on the first `len` bytes of the all-zero certificate.
fn check_of_front(alloc: Global, len: usize) -> Result<Output, AllocError> {
    let mut bytes = certificate_of_zeros(alloc)?;
    bytes.truncate(len);
    output_of(alloc, "check", bytes)
}

#[test]
fn a_certificate_that_is_cut_is_refused_at_its_end(rt: HostRuntime) -> Result<(), Fail> {
    let whole = certificate_of_zeros(rt.alloc())?.len();
    assert!(rt; whole > 10_500);
    for len in [3, 4, 243, 252, 10_500, whole - 1] {
        let output = check_of_front(rt.alloc(), len)?;
        let refusal = Status::BadCertificate(len as u64);
        assert!(rt; output.is_refused(refusal, 10), "{len} bytes");
    }
    for (len, text) in [(0, "certificates 0\n"), (whole, "certificates 1\n0 yes\n")] {
        let output = check_of_front(rt.alloc(), len)?;
        assert!(rt; output.is(Status::Done, text.as_bytes()), "{len} bytes");
    }
    Ok(())
}

#[test]
fn a_description_that_is_cut_is_of_no_form(rt: HostRuntime) -> Result<(), Fail> {
    let mut text = plain_description(rt.alloc())?;
    text.truncate(text.len() / 2);
    let output = output_of(rt.alloc(), "transmit", text)?;
    assert!(rt; output.is_refused(Status::BadCell(CellError::Form), 9));
    Ok(())
}

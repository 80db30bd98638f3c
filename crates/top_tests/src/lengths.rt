//! Recordings whose length is refused.

use crate::output_by;
use lte_top::{Program, Status};
use std::alloc::Global;
use std::process::Abort;
use std::test::Fail;
use test_support::silence;

/// Runs a command on recordings that are too short, ragged or too long, and checks that the command refuses each
/// without output.
pub(crate) fn refuse_lengths(
    rt: &impl Abort,
    alloc: Global,
    program: Program,
    line: &str,
) -> Result<(), Fail> {
    for (len, refusal, code) in [
        (0, Status::TooShort, 4),
        (230_396, Status::TooShort, 4),
        (230_399, Status::Ragged, 3),
        (230_401, Status::Ragged, 3),
        (7_680_001, Status::TooLong, 5),
    ] {
        let output = output_by(alloc, program, line, silence(alloc, len)?)?;
        assert!(rt; output.is_refused(refusal, code), "{line}: {len} bytes");
    }
    Ok(())
}

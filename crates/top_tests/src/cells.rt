//! Inputs shared by several commands' tests: zeros, changes of the plain cell's description, and signals.

ghost use Rattle.std.specs.Prelude.{◌≡◌, IfOk, length};

use crate::{gives, sent_by};
use std::alloc::{AllocError, Global};
use test_support::{PRIMARY, put_signal, silence};

/// Changed keys for a cell whose first frame begins before the recording.
pub(crate) const EARLY: &str = r#", "identity": 503, "sfn": 5, "offset": 19199, "gain": [0, 28]"#;

/// Changed keys for a cell with another phase, magnitude and MIB.
pub(crate) const TURNED: &str =
    r#", "identity": 1, "sfn": 4, "gain": [-19, -20], "resource": "oneSixth", "spare": 512"#;

/// Returns whether a command of `lte_cli` on zeros ends with `Done`, and writes exactly `text`.
pub(crate) fn zeros_give(alloc: Global, line: &str, text: &str) -> Result<bool, AllocError> {
    gives(alloc, line, silence(alloc, 230_400)?, text)
}

/// Returns whether a command of `lte_cli` on the plain cell's recording ends with `Done`, and writes exactly `text`.
pub(crate) fn plain_gives(alloc: Global, line: &str, text: &str) -> Result<bool, AllocError> {
    gives(alloc, line, sent_by(alloc, "")?.written, text)
}

/// Returns silence with one PSS, at sample 1,000.
pub(crate) fn lone_signal(alloc: Global) -> Result<Vec<u8>, AllocError>
    ensures { IfOk result (λ bytes. length bytes.items ≡ 230400) }
{
    let mut bytes = silence(alloc, 230_400)?;
    put_signal(&mut bytes, 1000, &PRIMARY);
    Ok(bytes)
}

/// Returns silence with a PSS every 400 samples, from sample 1,000.
pub(crate) fn many_signals(alloc: Global) -> Result<Vec<u8>, AllocError> {
    let mut bytes = silence(alloc, 230_400)?;
    for q in 0..141_usize {
        put_signal(&mut bytes, 1000 + 400 * q, &PRIMARY);
    }
    Ok(bytes)
}

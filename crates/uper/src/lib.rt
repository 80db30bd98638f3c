//! Unaligned PER (ITU-T X.691) for fields a few bits wide, highest bit first: a reader, a writer, and the grammars
//! that both follow.
//! Tests: the crates `low_tests` and `code_tests`.
#![tactic(auto)]

mod reader;
mod sheet;
mod writer;

pub use reader::Reader;
pub use sheet::Sheet;
pub use writer::Writer;

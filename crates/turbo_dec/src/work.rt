//! The working memory of a decoder.

ghost use Rattle.std.specs.Prelude.{◌≡◌, vec_len};

use std::alloc::{AllocError, Global};

/// A decoder's working memory: a row of minimum costs to the 8 states for each index of a word of up to 1,024 bits, and
/// one for its end. Its contents have no meaning between two calls.
#[derive(Drop)]
pub struct Work {
    pub(crate) rows: Vec<[u32; 8]>,
    ghost size: { vec_len rows ≡ 1025 },
}

impl Work {
    /// Allocates the working memory. Fails only if the allocation fails.
    pub fn new(alloc: Global) -> Result<Work, AllocError> {
        let rows = vec![in alloc; [0; 8]; 1025]?;
        Ok(Work { rows })
    }
}

//! The working memory of reading SIB1 from wide recordings.

use sib1_reader::Decoders;
use std::alloc::{AllocError, Global};
use tones::Tones;

/// The table of tones, and working memory for the decoders. The latter has no meaning between two calls.
#[derive(Drop)]
pub struct WideWork {
    pub(crate) tones: Tones,
    pub(crate) decoders: Decoders,
}

impl WideWork {
    /// Allocates everything up front. Fails only if an allocation fails.
    pub fn new(alloc: Global) -> Result<WideWork, AllocError> {
        let tones = Tones::new(alloc)?;
        let decoders = Decoders::new(alloc)?;
        Ok(WideWork { tones, decoders })
    }
}

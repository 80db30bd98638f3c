//! Working memory for the decoders.

use std::alloc::{AllocError, Global};
use tailbite::Trellis;
use turbo_dec::Work;

/// Working memory for the tail-biting and the turbo decoder. Its contents have no meaning between two calls.
#[derive(Drop)]
pub struct Decoders {
    /// The working memory of the tail-biting decoder.
    pub trellis: Trellis,
    /// The working memory of the turbo decoder.
    pub turbo: Work,
}

impl Decoders {
    /// Allocates everything up front. Fails only if an allocation fails.
    pub fn new(alloc: Global) -> Result<Decoders, AllocError> {
        let trellis = Trellis::new(alloc)?;
        let turbo = Work::new(alloc)?;
        Ok(Decoders { trellis, turbo })
    }
}

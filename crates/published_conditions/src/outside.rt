//! A caller's own source and sink, which implement only the required members of the two traits.

ghost use Rattle.std.specs.Prelude.{[], None, Some};

use cs_outside::{Failed, Sink, Source};

/// An empty source.
#[derive(Drop)]
pub struct NoInput;

impl Source for NoInput {
    ghost state = { λ s. record { left = Some []; faults = 0 } };

    /// Returns 0, the end of the input.
    fn read(&mut self, _into: &mut [u8]) -> Result<usize, Failed> {
        Ok(0)
    }
}

/// A sink that accepts every byte and keeps none.
#[derive(Drop)]
pub struct Discarded;

impl Sink for Discarded {
    ghost state = { λ s. record { taken = None; room = None; faults = 0 } };

    /// Accepts all of `piece`.
    fn write(&mut self, piece: &[u8]) -> Result<usize, Failed> {
        Ok(piece.len())
    }
}

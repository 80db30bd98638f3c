//! The start of a recording relative to the cell's frames.

ghost use Rattle.std.specs.Prelude.{◌≡◌, ◌+◌, ◌^◌, ◌<◌, IsSome, IfSome, ◌↔◌};
ghost use Rattle.lte_types.specs.Numerology.{frame_length};
ghost use Rattle.lte_types.specs.Timing.{IsOffset, start_of, offset_of, number_of, number_before};
ghost use Rattle.lte_types.specs.Timing.{number_at_start as number_at_start_of, TimingsComeBack, StartsComeBack};

use crate::{FRAME_LENGTH, Sfn};

// Samples per frame.
const FRAME: u32 = FRAME_LENGTH as u32;

/// The position at which a recording begins in a cell's frame sequence. (own)
#[derive(Clone, Copy, Debug, PartialEq, Eq)]
pub struct Timing {
    /// The number of the frame in which the recording begins.
    pub sfn: Sfn,
    /// The sample of frame `sfn` at which the recording begins, 0 to 19,199.
    pub offset: u32,
    pub ghost offset_range: { IsOffset offset },
}

impl Timing {
    /// Creates a timing, or returns `None` if `offset` is above 19,199.
    pub fn new(sfn: Sfn, offset: u32) -> Option<Timing>
        ensures valid { IsSome result ↔ IsOffset offset }
        ensures sfn { IfSome result (λ timing. timing.sfn ≡ sfn) }
        ensures offset { IfSome result (λ timing. timing.offset ≡ offset) }
    {
        if offset < FRAME {
            Some(Timing { sfn, offset })
        } else {
            None
        }
    }

    /// Returns the timing of a recording in which frame `sfn` begins at sample `start`, below 19,200.
    pub fn before(start: u32, sfn: Sfn) -> Timing
        requires { start < frame_length }
        ensures sfn { result.sfn ≡ number_before start sfn }
        ensures offset { result.offset ≡ offset_of start }
    {
        let offset = (FRAME - start) % FRAME;
        if start == 0 {
            Timing { sfn, offset }
        } else {
            let sfn = Sfn::modulo(sfn.value() as u64 + 1023);
            Timing { sfn, offset }
        }
    }

    /// Returns the first sample of the recording at which a frame begins, below 19,200.
    pub fn start(self) -> u32
        ensures value { result ≡ start_of self.offset }
        ensures inside { result < frame_length }
    {
        (FRAME - self.offset) % FRAME
    }

    /// Returns the number of the first frame that begins in the recording.
    pub fn number_at_start(self) -> Sfn
        ensures { result ≡ number_at_start_of self.sfn self.offset }
    {
        if self.offset == 0 {
            self.sfn
        } else {
            Sfn::modulo(self.sfn.value() as u64 + 1)
        }
    }

    /// Returns the number of the frame that contains sample `i` of the recording. `i + offset` is below 2^64.
    pub fn number_at(self, i: u64) -> Sfn
        requires { i + self.offset < 2 ^ 64 }
        ensures { result ≡ number_of self.sfn (i + self.offset) }
    {
        Sfn::modulo(self.sfn.value() as u64 + (i + self.offset as u64) / FRAME_LENGTH as u64)
    }
}

/// A law: `before` is the inverse of `start` and `number_at_start`.
pub fn timings_come_back()
    ensures timings { TimingsComeBack }
    ensures starts { StartsComeBack }
{}

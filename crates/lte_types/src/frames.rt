//! Consecutive frames of a cell.

ghost use Rattle.std.specs.Prelude.{◌≡◌, IsSome, IfSome, ◌↔◌};
ghost use Rattle.lte_types.specs.Frames.{Frames as FramesValue, AreFrames, first_number};

use crate::Sfn;
use std::marker::Model;

/// Consecutive frames of a cell in one period of four, in which the MIB does not change (TS 36.331 section 5.2.1.2): 1
/// to 4 of the cell's first eight. In contracts the value is the frame count, the first frame, and the first frame's
/// position in the period. (own)
#[derive(Clone, Copy, Debug, PartialEq, Eq)]
pub struct Frames {
    count: u8,
    first: u8,
    phase: u8,
}

impl Model for Frames {
    ghost Value = { FramesValue };

    ghost view = { λ f. record { count = f.count; first = f.first; phase = f.phase } };

    ghost invariant = { λ f. AreFrames (record { count = f.count; first = f.first; phase = f.phase }) };

    ghost inverse = { λ f. record { count = f.count; first = f.first; phase = f.phase } };
}

impl Frames {
    /// Selects `count` frames from frame `first`, whose position in the period is `phase`. Returns `None` for no
    /// frames, frames of two periods, or frames beyond the first eight.
    pub fn new(count: u8, first: u8, phase: u8) -> Option<Self>
        ensures valid { IsSome result ↔ AreFrames (record { count = count; first = first; phase = phase }) }
        ensures value { IfSome result (λ frames. frames ≡ record { count = count; first = first; phase = phase }) }
    {
        if 1 <= count && phase as u16 + count as u16 <= 4 && first as u16 + count as u16 <= 8 {
            Some(Frames {
                count,
                first,
                phase,
            })
        } else {
            None
        }
    }

    /// Returns the number of frames, 1 to 4.
    pub fn count(self) -> u8
        ensures value { result ≡ self.count }
        ensures are { AreFrames self }
    {
        self.count
    }

    /// Returns the first frame, 0 to 7, counted from the cell's first frame.
    pub fn first(self) -> u8
        ensures value { result ≡ self.first }
        ensures are { AreFrames self }
    {
        self.first
    }

    /// Returns the first frame's position in its period, 0 to 3: its frame number modulo 4.
    pub fn phase(self) -> u8
        ensures value { result ≡ self.phase }
        ensures are { AreFrames self }
    {
        self.phase
    }

    /// Returns the frame number of the cell's first frame. `upper` is the upper eight bits of the frame number in the
    /// MIB.
    pub fn first_number(self, upper: u8) -> Sfn
        ensures { result ≡ first_number upper self }
    {
        let before = 1024 - self.first as u64;
        Sfn::modulo(4 * upper as u64 + self.phase as u64 + before)
    }
}

//! Frames, slots and OFDM symbols in samples; the useful part of a symbol has 128 (TS 36.211 sections 4.1 and 6.12).

ghost use Rattle.std.specs.Prelude.{◌≡◌, ◌^◌, ◌<◌};
ghost use Rattle.lte_types.specs.Numerology.{frame_length, half_frame_length, slot_length, useful_length, cycle_length, subcarriers};
ghost use Rattle.lte_types.specs.Numerology.{least_samples, most_samples, normal, extended};
ghost use Rattle.lte_types.specs.Numerology.{symbol_step, symbol_of as symbol_in, useful_start as useful_start_of};
ghost use Rattle.lte_types.specs.Numerology.{symbols_of_slot, is_extended};

/// Samples per frame.
pub const FRAME_LENGTH: usize = 19_200;

/// Samples per half-frame.
pub const HALF_FRAME_LENGTH: usize = 9_600;

/// Samples per slot. A frame has 20 slots.
pub const SLOT_LENGTH: usize = 960;

/// Samples in the useful part of a symbol.
pub const USEFUL_LENGTH: usize = 128;

/// The subcarriers of six resource blocks.
pub const SUBCARRIERS: usize = 72;

/// Samples in 1,024 frames, after which frame numbers repeat.
pub const CYCLE_LENGTH: usize = 19_660_800;

/// The minimum length of a recording, in samples: 30 ms. (own)
pub const LEAST_SAMPLES: usize = 57_600;

/// The maximum length of a recording, in samples: one second. (own)
pub const MOST_SAMPLES: usize = 1_920_000;

/// A cyclic prefix: its length in samples in the first symbol of a slot, and in each other symbol.
#[derive(Clone, Copy, Debug, PartialEq, Eq)]
pub struct Prefix {
    pub first: u16,
    pub other: u16,
}

impl Prefix {
    /// The normal cyclic prefix.
    pub const NORMAL: Prefix = Prefix {
        first: 10,
        other: 9,
    };

    /// The extended cyclic prefix.
    pub const EXTENDED: Prefix = Prefix {
        first: 32,
        other: 32,
    };

    /// Returns the distance, in samples, between the useful parts of consecutive symbols in a slot.
    pub fn step(self) -> usize
        ensures { result ≡ symbol_step self }
    {
        USEFUL_LENGTH + self.other as usize
    }

    /// Returns the number of symbols in a slot: 7 with the normal prefix, 6 with the extended one.
    pub fn symbols(self) -> usize
        ensures { result ≡ symbols_of_slot self }
    {
        SLOT_LENGTH / self.step()
    }

    /// Returns whether the prefix is the extended one.
    pub fn is_extended(self) -> bool
        ensures { result ≡ is_extended self }
    {
        self.first == 32 && self.other == 32
    }

    /// Returns the sample at which the useful part of `symbol` in `slot` begins, for a frame that begins at sample
    /// `frame`.
    pub fn useful_start(self, frame: usize, slot: usize, symbol: usize) -> usize
        requires { useful_start_of self frame slot symbol < 2 ^ 64 }
        ensures { result ≡ useful_start_of self frame slot symbol }
    {
        frame + SLOT_LENGTH * slot + self.first as usize + self.step() * symbol
    }

    /// Returns the index of the symbol that contains sample `i` of a slot, as part of its prefix or its useful part.
    pub fn symbol_of(self, i: usize) -> usize
        ensures { result ≡ symbol_in self i }
    {
        i.saturating_sub(self.first.saturating_sub(self.other) as usize) / self.step()
    }
}

/// A law: the public constants equal the definitions in `specs/`.
pub fn lengths_are()
    ensures frame { FRAME_LENGTH ≡ frame_length }
    ensures half_frame { HALF_FRAME_LENGTH ≡ half_frame_length }
    ensures slot { SLOT_LENGTH ≡ slot_length }
    ensures useful { USEFUL_LENGTH ≡ useful_length }
    ensures subcarriers { SUBCARRIERS ≡ subcarriers }
    ensures cycle { CYCLE_LENGTH ≡ cycle_length }
    ensures least { LEAST_SAMPLES ≡ least_samples }
    ensures most { MOST_SAMPLES ≡ most_samples }
    ensures normal { Prefix.NORMAL ≡ normal }
    ensures extended { Prefix.EXTENDED ≡ extended }
{}

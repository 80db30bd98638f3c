//! The result of cancelling a cell.

ghost use Rattle.std.specs.Prelude.{◌≡◌};
ghost use Rattle.cs_num.specs.Gain.{IsGain};
ghost use Rattle.cell_plan.specs.Pair.{gain_of};

use cell_plan::gain_of_pair;
use cs_num::Gain;
use sample_file::Recording;

/// A recording from which a cell has been cancelled. (own)
#[derive(Drop)]
pub struct Subtracted {
    /// The gain that was used, real part first. Its squared magnitude is from 1 to 784.
    pub gain: (i16, i16),
    /// The largest component magnitude of the residual, before the residual is clamped to 16 bits.
    pub greatest: u32,
    /// The power of the recording: the sum of its samples' squared magnitudes.
    pub before: u128,
    /// The power of the residual: the sum of its samples' squared magnitudes.
    pub after: u128,
    /// The residual, with each component clamped to 16 bits.
    pub residue: Recording,
    pub ghost gain_range: { IsGain (gain_of gain) },
}

impl Subtracted {
    /// Returns the gain as a complex number.
    pub fn gain(&self) -> Gain
        ensures { result ≡ gain_of self.now.gain }
    {
        gain_of_pair(self.gain)
    }
}

//! A transmission from one antenna port: a cell and its frame number, offset, sample count and gain.

ghost use Rattle.std.specs.Prelude.{◌≡◌};
ghost use Rattle.cs_num.specs.Gain.{IsGain};
ghost use Rattle.lte_types.specs.Timing.{IsOffset};
ghost use Rattle.cell_plan.specs.Gains.{IsCount};
ghost use Rattle.cell_plan.specs.Pair.{gain_of};

use crate::{Cell, Emission, gain_of_pair, pair_of};
use cs_num::Gain;
use lte_types::{Sfn, Timing};

/// A cell's transmission from one antenna port: `samples` samples from sample `offset` of the frame numbered `sfn`,
/// each times the gain. (own)
#[derive(Debug, Drop)]
pub struct Transmission {
    /// The cell that is sent.
    pub cell: Cell,
    /// The first frame number, 0 to 1023.
    pub sfn: Sfn,
    /// The index, within the first frame, of the first sample sent: 0 to 19,199.
    pub offset: u32,
    /// The number of samples, 57,600 to 1,920,000.
    pub samples: u32,
    /// The gain, real part first. The square of its magnitude is from 1 to 784.
    pub gain: (i16, i16),
    pub ghost offset_range: { IsOffset offset },
    pub ghost samples_range: { IsCount samples },
    pub ghost gain_range: { IsGain (gain_of gain) },
}

impl Transmission {
    ghost use Rattle.std.specs.Prelude.{None};
    ghost use Rattle.cs_num.specs.Complex.{value_at};
    ghost use Rattle.lte_types.specs.declared.carrier.Carrier.TheVariants.{OnePort};

    /// Returns the transmission of `emission`, which must have one antenna port, the normal cyclic prefix and no load.
    pub fn of(emission: Emission) -> Transmission
        requires carrier { emission.carrier ≡ OnePort }
        requires load { emission.load ≡ None }
        ensures cell { result.cell ≡ emission.cell }
        ensures sfn { result.sfn ≡ emission.timing.sfn }
        ensures offset { result.offset ≡ emission.timing.offset }
        ensures samples { result.samples ≡ emission.samples }
        ensures gain { gain_of result.gain ≡ value_at emission.gains 0 }
    {
        Transmission {
            gain: pair_of(emission.gains[0]),
            sfn: emission.timing.sfn,
            offset: emission.timing.offset,
            samples: emission.samples,
            cell: emission.cell,
        }
    }

    /// Returns the number of the first frame, and the index, within this frame, of the first sample sent.
    pub fn timing(&self) -> Timing
        ensures sfn { result.sfn ≡ self.now.sfn }
        ensures offset { result.offset ≡ self.now.offset }
    {
        Timing {
            sfn: self.sfn,
            offset: self.offset,
        }
    }

    /// Returns the gain as a complex number.
    pub fn gain(&self) -> Gain
        ensures { result ≡ gain_of self.now.gain }
    {
        gain_of_pair(self.gain)
    }
}

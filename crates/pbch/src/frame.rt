//! The PBCH in one frame.

ghost use Rattle.std.specs.Prelude.{◌≡◌, List, ℤ, ◌≤◌, length};
ghost use Rattle.finite.specs.Sizes.{AllWithin};

use arrayvec::ArrayVec;
use std::marker::Model;

/// The PBCH soft values in one frame, not descrambled: 480 with the normal cyclic prefix, 432 with the extended one (TS
/// 36.211 section 6.6), each from -127 to 127. Contracts see them as a list.
#[derive(Default, Drop)]
pub struct Received {
    values: ArrayVec<i16, 480>,
}

impl Model for Received {
    ghost Value = { List ℤ };

    ghost view = { λ r. r.values.items };

    ghost invariant = { λ r. AllWithin 127 r.values.items };
}

impl Received {
    /// Returns the frame with the soft values `values`, at most 480, each from -127 to 127.
    pub fn new(values: &[i16]) -> Received
        requires few { length values.now ≤ 480 }
        requires magnitudes { AllWithin 127 values.now }
        ensures { result ≡ values.now }
    {
        let mut kept = ArrayVec::new();
        let _fits = kept.try_extend_from_slice(values);
        Received { values: kept }
    }

    /// Returns the soft values, in the order of their resource elements.
    pub fn slice(&self) -> &[i16]
        ensures values { result.now ≡ self.now }
        ensures few { length self.now ≤ 480 }
        ensures magnitudes { AllWithin 127 self.now }
    {
        self.values.as_slice()
    }

    /// Returns the number of soft values in the frame, at most 480.
    pub fn len(&self) -> usize
        ensures value { result ≡ length self.now }
        ensures few { result ≤ 480 }
    {
        self.values.len()
    }
}

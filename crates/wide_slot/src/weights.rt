//! Smoothing of pilots.

ghost use Rattle.std.specs.Prelude.{◌≡◌};
ghost use Rattle.wide_slot.specs.Lines.{smoothing, total_weight, AreWeights};

/// The weights by which a pilot is averaged with its two neighbours: `outer`, `middle`, `outer`. Users require that
/// they add up to 1 to 8. (own)
#[derive(Clone, Copy, Debug, PartialEq, Eq)]
pub struct Weights {
    pub outer: u8,
    pub middle: u8,
}

impl Weights {
    /// A pilot counts twice, each neighbour once.
    pub const SMOOTHING: Weights = Weights {
        outer: 1,
        middle: 2,
    };

    // Returns the sum of the weights, 1 to 8.
    pub(crate) fn total(self) -> u8
        requires { AreWeights self }
        ensures value { result ≡ total_weight self }
    {
        2 * self.outer + self.middle
    }
}

/// A law: `Weights::SMOOTHING` has the weights of the definition.
pub fn smoothing_is()
    ensures { Weights.SMOOTHING ≡ smoothing }
{}

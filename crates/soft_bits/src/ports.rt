//! Transmission schemes with the normal prefix: the antenna ports that send each pair of QPSK symbols.

ghost use Rattle.std.specs.Prelude.{◌≡◌, ◌<◌, ◌≤◌};
ghost use Rattle.lte_types.specs.Carrier.{prefix_of, ports_of};
ghost use Rattle.lte_types.specs.Numerology.{normal};
ghost use Rattle.soft_bits.specs.Pairs.{Pairing, alone};

use lte_types::Carrier;

/// A transmission scheme with the normal prefix, and the ports that send each pair of QPSK symbols (TS 36.211 section
/// 6.3.4.3).
pub trait Ports {
    ghost pairing: { Pairing };

    /// Returns the cyclic prefix and port count.
    fn carrier() -> Carrier
        ensures value { result ≡ pairing.carrier }
        ensures normal { prefix_of pairing.carrier ≡ normal };

    /// Returns the factor by which each port's channel is multiplied: 3, or 6 if some port has 12 pilots.
    fn scale() -> u8
        ensures value { result ≡ pairing.scale }
        ensures few { result ≤ 6 };

    /// Returns the two ports that send pair `i`; with one port, that port twice.
    fn pair(i: usize) -> (u8, u8)
        ensures lower { result.0 ≡ pairing.lower i }
        ensures upper { result.1 ≡ pairing.upper i }
        ensures lower_inside { result.0 < ports_of pairing.carrier }
        ensures upper_inside { result.1 < ports_of pairing.carrier };
}

/// The transmission scheme with one antenna port.
pub struct Single;

impl Ports for Single {
    ghost pairing = { alone };

    fn carrier() -> Carrier {
        Carrier::OnePort
    }

    fn scale() -> u8 {
        3
    }

    fn pair(i: usize) -> (u8, u8) {
        (0, 0)
    }
}

//! Reference signal parameters that depend on antenna port and cyclic prefix.

ghost use Rattle.std.specs.Prelude.{◌≡◌, ◌<◌};
ghost use Rattle.crs.specs.Reference.{pattern_of};

use lte_types::Carrier;

/// Reference signal parameters for an antenna port and a cyclic prefix (TS 36.211 section 6.10.1).
#[derive(Clone, Copy, Debug, PartialEq, Eq)]
pub struct Pattern {
    /// The second symbol of a slot with reference signals: 4, or 3 with the extended prefix.
    pub later: u8,
    /// The standard's v in symbol 0: 0 for port 0 and 3 for port 1. In the later symbol v is 3 minus `shift`.
    pub shift: u8,
    /// The standard's N_CP: 1 with the normal prefix, 0 with the extended one.
    pub prefix: u8,
}

impl Pattern {
    /// Port 0 with the normal prefix.
    pub const FIRST_PORT: Pattern = Pattern {
        later: 4,
        shift: 0,
        prefix: 1,
    };

    /// Port 0 with the extended prefix.
    pub const LONG_PREFIX: Pattern = Pattern {
        later: 3,
        shift: 0,
        prefix: 0,
    };

    /// Returns the pattern for port 0 or 1 under `carrier`. Ports 2 and 3 have none; see `first_of_upper`.
    pub fn of(carrier: Carrier, port: u8) -> Pattern
        requires { port < 2 }
        ensures { result ≡ pattern_of carrier port }
    {
        let prefix = carrier.prefix();
        Pattern {
            later: prefix.symbols() as u8 - 3,
            shift: 3 * port,
            prefix: if prefix.is_extended() { 0 } else { 1 },
        }
    }
}

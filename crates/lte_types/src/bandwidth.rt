//! Downlink bandwidth.

ghost use Rattle.std.specs.Prelude.{◌≡◌, ◌≤◌, ◌<◌, Some, IfSome, MatchOption};

use std::fmt;

/// The downlink bandwidth in resource blocks (TS 36.331 section 6.2.2).
#[derive(Clone, Copy, Debug, PartialEq, Eq)]
pub enum Bandwidth {
    N6,
    N15,
    N25,
    N50,
    N75,
    N100,
}

impl Bandwidth {
    ghost use Rattle.lte_types.specs.Codes.{bandwidth, bandwidth_code, bandwidth_word};

    /// Returns the bandwidth with the dl-Bandwidth code `code`, or `None` if `code` is above 5.
    pub fn from_code(code: u8) -> Option<Self>
        ensures value { MatchOption result (5 < code) (λ width. (code ≤ 5) × (width ≡ bandwidth code)) }
        ensures back { IfSome result (λ width. bandwidth_code width ≡ code) }
    {
        match code {
            0 => Some(Bandwidth::N6),
            1 => Some(Bandwidth::N15),
            2 => Some(Bandwidth::N25),
            3 => Some(Bandwidth::N50),
            4 => Some(Bandwidth::N75),
            5 => Some(Bandwidth::N100),
            _ => None,
        }
    }

    /// Returns the dl-Bandwidth code, 0 to 5.
    pub fn code(self) -> u8
        ensures value { result ≡ bandwidth_code self }
        ensures bound { result ≤ 5 }
        ensures back { bandwidth result ≡ self }
    {
        match self {
            Bandwidth::N6 => 0,
            Bandwidth::N15 => 1,
            Bandwidth::N25 => 2,
            Bandwidth::N50 => 3,
            Bandwidth::N75 => 4,
            Bandwidth::N100 => 5,
        }
    }

    /// Returns the bandwidth's name in the standard.
    pub fn name(self) -> &'static str
        ensures { result.now ≡ bandwidth_word self }
    {
        match self {
            Bandwidth::N6 => "n6",
            Bandwidth::N15 => "n15",
            Bandwidth::N25 => "n25",
            Bandwidth::N50 => "n50",
            Bandwidth::N75 => "n75",
            Bandwidth::N100 => "n100",
        }
    }
}

impl fmt::Display for Bandwidth {
    ghost use Rattle.lte_types.specs.Codes.{bandwidth_word};

    ghost output = { λ width. Some (bandwidth_word width) };

    fn fmt<W: fmt::Write>(&self, f: &mut fmt::Formatter<W>) -> fmt::Result {
        f.write_str(self.name())
    }
}

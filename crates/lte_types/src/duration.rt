//! PHICH duration.

ghost use Rattle.std.specs.Prelude.{◌≡◌, ◌≤◌, ◌<◌, Some, IfSome, MatchOption};

use std::fmt;

/// phich-Duration (TS 36.331 section 6.3.2, PHICH-Config).
#[derive(Clone, Copy, Debug, PartialEq, Eq)]
pub enum Duration {
    Normal,
    Extended,
}

impl Duration {
    ghost use Rattle.lte_types.specs.Codes.{duration, duration_code, duration_word, duration_named};

    /// Returns the PHICH duration with the phich-Duration code `code`, or `None` if `code` is above 1.
    pub fn from_code(code: u8) -> Option<Self>
        ensures value { MatchOption result (1 < code) (λ d. (code ≤ 1) × (d ≡ duration code)) }
        ensures back { IfSome result (λ d. duration_code d ≡ code) }
    {
        match code {
            0 => Some(Duration::Normal),
            1 => Some(Duration::Extended),
            _ => None,
        }
    }

    /// Returns the phich-Duration code, 0 or 1.
    pub fn code(self) -> u8
        ensures value { result ≡ duration_code self }
        ensures bound { result ≤ 1 }
        ensures back { duration result ≡ self }
    {
        match self {
            Duration::Normal => 0,
            Duration::Extended => 1,
        }
    }

    /// Returns the PHICH duration with the standard's name `name`, or `None` if there is none.
    pub fn from_name(name: &str) -> Option<Self>
        ensures value { result ≡ duration_named name.now }
        ensures back { IfSome result (λ d. duration_word d ≡ name.now) }
    {
        match name {
            "normal" => Some(Duration::Normal),
            "extended" => Some(Duration::Extended),
            _ => None,
        }
    }

    /// Returns the duration's name in the standard.
    pub fn name(self) -> &'static str
        ensures value { result.now ≡ duration_word self }
        ensures back { duration_named result.now ≡ Some self }
    {
        match self {
            Duration::Normal => "normal",
            Duration::Extended => "extended",
        }
    }
}

impl fmt::Display for Duration {
    ghost use Rattle.lte_types.specs.Codes.{duration_word};

    ghost output = { λ d. Some (duration_word d) };

    fn fmt<W: fmt::Write>(&self, f: &mut fmt::Formatter<W>) -> fmt::Result {
        f.write_str(self.name())
    }
}

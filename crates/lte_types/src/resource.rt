//! PHICH resources.

ghost use Rattle.std.specs.Prelude.{◌≡◌, ◌≤◌, ◌<◌, Some, IfSome, MatchOption};

use std::fmt;

/// phich-Resource, Ng (TS 36.331 section 6.3.2, PHICH-Config).
#[derive(Clone, Copy, Debug, PartialEq, Eq)]
pub enum Resource {
    OneSixth,
    Half,
    One,
    Two,
}

impl Resource {
    ghost use Rattle.lte_types.specs.Codes.{resource, resource_code, resource_word, resource_named};

    /// Returns the PHICH resource with the phich-Resource code `code`, or `None` if `code` is above 3.
    pub fn from_code(code: u8) -> Option<Self>
        ensures value { MatchOption result (3 < code) (λ r. (code ≤ 3) × (r ≡ resource code)) }
        ensures back { IfSome result (λ r. resource_code r ≡ code) }
    {
        match code {
            0 => Some(Resource::OneSixth),
            1 => Some(Resource::Half),
            2 => Some(Resource::One),
            3 => Some(Resource::Two),
            _ => None,
        }
    }

    /// Returns the phich-Resource code, 0 to 3.
    pub fn code(self) -> u8
        ensures value { result ≡ resource_code self }
        ensures bound { result ≤ 3 }
        ensures back { resource result ≡ self }
    {
        match self {
            Resource::OneSixth => 0,
            Resource::Half => 1,
            Resource::One => 2,
            Resource::Two => 3,
        }
    }

    /// Returns the PHICH resource with the standard's name `name`, or `None` if there is none.
    pub fn from_name(name: &str) -> Option<Self>
        ensures value { result ≡ resource_named name.now }
        ensures back { IfSome result (λ r. resource_word r ≡ name.now) }
    {
        match name {
            "oneSixth" => Some(Resource::OneSixth),
            "half" => Some(Resource::Half),
            "one" => Some(Resource::One),
            "two" => Some(Resource::Two),
            _ => None,
        }
    }

    /// Returns the resource's name in the standard.
    pub fn name(self) -> &'static str
        ensures value { result.now ≡ resource_word self }
        ensures back { resource_named result.now ≡ Some self }
    {
        match self {
            Resource::OneSixth => "oneSixth",
            Resource::Half => "half",
            Resource::One => "one",
            Resource::Two => "two",
        }
    }
}

impl fmt::Display for Resource {
    ghost use Rattle.lte_types.specs.Codes.{resource_word};

    ghost output = { λ r. Some (resource_word r) };

    fn fmt<W: fmt::Write>(&self, f: &mut fmt::Formatter<W>) -> fmt::Result {
        f.write_str(self.name())
    }
}

//! The named numbers in an entry's evidence.

ghost use Rattle.std.specs.Prelude.{◌≡◌, ℕ, List};
ghost use Rattle.report_parts.specs.Numbers.{numbers_in as numbers_of, place_in as place_of};

use lte_types::Evidence;
use std::marker::Model;

/// A number with its name in reports. Contracts see it as a pair. (own)
#[derive(Drop)]
pub struct Named {
    name: &'static str,
    value: u64,
}

impl Model for Named {
    ghost Value = { List ℕ × ℕ };

    ghost view = { λ n. (n.name.now, n.value) };
}

impl Named {
    /// Creates a number named `name`.
    pub fn new(name: &'static str, value: u64) -> Named
        ensures { result ≡ (name.now, value) }
    {
        Named { name, value }
    }

    /// Returns the number's name in reports.
    pub fn name(&self) -> &'static str
        ensures { result.now ≡ self.now.0 }
    {
        self.name
    }

    /// Returns the number without its name.
    pub fn value(&self) -> u64
        ensures { result ≡ self.now.1 }
    {
        self.value
    }
}

/// Returns the numbers that identify the entry: cell identity, frame start and frame number. (own)
pub fn place_in(evidence: &Evidence) -> [Named; 3]
    ensures { result ≡ place_of evidence.now }
{
    [
        Named::new("identity", evidence.id.value() as u64),
        Named::new("at", evidence.start as u64),
        Named::new("sfn", evidence.sfn.value() as u64),
    ]
}

/// Returns the numbers that support the entry, in the order of the entry's line in `evidence`. (own)
pub fn numbers_in(evidence: &Evidence) -> [Named; 9]
    ensures { result ≡ numbers_of evidence.now }
{
    [
        Named::new("t", evidence.t as u64),
        Named::new("peak", evidence.peak as u64),
        Named::new("cost", evidence.cost as u64),
        Named::new("total", evidence.total as u64),
        Named::new("frames", evidence.frames as u64),
        Named::new("frame", evidence.frame as u64),
        Named::new("phase", evidence.phase as u64),
        Named::new("power", evidence.power),
        Named::new("noise", evidence.noise),
    ]
}

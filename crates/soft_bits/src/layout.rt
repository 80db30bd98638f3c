//! The layout of an antenna port's pilots in a slot, in one form for all ports.

ghost use Rattle.std.specs.Prelude.{◌≡◌, ◌<◌, ◌≤◌};
ghost use Rattle.crs.specs.Reference.{IsPattern};
ghost use Rattle.lte_types.specs.Carrier.{ports_of};
ghost use Rattle.soft_bits.specs.Estimate.{place_by};
ghost use Rattle.soft_bits.specs.Kept.{slot_of};
ghost use Rattle.soft_bits.specs.Layout.{IsLayout, laid_out, symbol_with};
ghost use Rattle.soft_bits.specs.Lines.{line_of, lower_line, upper_line};
ghost use Rattle.lte_types.specs.Numerology.{subcarriers};

use crate::Seen;
use crs::{Pattern, first_of_pattern, first_of_upper};

/// The layout of an antenna port's pilots in a slot, and the pattern of their values. Pilot `i`, 0 to `last`, is at
/// subcarrier `first + step * i`. A pilot at subcarrier k is in the symbol `early` if k modulo 6 is `residue`,
/// otherwise in `late`; its value is number k / 6 in that symbol's reference sequence.
#[derive(Clone, Copy)]
pub(crate) struct Layout {
    pub pattern: Pattern,
    pub step: u8,
    pub last: u8,
    pub first: u8,
    pub residue: u8,
    pub early: u8,
    pub late: u8,
}

impl Layout {
    ghost use Rattle.std.specs.Prelude.{◌≡◌, ◌<◌, ◌≤◌};
    ghost use Rattle.soft_bits.specs.Estimate.{place_by};
    ghost use Rattle.soft_bits.specs.Layout.{IsLayout, symbol_with};

    /// Returns the subcarrier of pilot `i`.
    pub(crate) fn subcarrier(&self, i: u8) -> u8
        requires valid { IsLayout self.now }
        requires i { i ≤ self.now.last }
        ensures value { result ≡ place_by self.now.step self.now.first i }
        ensures fits { result < subcarriers }
    {
        self.first + self.step * i
    }

    /// Returns the number in the slot of the symbol that carries the pilot at subcarrier `k`.
    pub(crate) fn symbol_at(&self, k: u8) -> u8
        requires { IsLayout self.now }
        ensures value { result ≡ symbol_with self.now k }
        ensures fits { result < 5 }
    {
        if k % 6 == self.residue {
            self.early
        } else {
            self.late
        }
    }
}

/// Returns the pilot layout of an antenna port.
pub(crate) fn layout_of(seen: &Seen, port: u8) -> Layout
    requires { port < ports_of seen.now.carrier }
    ensures line { laid_out result (slot_of seen.now) ≡ line_of seen.now.carrier port (slot_of seen.now) }
    ensures valid { IsLayout result }
{
    if port < 2 {
        lower_layout(seen, Pattern::of(seen.carrier, port))
    } else {
        upper_layout(seen, port)
    }
}

// Returns the layout of port 0 or 1, whose reference signals have `pattern`: pilots at every third subcarrier, in two
// symbols together.
fn lower_layout(seen: &Seen, pattern: Pattern) -> Layout
    requires pattern { IsPattern pattern }
    requires later { pattern.later < 5 }
    ensures line { laid_out result (slot_of seen.now) ≡ lower_line pattern (slot_of seen.now) }
    ensures valid { IsLayout result }
{
    Layout {
        pattern,
        step: 3,
        last: 23,
        first: seen.id.n2() as u8,
        residue: first_of_pattern(pattern, seen.id, 0),
        early: 0,
        late: pattern.later,
    }
}

// Returns the layout of port 2 or 3: pilots at every sixth subcarrier of the slot's second symbol, with the values of
// port 0.
fn upper_layout(seen: &Seen, port: u8) -> Layout
    ensures line { laid_out result (slot_of seen.now) ≡ upper_line port (slot_of seen.now) }
    ensures valid { IsLayout result }
{
    let first = first_of_upper(port, seen.id, seen.number);
    Layout {
        pattern: Pattern::FIRST_PORT,
        step: 6,
        last: 11,
        first,
        residue: first,
        early: 1,
        late: 1,
    }
}

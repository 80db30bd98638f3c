//! An antenna port's pilots in a slot: the values received at its reference elements, times the conjugates of the
//! values sent.

ghost use Rattle.std.specs.Prelude.{◌≡◌, ℕ, ◌+◌, ◌/◌, ◌*◌, ◌^◌, ◌<◌, ◌≤◌, All, IsTrue, length, replicate, take};
ghost use Rattle.cs_num.specs.Complex.{IsWithin, nothing};
ghost use Rattle.crs.specs.Reference.{is_reference, pattern_list};
ghost use Rattle.lte_types.specs.Carrier.{ports_of};
ghost use Rattle.soft_bits.specs.Soft.{pilot_subcarrier, pilot_symbol};
ghost use Rattle.soft_bits.specs.Layout.{IsLayout, laid_out, sent_with};
ghost use Rattle.soft_bits.specs.Lines.{line_of, line_seen, line_pilot, line_pilots};
ghost use Rattle.soft_bits.specs.Kept.{slot_of, SeenLine, seen_line, along, IsFilled};
ghost use Rattle.lte_types.specs.Numerology.{subcarriers};

use crate::Seen;
use crate::layout::{Layout, layout_of};
use crate::line::line;
use crs::pattern_pilots;
use cs_num::Cpx;
use std::marker::Model;

/// An antenna port's 24 or 12 pilots in a slot, by subcarrier: the value received at each reference element, times the
/// conjugate of the value sent (TS 36.211 section 6.10.1.2). Contracts see the pilots with their distance and the first
/// subcarrier.
#[derive(Drop)]
pub struct Pilots {
    step: u8,
    first: u8,
    values: [Cpx; 24],
}

impl Model for Pilots {
    ghost Value = { SeenLine };

    ghost view = { λ s. record { step = s.step; first = s.first; pilots = take (subcarriers / s.step) s.values } };

    ghost invariant = { λ s.
        (3 ≤ s.step) ×
        IsFilled (record { step = s.step; first = s.first; pilots = take (subcarriers / s.step) s.values }) };
}

// Pilots of value zero, for array entries that are not used.
impl Default for Pilots {
    ghost is_default = { λ s. s ≡ record { step = 3; first = 0; pilots = replicate 24 nothing } };

    fn default() -> Pilots {
        Pilots {
            step: 3,
            first: 0,
            values: [Cpx::ZERO; 24],
        }
    }
}

impl Pilots {
    /// Returns the 24 or 12 pilots, by subcarrier. Components have magnitude at most 180 * 2^25.
    pub fn values(&self) -> &[Cpx]
        ensures value { result.now ≡ self.now.pilots }
        ensures small { All (IsWithin (180 * 2 ^ 25)) result.now }
        ensures few { length result.now ≤ 24 }
    {
        &self.values[..72 / self.step as usize]
    }

    /// Returns the distance between neighbouring pilots in subcarriers: 3 or 6.
    pub fn step(&self) -> u8
        ensures value { result ≡ self.now.step }
        ensures few { result ≤ 6 }
    {
        self.step
    }

    /// Returns a copy of the pilots.
    pub fn copied(&self) -> Pilots
        ensures { result ≡ self.now }
    {
        Pilots {
            step: self.step,
            first: self.first,
            values: self.values,
        }
    }

    /// Returns the channel at subcarrier `k`, 0 to 71, times the squared magnitude of a reference signal and the
    /// pilots' distance in subcarriers: linear between pilots, constant outside. Components have magnitude at most 1080
    /// * 2^25. (own)
    pub fn channel(&self, k: u8) -> Cpx
        requires { k < subcarriers }
        ensures value { result ≡ along self.now k }
        ensures small { IsWithin (self.now.step * (180 * 2 ^ 25)) result }
    {
        line(self.values(), self.step, self.first, k)
    }
}

/// A law: the 24 pilots of port 0 in a slot are exactly the reference elements in symbols 0 and 4 (TS 36.211 section
/// 6.10.1.2).
pub fn pilots_are_the_reference_places()
    ensures inside { (identity i : ℕ) → i < 24 → pilot_subcarrier identity i < subcarriers }
    ensures each { (identity i : ℕ) →
        IsTrue (is_reference identity (pilot_symbol identity i) (pilot_subcarrier identity i)) }
    ensures found { (identity symbol k : ℕ) → k < subcarriers → IsTrue (is_reference identity symbol k) →
        (k / 3 < 24) × (k ≡ pilot_subcarrier identity (k / 3)) × (symbol ≡ pilot_symbol identity (k / 3)) }
{}

/// Returns the pilots of antenna port `port` in a slot. `port` is below the transmission scheme's port count.
pub fn pilots_of(seen: &Seen, port: u8) -> Pilots
    requires { port < ports_of seen.now.carrier }
    ensures { result ≡ seen_line (line_of seen.now.carrier port (slot_of seen.now)) (slot_of seen.now) }
{
    let layout = layout_of(seen, port);
    Pilots {
        step: layout.step,
        first: layout.first,
        values: values_of(seen, &layout),
    }
}

// Returns the pilots of a layout by subcarrier, followed by zeros up to 24.
fn values_of(seen: &Seen, layout: &Layout) -> [Cpx; 24]
    requires { IsLayout layout.now }
    ensures value { take (layout.now.last + 1) result
        ≡ line_pilots (laid_out layout.now (slot_of seen.now)) (slot_of seen.now) }
    ensures small { All (IsWithin (180 * 2 ^ 25)) result }
{
    let early = pattern_pilots(layout.pattern, seen.id, seen.number, layout.early);
    let late = late_of(seen, layout, &early);
    let mut values = [Cpx::ZERO; 24];
    for i in 0..layout.last + 1 {
        values[i as usize] = pilot_of(seen, layout, &early, &late, i);
    }
    values
}

// Returns the reference signals sent in the symbol `late` of a layout, by subcarrier. For ports 2 and 3, whose pilots
// are all in one symbol, returns `early`.
fn late_of(seen: &Seen, layout: &Layout, early: &[(u8, Cpx); 12]) -> [(u8, Cpx); 12]
    requires valid { IsLayout layout.now }
    requires early { early.now ≡ pattern_list layout.now.pattern seen.now.id seen.now.number layout.now.early }
    ensures { result ≡ pattern_list layout.now.pattern seen.now.id seen.now.number layout.now.late }
{
    if layout.late == layout.early {
        *early
    } else {
        pattern_pilots(layout.pattern, seen.id, seen.number, layout.late)
    }
}

// Returns pilot `i`, given the reference signals sent in a layout's symbols `early` and `late`.
fn pilot_of(
    seen: &Seen,
    layout: &Layout,
    early: &[(u8, Cpx); 12],
    late: &[(u8, Cpx); 12],
    i: u8,
) -> Cpx
    requires valid { IsLayout layout.now }
    requires early { early.now ≡ pattern_list layout.now.pattern seen.now.id seen.now.number layout.now.early }
    requires late { late.now ≡ pattern_list layout.now.pattern seen.now.id seen.now.number layout.now.late }
    requires i { i ≤ layout.now.last }
    ensures value { result ≡ line_pilot (laid_out layout.now (slot_of seen.now)) (slot_of seen.now) i }
    ensures small { IsWithin (180 * 2 ^ 25) result }
{
    let sent = sent_at(seen, layout, early, late, layout.subcarrier(i));
    seen_of(seen, layout, i).mul(sent.conj())
}

// Returns the value received at pilot `i`.
pub(crate) fn seen_of(seen: &Seen, layout: &Layout, i: u8) -> Cpx
    requires valid { IsLayout layout.now }
    requires i { i ≤ layout.now.last }
    ensures value { result ≡ line_seen (laid_out layout.now (slot_of seen.now)) (slot_of seen.now) i }
    ensures small { IsWithin (2 ^ 25) result }
{
    let k = layout.subcarrier(i);
    seen.symbols[layout.symbol_at(k) as usize][k as usize]
}

// Returns the reference signal sent at the pilot at subcarrier `k`, given those sent in a layout's symbols `early` and
// `late`.
fn sent_at(
    seen: &Seen,
    layout: &Layout,
    early: &[(u8, Cpx); 12],
    late: &[(u8, Cpx); 12],
    k: u8,
) -> Cpx
    requires valid { IsLayout layout.now }
    requires early { early.now ≡ pattern_list layout.now.pattern seen.now.id seen.now.number layout.now.early }
    requires late { late.now ≡ pattern_list layout.now.pattern seen.now.id seen.now.number layout.now.late }
    requires k { k < subcarriers }
    ensures value { result ≡ sent_with layout.now (slot_of seen.now) k }
    ensures small { IsWithin 90 result }
{
    let m = k as usize / 6;
    if k % 6 == layout.residue {
        early[m].1
    } else {
        late[m].1
    }
}

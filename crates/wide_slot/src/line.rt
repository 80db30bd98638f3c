//! The channel between smoothed pilots.

ghost use Rattle.std.specs.Prelude.{◌≡◌, ◌-◌, ◌*◌, ◌+◌, ◌^◌, ◌<◌, ◌≤◌, All, length};
ghost use Rattle.cs_num.specs.Complex.{IsWithin, value_at as value_of_list};
ghost use Rattle.soft_bits.specs.Estimate.{between_by, line_by};
ghost use Rattle.soft_bits.specs.Kept.{along};

use crate::symbol::value_at;
use cs_num::Cpx;
use std::marker::Model;

// An antenna port's smoothed pilots, by subcarrier. Contracts see a line: the distance in subcarriers, the first
// subcarrier, and the pilots.
#[derive(Drop)]
pub(crate) struct Pilots {
    step: u8,
    first: u8,
    values: Vec<Cpx>,
}

impl Model for Pilots {
    ghost use Rattle.soft_bits.specs.Kept.{SeenLine};
    ghost use Rattle.wide_slot.specs.Slot.{IsSmallLine};

    ghost Value = { SeenLine };

    ghost view = { λ p. record { step = p.step; first = p.first; pilots = p.values.items } };

    ghost invariant = { λ p. IsSmallLine (record { step = p.step; first = p.first; pilots = p.values.items }) };
}

impl Pilots {
    ghost use Rattle.wide_slot.specs.Slot.{IsSmallLine};

    // Returns the pilots of a line.
    pub(crate) fn new(step: u8, first: u8, values: Vec<Cpx>) -> Pilots
        requires { IsSmallLine (record { step = step; first = first; pilots = values.items }) }
        ensures { result ≡ record { step = step; first = first; pilots = values.items } }
    {
        Pilots {
            step,
            first,
            values,
        }
    }

    // Returns the distance between pilots in subcarriers.
    pub(crate) fn step(&self) -> u8
        ensures value { result ≡ self.now.step }
        ensures some { 1 ≤ result }
    {
        self.step
    }

    // Returns the channel at subcarrier `k`, times the distance between pilots.
    pub(crate) fn channel(&self, k: u16) -> Cpx
        ensures value { result ≡ along self.now k }
        ensures small { IsWithin (self.now.step * (1440 * 2 ^ 25)) result }
    {
        line(&self.values, self.step, self.first, k as usize)
    }
}

// Returns the line through the pilots at subcarrier `k`, times `step`: level outside the pilots.
fn line(pilots: &[Cpx], step: u8, first: u8, k: usize) -> Cpx
    requires pilots { All (IsWithin (1440 * 2 ^ 25)) pilots.now }
    requires few { length pilots.now ≤ 400 }
    requires some { 1 ≤ step }
    requires near { step ≤ 6 }
    ensures value { result ≡ line_by step (length pilots.now - 1) (value_of_list pilots.now) first k }
    ensures small { IsWithin (step * (1440 * 2 ^ 25)) result }
{
    let last = pilots.len().saturating_sub(1);
    if k < first as usize {
        value_at(pilots, 0).scaled(step)
    } else if k < first as usize + step as usize * last {
        between(
            pilots,
            step,
            (k - first as usize) / step as usize,
            ((k - first as usize) % step as usize) as u8,
        )
    } else {
        value_at(pilots, last).scaled(step)
    }
}

// Returns the line at `r` subcarriers after pilot `i`, times `step`.
fn between(pilots: &[Cpx], step: u8, i: usize, r: u8) -> Cpx
    requires pilots { All (IsWithin (1440 * 2 ^ 25)) pilots.now }
    requires near { step ≤ 6 }
    requires r { r < step }
    requires i { i < 2 ^ 40 }
    ensures value { result ≡ between_by step (value_of_list pilots.now) i r }
    ensures small { IsWithin (step * (1440 * 2 ^ 25)) result }
{
    value_at(pilots, i).scaled(step - r) + value_at(pilots, i + 1).scaled(r)
}

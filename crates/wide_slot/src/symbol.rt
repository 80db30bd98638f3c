//! A received symbol.

ghost use Rattle.std.specs.Prelude.{◌≡◌, List, [], slice_index_or};
ghost use Rattle.cs_num.specs.declared.Cpx.{Cpx as Number};
ghost use Rattle.cs_num.specs.Complex.{value_at as value_of_list};

use cs_num::Cpx;
use std::marker::Model;

// The values at a symbol's subcarriers. Contracts see a list.
#[derive(Drop)]
pub(crate) struct Symbol {
    values: Vec<Cpx>,
}

impl Model for Symbol {
    ghost Value = { List Number };

    ghost view = { λ s. s.values.items };
}

impl Symbol {
    pub(crate) fn new(values: Vec<Cpx>) -> Symbol
        ensures { result ≡ values.items }
    {
        Symbol { values }
    }

    // Returns the value at subcarrier `k`, and 0 if there is none.
    fn at(&self, k: usize) -> Cpx
        ensures { result ≡ value_of_list self.now k }
    {
        value_at(&self.values, k)
    }
}

// Returns the value received at a symbol and a subcarrier, and 0 if there is none.
pub(crate) fn received(symbols: &[Symbol], symbol: usize, k: usize) -> Cpx
    ensures { result ≡ value_of_list (slice_index_or symbols.now symbol []) k }
{
    if symbol < symbols.len() {
        let values = &symbols[symbol];
        values.at(k)
    } else {
        Cpx::ZERO
    }
}

// Returns value `k` of a list, and 0 past its end.
pub(crate) fn value_at(values: &[Cpx], k: usize) -> Cpx
    ensures { result ≡ value_of_list values.now k }
{
    if k < values.len() {
        values[k]
    } else {
        Cpx::ZERO
    }
}

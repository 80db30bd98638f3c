//! Interference cancellation as JSON, an object with these keys:
//!
//! - `cells`: the recording's cell list, in the form of `json`.
//! - `ended`: whether the last round found no cell to cancel.
//! - `rounds`: an array with one object for each cancelled cell: `identity`; `gain`, an array with both components;
//!   `residue`, the residual's largest component magnitude; `power`, an array with the power before and after; and
//!   `cells`, the residual's cell list.

ghost use Rattle.std.specs.Prelude.{◌≡◌, IfOk, string_bytes};
ghost use Rattle.serde_json.specs.View.{view};
ghost use Rattle.report_json.specs.Rounds.{powers_value, round_value, rounds_value as rounds_of, rounds_json, IsCancelJson};

use crate::values::{ToJson, list_value, pair_value};
use explain::Workspace;
use report_parts::power_word;
use sample_file::Recording;
use serde_json::{Value, json};
use std::alloc::{AllocError, Global};
use successive_cancel::{Round, Rounds, cancel_rounds};

/// Returns the interference cancellation in `recording` as JSON in one line, without a line feed: an object with
/// `cells`, `ended` and `rounds`. Fails only if an allocation fails. (own)
pub fn cancel_json(alloc: Global, recording: &Recording) -> Result<String, AllocError>
    ensures { IfOk result (λ text. IsCancelJson recording.now (string_bytes text)) }
{
    let mut work = Workspace::new(alloc)?;
    let rounds = cancel_rounds(alloc, recording, &mut work)?;
    json_of_rounds(alloc, &rounds)
}

/// Returns the JSON of `rounds`, as in `cancel_json`. Fails only if an allocation fails. (own)
pub fn json_of_rounds(alloc: Global, rounds: &Rounds) -> Result<String, AllocError>
    ensures { IfOk result (λ text. string_bytes text ≡ rounds_json rounds.now) }
{
    let all = rounds_value(alloc, rounds)?;
    all.to_string(alloc)
}

// Returns the object with a recording's cell list and its rounds.
fn rounds_value(alloc: Global, rounds: &Rounds) -> Result<Value, AllocError>
    ensures { IfOk result (λ value. view value ≡ rounds_of rounds.now) }
{
    let cells = list_value(alloc, rounds.first.slice())?;
    let taken = list_value(alloc, &rounds.taken)?;
    json!(in alloc; {"cells": cells, "ended": rounds.ended, "rounds": taken})
}

// The object for a round.
impl ToJson for Round {
    ghost json_of = { round_value };

    fn to_json(&self, alloc: Global) -> Result<Value, AllocError> {
        let taken = &self.taken;
        let cells = list_value(alloc, self.list.slice())?;
        let gain = taken.gain().value().to_json(alloc)?;
        let (before, after) = (power_word(taken.before), power_word(taken.after));
        let power = power_value(alloc, before, after)?;
        json!(in alloc; {
            "cells": cells,
            "gain": gain,
            "identity": self.id.value(),
            "power": power,
            "residue": taken.greatest
        })
    }
}

// Returns the array with a recording's power before and after cancellation.
fn power_value(alloc: Global, before: u64, after: u64) -> Result<Value, AllocError>
    ensures { IfOk result (λ value. view value ≡ powers_value before after) }
{
    pair_value(alloc, Value::from(before), Value::from(after))
}

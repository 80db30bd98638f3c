//! The frequency offset estimate as JSON, an object with these keys:
//!
//! - `candidates`: an array with one object for each selected candidate, in order of selection: `coarse`, the coarse
//!   offset in steps of 3.75 kHz; `turn`, the offset in steps of 117.1875 Hz; and `peak`, `energy` and `power`, the
//!   numbers of its best hit's fraction `peak / (energy * power)`.
//! - `told`: an object with `cells`, `hits` and `turn` as in `tell_text`, or null.

ghost use Rattle.std.specs.Prelude.{◌≡◌, IfOk, string_bytes};
ghost use Rattle.serde_json.specs.View.{view};
ghost use Rattle.report_json.specs.Values.{or_null};
ghost use Rattle.report_json.specs.Offset.{estimate_value, candidate_value, estimation_value as estimation_of};
ghost use Rattle.report_json.specs.Offset.{estimation_json, IsTellJson};

use crate::values::{ToJson, list_value};
use frequency_offset::{Candidate, OffsetEstimate, tell_with_candidates};
use sample_file::Recording;
use serde_json::{Value, json};
use std::alloc::{AllocError, Global};

/// Returns a recording's frequency offset estimate as JSON in one line, without a line feed: an object with
/// `candidates` and `told`. Fails only if an allocation fails. (own)
pub fn tell_json(alloc: Global, recording: &Recording) -> Result<String, AllocError>
    ensures { IfOk result (λ text. IsTellJson recording.now (string_bytes text)) }
{
    let estimation = tell_with_candidates(alloc, recording)?;
    json_of(alloc, &estimation.estimate, &estimation.candidates)
}

// Returns the JSON of an estimation: an estimate and its candidates.
fn json_of(
    alloc: Global,
    estimate: &Option<OffsetEstimate>,
    taken: &[Candidate],
) -> Result<String, AllocError>
    ensures { IfOk result (λ text. string_bytes text ≡ estimation_json estimate.now taken.now) }
{
    let estimation = estimation_value(alloc, estimate, taken)?;
    estimation.to_string(alloc)
}

// Returns the value of an estimation: an estimate and its candidates.
fn estimation_value(
    alloc: Global,
    estimate: &Option<OffsetEstimate>,
    taken: &[Candidate],
) -> Result<Value, AllocError>
    ensures { IfOk result (λ value. view value ≡ estimation_of estimate.now taken.now) }
{
    let candidates = list_value(alloc, taken)?;
    let estimate = estimate_or_null(alloc, estimate)?;
    json!(in alloc; {"candidates": candidates, "told": estimate})
}

// Returns the value of an estimate, or null.
fn estimate_or_null(alloc: Global, estimate: &Option<OffsetEstimate>) -> Result<Value, AllocError>
    ensures { IfOk result (λ value. view value ≡ or_null estimate_value estimate.now) }
{
    match estimate {
        Some(estimate) => estimate.to_json(alloc),
        None => Ok(Value::Null),
    }
}

// The object for an estimate.
impl ToJson for OffsetEstimate {
    ghost json_of = { estimate_value };

    fn to_json(&self, alloc: Global) -> Result<Value, AllocError> {
        let turn = Value::from(self.turn);
        json!(in alloc; {"cells": self.cells, "hits": self.hits, "turn": turn})
    }
}

// The object for a candidate.
impl ToJson for Candidate {
    ghost json_of = { candidate_value };

    fn to_json(&self, alloc: Global) -> Result<Value, AllocError> {
        let coarse = Value::from(self.coarse);
        let turn = Value::from(self.turn);
        let fraction = self.fraction;
        json!(in alloc; {
            "coarse": coarse,
            "energy": fraction.energy,
            "peak": fraction.peak,
            "power": fraction.power,
            "turn": turn
        })
    }
}

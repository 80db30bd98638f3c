//! PSS detections (hits) as JSON.

ghost use Rattle.std.specs.Prelude.{◌≡◌, IfOk, OnOk, string_bytes};
ghost use Rattle.serde_json.specs.View.{view, members_view};
ghost use Rattle.report_json.specs.Hits.{hit_members, metric_members, identity_members, hit_value, hits_json};
ghost use Rattle.report_json.specs.Hits.{choice_value, ranking_value, id_value, ids_json};

use crate::values::{ToJson, list_text};
use hit_details::{IdentifiedHit, MeasuredHit, MeasuredId};
use lte_types::Hit;
use serde_json::{Map, Value, put};
use sss_detect::{Choice, Ranking};
use std::alloc::{AllocError, Global};

/// Returns `hits` as JSON in one line, without a line feed: an array with one object for each hit, whose keys are in
/// byte order. Fails only if an allocation fails. (own)
pub fn json_of_hits(alloc: Global, hits: &[MeasuredHit]) -> Result<String, AllocError>
    ensures { IfOk result (λ text. string_bytes text ≡ hits_json hits.now) }
{
    list_text(alloc, hits)
}

/// Returns identified `hits` as JSON, in the form of `json_of_hits`; `secondary` has a hit's two best pairs of SSS
/// group and half-frame. Fails only if an allocation fails. (own)
pub fn json_of_ids(alloc: Global, hits: &[MeasuredId]) -> Result<String, AllocError>
    ensures { IfOk result (λ text. string_bytes text ≡ ids_json hits.now) }
{
    list_text(alloc, hits)
}

impl ToJson for MeasuredHit {
    ghost json_of = { hit_value };

    fn to_json(&self, alloc: Global) -> Result<Value, AllocError> {
        let mut members = Map::new(alloc);
        put_hit(alloc, &self.hit, &mut members)?;
        put_metric(alloc, self.peak, self.energy, self.power, &mut members)?;
        Ok(Value::from(members))
    }
}

impl ToJson for MeasuredId {
    ghost json_of = { id_value };

    fn to_json(&self, alloc: Global) -> Result<Value, AllocError> {
        let mut members = Map::new(alloc);
        put_hit(alloc, &self.found.hit, &mut members)?;
        put_identity(alloc, &self.found, &mut members)?;
        let ranking = self.ranking.to_json(alloc)?;
        put(&mut members, alloc, "secondary", ranking)?;
        put_metric(alloc, self.peak, self.energy, self.power, &mut members)?;
        Ok(Value::from(members))
    }
}

// The object for an SSS group and a half-frame, with the score of the pair.
impl ToJson for Choice {
    ghost json_of = { choice_value };

    fn to_json(&self, alloc: Global) -> Result<Value, AllocError> {
        let mut members = Map::new(alloc);
        put(&mut members, alloc, "group", Value::from(self.n1))?;
        put(&mut members, alloc, "score", Value::from(self.score))?;
        let subframe = self.half.subframe();
        put(&mut members, alloc, "subframe", Value::from(subframe))?;
        Ok(Value::from(members))
    }
}

// The object for the two best pairs of SSS group and half-frame.
impl ToJson for Ranking {
    ghost json_of = { ranking_value };

    fn to_json(&self, alloc: Global) -> Result<Value, AllocError> {
        let best = self.best.to_json(alloc)?;
        let second = self.second.to_json(alloc)?;
        let mut members = Map::new(alloc);
        put(&mut members, alloc, "best", best)?;
        put(&mut members, alloc, "second", second)?;
        Ok(Value::from(members))
    }
}

// Adds a hit's sample and its identity within the group.
fn put_hit(alloc: Global, hit: &Hit, members: &mut Map<String, Value>) -> Result<(), AllocError>
    ensures { OnOk result (members_view members.new.entries
        ≡ hit_members hit.now (members_view members.old.entries)) }
{
    put(members, alloc, "t", Value::from(hit.t))?;
    put(members, alloc, "n2", Value::from(hit.n2))
}

// Adds a hit's cell identity, frame start and subframe.
fn put_identity(
    alloc: Global,
    found: &IdentifiedHit,
    members: &mut Map<String, Value>,
) -> Result<(), AllocError>
    ensures { OnOk result (members_view members.new.entries
        ≡ identity_members found.now (members_view members.old.entries)) }
{
    put(members, alloc, "identity", Value::from(found.id.value()))?;
    put(
        members,
        alloc,
        "subframe",
        Value::from(found.half.subframe()),
    )?;
    put(members, alloc, "at", Value::from(found.start))
}

// Adds the three numbers of a hit's metric.
fn put_metric(
    alloc: Global,
    peak: u64,
    energy: u64,
    power: u64,
    members: &mut Map<String, Value>,
) -> Result<(), AllocError>
    ensures { OnOk result (members_view members.new.entries
        ≡ metric_members peak energy power (members_view members.old.entries)) }
{
    put(members, alloc, "peak", Value::from(peak))?;
    put(members, alloc, "energy", Value::from(energy))?;
    put(members, alloc, "power", Value::from(power))
}

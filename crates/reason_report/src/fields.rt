//! The rule and the fields of a reason.

ghost use Rattle.std.specs.Prelude.{◌≡◌, IfOk};
ghost use Rattle.report_parts.specs.Values.{fields_of};
ghost use Rattle.reason_report.specs.Fields.{rule_of as rule_in, reason_fields as fields_in};
ghost use Rattle.reason_report.specs.Fields.{listed_fields as listed_of, strongest_fields as strongest_of};
ghost use Rattle.reason_report.specs.Fields.{room_fields as room_of, other_fields as other_of, unread_fields as unread_of};

use crate::words::{no_hit_word, unread_word};
use reasons::{EarlyHit, ListedCell, OtherCell, Reason, StrongestPlace, UnreadCell};
use report_parts::Field;
use std::alloc::{AllocError, Global};

/// Returns the rule that fails, or `listed`.
pub(crate) fn rule_of(reason: &Reason) -> &'static str
    ensures { result.now ≡ rule_in reason.now }
{
    match reason {
        Reason::Listed(_) => "listed",
        Reason::NoHit(place) => no_hit_word(place.ratio),
        Reason::NoRoom(_) => "no-room",
        Reason::OtherIdentity(_) => "other-identity",
        Reason::NoMib(cell) => unread_word(&cell.attempt),
    }
}

/// Returns the fields of a reason, in the order of its line. Fails only if an allocation fails.
pub(crate) fn reason_fields(alloc: Global, reason: &Reason) -> Result<Vec<Field>, AllocError>
    ensures { IfOk result (λ fields. fields_of fields.items ≡ fields_in reason.now) }
{
    match reason {
        Reason::Listed(cell) => listed_fields(alloc, cell),
        Reason::NoHit(place) => strongest_fields(alloc, place),
        Reason::NoRoom(hit) => room_fields(alloc, hit),
        Reason::OtherIdentity(cell) => other_fields(alloc, cell),
        Reason::NoMib(cell) => unread_fields(alloc, cell),
    }
}

fn listed_fields(alloc: Global, cell: &ListedCell) -> Result<Vec<Field>, AllocError>
    ensures { IfOk result (λ fields. fields_of fields.items ≡ listed_of cell.now) }
{
    Ok(vec![in alloc;
        Field::natural("at", cell.start as u64),
        Field::natural("sfn", cell.sfn.value() as u64),
        Field::natural("ports", cell.ports as u64),
    ]?)
}

fn strongest_fields(alloc: Global, place: &StrongestPlace) -> Result<Vec<Field>, AllocError>
    ensures { IfOk result (λ fields. fields_of fields.items ≡ strongest_of place.now) }
{
    Ok(vec![in alloc;
        Field::natural("best", place.t as u64),
        Field::natural("ratio", place.ratio),
        Field::natural("needs", 250),
    ]?)
}

fn room_fields(alloc: Global, hit: &EarlyHit) -> Result<Vec<Field>, AllocError>
    ensures { IfOk result (λ fields. fields_of fields.items ≡ room_of hit.now) }
{
    Ok(vec![in alloc;
        Field::natural("hit", hit.t as u64),
        Field::natural("ratio", hit.ratio),
        Field::natural("needs", hit.step as u64),
    ]?)
}

fn other_fields(alloc: Global, cell: &OtherCell) -> Result<Vec<Field>, AllocError>
    ensures { IfOk result (λ fields. fields_of fields.items ≡ other_of cell.now) }
{
    Ok(vec![in alloc;
        Field::natural("hit", cell.t as u64),
        Field::natural("ratio", cell.ratio),
        Field::natural("identity", cell.id.value() as u64),
        Field::integer("score", cell.best.score),
        Field::integer("own", cell.own.score),
    ]?)
}

fn unread_fields(alloc: Global, cell: &UnreadCell) -> Result<Vec<Field>, AllocError>
    ensures { IfOk result (λ fields. fields_of fields.items ≡ unread_of cell.now) }
{
    let attempt = &cell.attempt;
    Ok(vec![in alloc;
        Field::natural("hit", cell.t as u64),
        Field::natural("ratio", cell.ratio),
        Field::natural("at", cell.start as u64),
        Field::natural("phase", attempt.phase as u64),
        Field::natural("cost", attempt.cost as u64),
        Field::natural("total", attempt.total as u64),
        Field::natural("ports", attempt.ports.unwrap_or(0) as u64),
    ]?)
}

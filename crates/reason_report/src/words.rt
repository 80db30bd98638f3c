//! The words that the text and the JSON of reasons share.

ghost use Rattle.std.specs.Prelude.{◌≡◌, None};
ghost use Rattle.reason_report.specs.Words.{no_hit_word as no_hit_of, unread_by, unread_word as unread_of};

use reasons::Attempt;

/// Returns the rule that a cell without an accepted MIB fails: `ports`, `crc` or `cost`.
pub(crate) fn unread_word(attempt: &Attempt) -> &'static str
    ensures { result.now ≡ unread_of attempt.now }
{
    match attempt.ports {
        Some(_) => "ports",
        None => cost_word(attempt.cost, attempt.total),
    }
}

// Returns `crc` if `cost` is at most a quarter of a positive `total`, otherwise `cost`.
fn cost_word(cost: u32, total: u32) -> &'static str
    ensures { result.now ≡ unread_by None cost total }
{
    if 0 < total && 4 * cost as u64 <= total as u64 {
        "crc"
    } else {
        "cost"
    }
}

/// Returns the rule that an identity without a hit fails, by the energy fraction of its strongest PSS, in thousandths:
/// `no-hit` below 250, otherwise `outside`.
pub(crate) fn no_hit_word(ratio: u64) -> &'static str
    ensures { result.now ≡ no_hit_of ratio }
{
    if ratio < 250 { "no-hit" } else { "outside" }
}

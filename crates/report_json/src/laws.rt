//! Laws of JSON reports.

ghost use Rattle.report_json.specs.Rounds.{IsOneCancelJson};

/// A law: the JSON of a recording's interference cancellation is unique.
pub fn one_cancel_json()
    ensures { IsOneCancelJson }
{}

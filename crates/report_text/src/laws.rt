//! Laws of text reports.

ghost use Rattle.report_text.specs.Pieces.{ListedLinesStand};
ghost use Rattle.report_text.specs.Rounds.{IsOneCancelText};

/// A law: the lines of each listed cell, system information included, are one contiguous part of the list's text.
pub fn listed_lines_stand()
    ensures { ListedLinesStand }
{}

/// A law: the text of a recording's interference cancellation is unique.
pub fn one_cancel_text()
    ensures { IsOneCancelText }
{}

//! The synchronisation sequences PSS and SSS (TS 36.211 section 6.11).
//! Tests: the crate `low_tests`.
#![tactic(auto)]

mod middle;
mod primary;
mod secondary;

ghost use Rattle.sync_seq.specs.Laws.{SecondaryDetermines};

pub use middle::{MIDDLE, in_middle, is_middle};
pub use primary::pss;
pub use secondary::{amplitude, sss, sss_shifts, sss_sign};

/// A law: the 336 SSS for one identity within the group differ, so the SSS determines the group and the half-frame.
pub fn secondary_determines_group_and_half()
    ensures { SecondaryDetermines }
{}

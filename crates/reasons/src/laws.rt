//! Laws of the reasons for an identity.

ghost use Rattle.reasons.specs.Laws.{FirstFramesDecideReasons, HasOneReason, ListedIsInList, UnlistedHasNoMib};

/// A law: an identity is in a recording's list if and only if a reason for it is `Listed`. There is at most one list of
/// reasons, and an unlisted identity has no MIB in any frames (`unread`). (own)
pub fn reasons_in_plain_words()
    ensures listed { ListedIsInList }
    ensures one { HasOneReason }
    ensures unread { UnlistedHasNoMib }
{}

/// A law: recordings of at least 326,400 samples (17 frames) that agree in the first 326,400 have equal reasons for an
/// identity, for any receiver that reads only a cell's first 16 frames. (own)
pub fn the_first_frames_decide_the_reasons()
    ensures { FirstFramesDecideReasons }
{}

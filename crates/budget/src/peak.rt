//! The detection of a primary synchronisation signal (PSS): 128 samples are the signal times a gain of magnitude at
//! least 1, with errors. The samples before and after may be anything. If later paths are counted as errors, the PSS of
//! another root may have a hit nearby.

ghost use Rattle.budget.specs.Peak.{PrimaryStandsOut, PrimaryIsHit, PrimaryIsListed, OnlyHitNear};
ghost use Rattle.budget.specs.Peak.{PrimaryStandsOutBy, PrimaryIsHitWithin, PrimaryIsListedWithin};
ghost use Rattle.budget.specs.Peak.{OnlyHitOfRootWithin};

/// A law: with error energy at most 14,000 times the gain's square, a PSS has a normalised metric of at least 0.99. In
/// the search range it is a hit, the only one of its root within 9 samples.
pub fn primary_within_errors_is_a_hit()
    ensures stands_out { PrimaryStandsOutBy 14000 990 }
    ensures hit { PrimaryIsHitWithin 14000 }
    ensures listed { PrimaryIsListedWithin 14000 }
    ensures alone { OnlyHitOfRootWithin 14000 }
{}

/// A law: with error energy at most 1800 times the gain's square, a PSS has a normalised metric of at least 0.999. In
/// the search range it is the only hit of any root within 9 samples.
pub fn clean_primary_is_a_hit()
    ensures stands_out { PrimaryStandsOut }
    ensures hit { PrimaryIsHit }
    ensures listed { PrimaryIsListed }
    ensures alone { OnlyHitNear }
{}

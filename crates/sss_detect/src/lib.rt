//! SSS detection: the identity group and the half-frame for a PSS detection (a hit), from the secondary
//! synchronisation sequence that agrees best with the received symbols.
//! Tests: the crate `code_tests`.
#![tactic(auto)]

mod choose;
mod place;
mod rank;
mod score;

ghost use Rattle.std.specs.Prelude.{◌≡◌, ◌+◌, ◌≤◌, length};
ghost use Rattle.lte_types.specs.Numerology.{normal, symbol_step, useful_length};
ghost use Rattle.sss_detect.specs.Identity.{IsBest, prefix_scores, prefix_identity, scores_of, identity_of};
ghost use Rattle.sss_detect.specs.Place.{prefix_place};
ghost use Rattle.sss_detect.specs.Second.{IsSecond, prefix_group_choice, prefix_ranking};
ghost use Rattle.sss_detect.specs.Laws.{BestPairIsBest, OnlyOneIsBest, SecondPairIsSecond, OnlyOneIsSecond};

pub use choose::best;
use lte_types::{CellPlace, Half, Hit, Prefix};
use observe::symbol;
pub use place::{cell_id, frame_start};
use rank::{best_of_group, best_two};
pub use rank::{Choice, Ranking};
use sample_file::Recording;

/// Returns a hit's identity group and half-frame for a cyclic prefix (TS 36.211 section 6.11), as `best` does. The
/// recording contains the useful parts of the primary symbol and the preceding secondary symbol; `n2` is 0 to 2.
pub fn identity_with(recording: &Recording, hit: &Hit, prefix: Prefix) -> (u16, Half)
    requires after { symbol_step prefix ≤ hit.now.t }
    requires within { hit.now.t + useful_length ≤ length recording.now }
    requires member { hit.now.n2 ≤ 2 }
    ensures value { result ≡ prefix_identity prefix recording.now hit.now }
    ensures best { IsBest (prefix_scores prefix recording.now hit.now) result.0 result.1 }
{
    let t = hit.t as usize;
    best(
        &symbol(recording, t),
        &symbol(recording, t - prefix.step()),
        hit.n2,
    )
}

/// Returns a hit's identity group and half-frame for the normal cyclic prefix: the secondary symbol is 137 samples
/// before the primary one. The conditions for `identity_with` apply.
pub fn identity(recording: &Recording, hit: &Hit) -> (u16, Half)
    requires after { symbol_step normal ≤ hit.now.t }
    requires within { hit.now.t + useful_length ≤ length recording.now }
    requires member { hit.now.n2 ≤ 2 }
    ensures value { result ≡ identity_of recording.now hit.now }
    ensures best { IsBest (scores_of recording.now hit.now) result.0 result.1 }
{
    identity_with(recording, hit, Prefix::NORMAL)
}

/// Returns a hit's cell identity, and the sample at which the cell's first frame starts, for a cyclic prefix. The
/// conditions for `identity_with` apply.
pub fn place_with(recording: &Recording, hit: &Hit, prefix: Prefix) -> CellPlace
    requires after { symbol_step prefix ≤ hit.now.t }
    requires within { hit.now.t + useful_length ≤ length recording.now }
    requires member { hit.now.n2 ≤ 2 }
    ensures { result ≡ prefix_place prefix recording.now hit.now }
{
    let (n1, half) = identity_with(recording, hit, prefix);
    match CellPlace::new(cell_id(n1, hit.n2), frame_start(hit, half)) {
        Some(place) => place,
        None => unreachable!(),
    }
}

/// Returns the identity group and half-frame that `identity_with` chooses and the second-best pair of a group and a
/// half-frame, each with its score. The conditions for `identity_with` apply. (own)
pub fn ranking_with(recording: &Recording, hit: &Hit, prefix: Prefix) -> Ranking
    requires after { symbol_step prefix ≤ hit.now.t }
    requires within { hit.now.t + useful_length ≤ length recording.now }
    requires member { hit.now.n2 ≤ 2 }
    ensures value { result ≡ prefix_ranking prefix recording.now hit.now }
    ensures best { IsBest (prefix_scores prefix recording.now hit.now) result.best.n1 result.best.half }
    ensures second { IsSecond (prefix_scores prefix recording.now hit.now) (result.best.n1, result.best.half)
        result.second.n1 result.second.half }
{
    let primary = hit.t as usize;
    let secondary = primary - prefix.step();
    best_two(
        &symbol(recording, primary),
        &symbol(recording, secondary),
        hit.n2,
    )
}

/// Returns the half-frame that scores better with identity group `n1`, 0 to 167, and its complete score; subframe 0 if
/// both scores are equal. The symbols are those that `identity_with` reads. (own)
pub fn group_choice_with(recording: &Recording, hit: &Hit, prefix: Prefix, n1: u16) -> Choice
    requires after { symbol_step prefix ≤ hit.now.t }
    requires within { hit.now.t + useful_length ≤ length recording.now }
    requires member { hit.now.n2 ≤ 2 }
    requires group { n1 ≤ 167 }
    ensures { result ≡ prefix_group_choice prefix recording.now hit.now n1 }
{
    let primary = hit.t as usize;
    let secondary = primary - prefix.step();
    best_of_group(
        &symbol(recording, primary),
        &symbol(recording, secondary),
        hit.n2,
        n1,
    )
}

/// A law: exactly one pair of an identity group and a half-frame is the best: the first with the maximum score of all
/// 336.
pub fn best_pair_is_first_of_greatest()
    ensures best { BestPairIsBest }
    ensures only { OnlyOneIsBest }
{}

/// A law: exactly one pair of an identity group and a half-frame is the second-best: the first with the maximum score
/// of the other 335.
pub fn second_pair_is_first_of_the_others()
    ensures second { SecondPairIsSecond }
    ensures only { OnlyOneIsSecond }
{}

//! The pair of a group and a half-frame whose signs match most often.

ghost use Rattle.std.specs.Prelude.{◌≡◌, ◌≤◌, nat_lt, if◌then◌else◌};
ghost use Rattle.finite.specs.Sizes.{AllWithin};
ghost use Rattle.lte_types.specs.declared.frame.Half.TheVariants.{Zero, Five};
ghost use Rattle.sss_detect.specs.Identity.{best_pair};
ghost use Rattle.accumulated_sss.specs.Steps.{matches_by, counts_by};

use crate::matching::count;
use lte_types::Half;
use sync_seq::sss;

// A group, 0 to 167, and a half-frame, with how many of 124 signs match.
#[derive(Clone, Copy)]
pub(crate) struct Pair {
    pub n1: u16,
    pub half: Half,
    pub matches: u8,
}

// A group, 0 to 167, with how many of 124 signs match in one half-frame.
#[derive(Clone, Copy)]
struct Leader {
    n1: u16,
    matches: u8,
}

// How many of 124 signs match those of a group, where half-frames of even number are in subframe 0, or in subframe 5.
#[derive(Clone, Copy)]
struct Counts {
    in_0: u8,
    in_5: u8,
}

// Returns the pair with most matches: of several one of subframe 0, then the lowest group. `even` and `odd` are the
// signs from half-frames of even and of odd number.
pub(crate) fn most_matching(even: &[i8; 62], odd: &[i8; 62], n2: u8) -> Pair
    requires even { AllWithin 1 even.now }
    requires odd { AllWithin 1 odd.now }
    requires member { n2 ≤ 2 }
    ensures pair { (result.n1, result.half) ≡ best_pair (counts_by even.now odd.now n2) }
    ensures matches { result.matches ≡ matches_by even.now odd.now n2 result.n1 result.half }
    ensures group { result.n1 ≤ 167 }
{
    let first = counted(even, odd, n2, 0);
    let mut in_0 = Leader {
        n1: 0,
        matches: first.in_0,
    };
    let mut in_5 = Leader {
        n1: 0,
        matches: first.in_5,
    };
    for n1 in 1..168 {
        let here = counted(even, odd, n2, n1);
        in_0 = better(in_0, n1, here.in_0);
        in_5 = better(in_5, n1, here.in_5);
    }
    of_both(in_0, in_5)
}

// Returns the pair of the leader that matches more often, or of subframe 0 if both match equally often.
fn of_both(in_0: Leader, in_5: Leader) -> Pair
    ensures { result ≡ (if nat_lt in_0.matches in_5.matches
        then record { n1 = in_5.n1; half = Five; matches = in_5.matches }
        else record { n1 = in_0.n1; half = Zero; matches = in_0.matches }) }
{
    if in_0.matches < in_5.matches {
        Pair {
            n1: in_5.n1,
            half: Half::Five,
            matches: in_5.matches,
        }
    } else {
        Pair {
            n1: in_0.n1,
            half: Half::Zero,
            matches: in_0.matches,
        }
    }
}

// Returns the matches of the group `n1` for both half-frames.
fn counted(even: &[i8; 62], odd: &[i8; 62], n2: u8, n1: u16) -> Counts
    requires even { AllWithin 1 even.now }
    requires odd { AllWithin 1 odd.now }
    requires member { n2 ≤ 2 }
    requires group { n1 ≤ 167 }
    ensures in_0 { result.in_0 ≡ matches_by even.now odd.now n2 n1 Zero }
    ensures in_5 { result.in_5 ≡ matches_by even.now odd.now n2 n1 Five }
{
    let zero = sss(n1, n2, Half::Zero);
    let five = sss(n1, n2, Half::Five);
    Counts {
        in_0: count(even, &zero) + count(odd, &five),
        in_5: count(even, &five) + count(odd, &zero),
    }
}

// Returns the group with more matches, or `first` if the matches are equal.
fn better(first: Leader, n1: u16, matches: u8) -> Leader
    ensures { result ≡ (if nat_lt first.matches matches then record { n1 = n1; matches = matches } else first) }
{
    if first.matches < matches {
        Leader { n1, matches }
    } else {
        first
    }
}

//! The PDSCH soft values of the assigned resource blocks: two per resource element, each from -127 to 127, in the order
//! of TS 36.211 section 6.4. The scrambling sequence starts with the subframe, and not again with its second slot
//! (section 6.3.1).

ghost use Rattle.std.specs.Prelude.{◌≡◌, ◌*◌, ◌%◌, ◌<◌, ◌≤◌, All, length, take, drop};
ghost use Rattle.finite.specs.Sizes.{AllWithin};
ghost use Rattle.grid_map.specs.Shared.{block_places_of, shared_places_of};
ghost use Rattle.grid_map.specs.Scrambling.{pdsch_c_init as pdsch_seed};
ghost use Rattle.soft_bits.specs.Places.{in_subframe, descrambled};
ghost use Rattle.dci.specs.Format1A.{IsGrant};
ghost use Rattle.dci.specs.Fields.{system_information_rnti};
ghost use Rattle.pdsch.specs.Values.{shared_values_by};
ghost use Rattle.lte_types.specs.Numerology.{subcarriers};

use dci::{Grant, SI_RNTI};
use grid_map::{Place, pdsch_c_init, shared_count, shared_place};
use lte_types::{Assignment, Carrier, CellId, Cfi};
use soft_bits::{ReadSlot, descramble};

/// The maximum number of soft values for a grant: six resource blocks, indicator 2 and one antenna port.
pub const MOST_VALUES: usize = 1224;

/// Writes the descrambled soft values of the resource blocks in `grant` to the front of `out`, two per resource
/// element, and returns their number. `first` and `second` are slots 10 and 11; `cfi` is 2 or 3.
pub fn values<S: ReadSlot>(
    first: &S,
    second: &S,
    cfi: Cfi,
    grant: &Grant,
    out: &mut [i16; MOST_VALUES],
) -> usize
    requires first { (S.seen_as first.now).number ≡ 10 }
    requires second { (S.seen_as second.now).number ≡ 11 }
    requires cell { (S.seen_as second.now).identity ≡ (S.seen_as first.now).identity }
    requires cfi { 2 ≤ cfi }
    requires grant { IsGrant grant.now }
    ensures count { result ≡ 2 * (block_places_of S.carrier cfi * grant.now.blocks) }
    ensures values { take result out.new ≡ shared_values_by S.carrier S.values_by
        (S.seen_as first.now) (S.seen_as second.now) cfi grant.now.start grant.now.blocks }
    ensures magnitudes { AllWithin 127 (take result out.new) }
    ensures rest { drop result out.new ≡ drop result out.old }
{
    match Assignment::new(cfi, grant.start, grant.blocks) {
        Some(assignment) => fill_values(first, second, &assignment, out),
        None => unreachable!(),
    }
}

// Writes the descrambled soft values of the assigned resource blocks to the front of `out`, and returns their number.
fn fill_values<S: ReadSlot>(
    first: &S,
    second: &S,
    assignment: &Assignment,
    out: &mut [i16; MOST_VALUES],
) -> usize
    ensures count { result
        ≡ 2 * (block_places_of S.carrier assignment.now.cfi * assignment.now.blocks) }
    ensures values { take result out.new ≡ shared_values_by S.carrier S.values_by
        (S.seen_as first.now) (S.seen_as second.now) assignment.now.cfi assignment.now.start assignment.now.blocks }
    ensures magnitudes { AllWithin 127 (take result out.new) }
    ensures rest { drop result out.new ≡ drop result out.old }
{
    let mut places = [Place { symbol: 0, k: 0 }; MOST_VALUES / 2];
    let count = fill_places(S::carrier(), first.cell(), assignment, &mut places);
    fill_shared(first, second, &places[..count], &mut out[..2 * count]);
    2 * count
}

// Writes the resource elements of the assigned resource blocks to the front of `places`, and returns their number.
fn fill_places(
    carrier: Carrier,
    id: CellId,
    assignment: &Assignment,
    places: &mut [Place; MOST_VALUES / 2],
) -> usize
    ensures count { result ≡ block_places_of carrier assignment.now.cfi * assignment.now.blocks }
    ensures few { result ≤ 612 }
    ensures even { result % 2 ≡ 0 }
    ensures places { take result places.new
        ≡ shared_places_of carrier id assignment.now.cfi assignment.now.start assignment.now.blocks }
{
    let count = shared_count(carrier, assignment);
    for i in 0..count {
        places[i] = shared_place(carrier, id, assignment, i);
    }
    count
}

// Fills `values` with the descrambled PDSCH soft values at the resource elements `places`, two per element.
fn fill_shared<S: ReadSlot>(first: &S, second: &S, places: &[Place], values: &mut [i16])
    requires few { length places.now ≤ 612 }
    requires inside { All (λ p. (p.symbol < 14) × (p.k < subcarriers)) places.now }
    requires even { length places.now % 2 ≡ 0 }
    requires room { length values.old ≡ 2 * length places.now }
    ensures values { values.new ≡ descrambled
        (pdsch_seed (S.seen_as first.now).identity (S.seen_as first.now).number system_information_rnti) 0
        (S.values_by (in_subframe (S.seen_as first.now) (S.seen_as second.now)) places.now) }
    ensures magnitudes { AllWithin 127 values.new }
    ensures size { length values.new ≡ 2 * length places.now }
{
    first.fill(second, places, values);
    let c_init = pdsch_c_init(first.cell(), first.slot_number(), SI_RNTI);
    descramble(c_init, 0, values);
}

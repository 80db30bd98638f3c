ghost use Rattle.std.specs.Prelude.{IsTrue};
ghost use Rattle.grid_map.specs.Group.{is_group};

use arrayvec::ArrayVec;
use grid_map::{
    Place, Reg, block_places, control_groups, pbch, pcfich, pdcch, pdsch, places_of_groups,
    quadruplet, quadruplets_permute, reg_places, shared_count, shared_order, shared_place,
};
use lte_types::{Assignment, Bandwidth, Carrier, CellId, Cfi, Duration, Mib, Resource};

// Returns whether PBCH resource element `i` is at symbol `symbol` and subcarrier `k`.
fn is_point_of_broadcast(identity: u16, i: usize, symbol: u8, k: u8) -> bool {
    match CellId::new(identity) {
        Some(id) => i < 240 && pbch(id, i) == Place { symbol, k },
        None => false,
    }
}

#[test]
fn first_and_last_points_of_each_symbol(rt: HostRuntime) {
    for (i, symbol, k) in [
        (0, 7, 1),
        (47, 7, 71),
        (48, 8, 1),
        (95, 8, 71),
        (96, 9, 0),
        (167, 9, 71),
        (168, 10, 0),
        (239, 10, 71),
    ] {
        assert!(rt; is_point_of_broadcast(0, i, symbol, k), "point {i}");
    }
}

#[test]
fn places_beside_the_reserved_ones_of_identities_1_and_503(rt: HostRuntime) {
    for (identity, i, symbol, k) in [
        (1, 0, 7, 0),
        (1, 1, 7, 2),
        (1, 48, 8, 0),
        (503, 1, 7, 1),
        (503, 2, 7, 3),
        (503, 95, 8, 70),
        (503, 239, 10, 71),
    ] {
        assert!(rt; is_point_of_broadcast(identity, i, symbol, k), "point {i}");
    }
}

// Returns whether the four PCFICH resource-element groups begin at the subcarriers `firsts`.
fn has_pcfich(identity: u16, firsts: [u8; 4]) -> bool {
    match CellId::new(identity) {
        Some(id) => pcfich(id).map(|group| group.first) == firsts,
        None => false,
    }
}

#[test]
fn groups_of_the_pcfich(rt: HostRuntime) {
    assert!(rt; has_pcfich(0, [0, 18, 36, 54]));
    assert!(rt; has_pcfich(503, [66, 12, 30, 48]));
    assert!(rt; has_pcfich(77, [30, 48, 66, 12]));
}

// Returns the PDCCH resource-element groups.
fn pdcch_of(
    identity: u16,
    cfi: u8,
    duration: Duration,
    resource: Resource,
) -> Option<ArrayVec<Reg, 66>> {
    let id = CellId::new(identity)?;
    let cfi = Cfi::new(cfi)?;
    let mib = Mib::new(Bandwidth::N6, duration, resource, 0, 0)?;
    Some(pdcch(id, cfi, mib))
}

// Returns whether the groups are those in `numbers`, where a group's number is four times its first subcarrier, plus
// its symbol.
fn are_groups(groups: &[Reg], numbers: &[u16]) -> bool {
    let mut same = groups.len() == numbers.len();
    for (i, group) in groups.iter().enumerate() {
        let number = 4 * group.first as u16 + group.symbol as u16;
        same = same && numbers.get(i) == Some(&number);
    }
    same
}

// Returns whether the PDCCH has the expected resource-element groups.
fn has_pdcch(
    identity: u16,
    cfi: u8,
    duration: Duration,
    resource: Resource,
    numbers: &[u16],
) -> bool {
    match pdcch_of(identity, cfi, duration, resource) {
        Some(groups) => are_groups(groups.as_slice(), numbers),
        None => false,
    }
}

#[test]
fn groups_of_the_pdcch_of_identity_0(rt: HostRuntime) {
    let expected = [
        1, 2, 17, 18, 33, 34, 48, 49, 50, 65, 66, 81, 82, 97, 98, 113, 114, 120, 129, 130, 145,
        146, 161, 162, 168, 177, 178, 193, 194, 209, 210, 225, 226, 240, 241, 242, 257, 258, 264,
        273, 274,
    ];
    assert!(rt; has_pdcch(0, 2, Duration::Normal, Resource::One, &expected));
}

#[test]
fn groups_of_the_pdcch_of_identity_503(rt: HostRuntime) {
    let expected = [
        1, 2, 3, 17, 18, 19, 24, 33, 34, 35, 50, 51, 66, 67, 72, 81, 82, 83, 96, 97, 98, 99, 113,
        114, 115, 129, 130, 131, 144, 145, 147, 161, 163, 168, 177, 178, 179, 193, 194, 195, 209,
        210, 211, 216, 225, 226, 227, 241, 242, 243, 257, 258, 259, 273, 274, 275,
    ];
    assert!(rt; has_pdcch(503, 3, Duration::Extended, Resource::Two, &expected));
}

// Returns whether no group in `groups` is one of `others`.
fn has_none_of(groups: &[Reg], others: &[Reg; 3]) -> bool {
    groups
        .iter()
        .all(|group| others.iter().all(|other| group != other))
}

// Returns the resource-element group in a symbol that begins at subcarrier `first`.
fn group_at(symbol: u8, first: u8) -> Reg {
    Reg { symbol, first }
}

// Returns whether the PDCCH for identity 0 and resource one leaves out `groups`, the PHICH groups.
fn has_phich(duration: Duration, groups: &[Reg; 3]) -> bool {
    match pdcch_of(0, 3, duration, Resource::One) {
        Some(others) => has_none_of(others.as_slice(), groups),
        None => false,
    }
}

#[test]
fn groups_of_the_phich_of_identity_0(rt: HostRuntime) {
    let normal = [group_at(0, 6), group_at(0, 24), group_at(0, 48)];
    let extended = [group_at(0, 6), group_at(1, 24), group_at(2, 48)];
    assert!(rt; has_phich(Duration::Normal, &normal) && has_phich(Duration::Extended, &extended));
    assert!(rt; !has_phich(Duration::Normal, &extended) && !has_phich(Duration::Extended, &normal));
    assert!(rt; count_of(0, 3, Duration::Normal, Resource::One) == Some(59));
    assert!(rt; count_of(0, 3, Duration::Extended, Resource::One) == Some(59));
}

// Counts the PDCCH resource-element groups.
fn count_of(identity: u16, cfi: u8, duration: Duration, resource: Resource) -> Option<usize> {
    Some(pdcch_of(identity, cfi, duration, resource)?.len())
}

// Returns whether the PDCCH has the group counts `counts` for CFI 1, 2 and 3.
fn has_counts(identity: u16, duration: Duration, resource: Resource, counts: [usize; 3]) -> bool {
    count_of(identity, 1, duration, resource) == Some(counts[0])
        && count_of(identity, 2, duration, resource) == Some(counts[1])
        && count_of(identity, 3, duration, resource) == Some(counts[2])
}

#[test]
fn counts_of_groups(rt: HostRuntime) {
    for (identity, duration, resource, counts) in [
        (0, Duration::Normal, Resource::OneSixth, [23, 41, 59]),
        (250, Duration::Normal, Resource::Two, [20, 38, 56]),
        (77, Duration::Extended, Resource::Half, [24, 41, 59]),
        (502, Duration::Extended, Resource::Two, [22, 38, 56]),
    ] {
        assert!(rt;
            has_counts(identity, duration, resource, counts),
            "identity {identity}"
        );
    }
    control_groups();
}

// Returns whether the resource elements of `group` are on the given subcarriers.
fn has_subcarriers(identity: u16, group: Reg, subcarriers: [u8; 4]) -> bool
    requires { IsTrue (is_group group) }
{
    match CellId::new(identity) {
        Some(id) => reg_places(id, group).map(|place| place.k) == subcarriers,
        None => false,
    }
}

#[test]
fn places_of_a_group(rt: HostRuntime) {
    let first = Reg {
        symbol: 0,
        first: 66,
    };
    for (identity, subcarriers) in [
        (0, [67, 68, 70, 71]),
        (1, [66, 68, 69, 71]),
        (503, [66, 67, 69, 70]),
    ] {
        assert!(rt;
            has_subcarriers(identity, first, subcarriers),
            "identity {identity}"
        );
    }
    let last = Reg {
        symbol: 3,
        first: 68,
    };
    assert!(rt; has_subcarriers(5, last, [68, 69, 70, 71]));
    places_of_groups();
}

// Returns whether the first eight of `count` groups carry the given quadruplets.
fn has_quadruplets(identity: u16, count: u8, quadruplets: [u8; 8]) -> bool {
    let Some(id) = CellId::new(identity) else {
        return false;
    };
    if count < 8 || count > 66 {
        return false;
    }
    for r in 0..8_u8 {
        if quadruplet(id, count, r) != quadruplets[r as usize] {
            return false;
        }
    }
    true
}

#[test]
fn quadruplets_of_the_first_groups(rt: HostRuntime) {
    for (identity, count, quadruplets) in [
        (0, 41, [10, 26, 18, 2, 34, 14, 30, 22]),
        (503, 59, [11, 43, 3, 35, 19, 51, 31, 15]),
        (250, 20, [4, 12, 8, 0, 16, 6, 14, 10]),
        (5, 66, [43, 27, 59, 7, 39, 23, 55, 15]),
    ] {
        assert!(rt;
            has_quadruplets(identity, count, quadruplets),
            "identity {identity}"
        );
    }
    quadruplets_permute();
}

// Returns PDSCH resource element `i`, or `None` if there is none.
fn point_of(identity: u16, cfi: u8, start: u8, blocks: u8, i: usize) -> Option<Place> {
    let id = CellId::new(identity)?;
    let cfi = Cfi::new(cfi)?;
    let limit = if cfi.value() == 2 { 102 } else { 90 };
    if cfi.value() == 1 || blocks < 1 || blocks > 6 || start > 6 - blocks {
        return None;
    }
    if i >= limit * blocks as usize {
        return None;
    }
    Some(pdsch(id, cfi, start, blocks, i))
}

#[test]
fn points_of_the_shared_channel(rt: HostRuntime) {
    for (identity, cfi, start, blocks, i, symbol, k) in [
        (0, 2, 0, 6, 0, 3, 0),
        (0, 2, 0, 6, 101, 4, 35),
        (0, 2, 0, 6, 611, 13, 71),
        (503, 3, 2, 3, 4, 4, 29),
        (503, 3, 2, 3, 59, 7, 58),
        (503, 3, 2, 3, 135, 10, 27),
        (503, 3, 2, 3, 269, 13, 59),
        (77, 2, 5, 1, 12, 4, 60),
        (77, 2, 5, 1, 22, 7, 60),
        (77, 3, 5, 1, 60, 11, 65),
    ] {
        let point = point_of(identity, cfi, start, blocks, i);
        assert!(rt;
            point == Some(Place { symbol, k }),
            "point {i} of {identity}"
        );
    }
    shared_order();
}

// Returns PDSCH resource element `i` under a transmission scheme, or `None` if there is none.
fn point_by(
    carrier: Carrier,
    identity: u16,
    cfi: u8,
    start: u8,
    blocks: u8,
    i: usize,
) -> Option<Place> {
    let id = CellId::new(identity)?;
    let assignment = Assignment::new(Cfi::new(cfi)?, start, blocks)?;
    if i >= shared_count(carrier, &assignment) {
        return None;
    }
    Some(shared_place(carrier, id, &assignment, i))
}

// The expected resource elements are from a program that visits all resource elements one by one, by TS 36.211 sections
// 6.4 and 6.10.1.2.
#[test]
fn points_of_the_shared_channel_of_other_carriers(rt: HostRuntime) {
    for (carrier, identity, cfi, start, blocks, i, symbol, k) in [
        (Carrier::TwoPorts, 0, 2, 0, 6, 72, 4, 1),
        (Carrier::TwoPorts, 0, 2, 0, 6, 167, 7, 71),
        (Carrier::TwoPorts, 0, 2, 0, 6, 575, 13, 71),
        (Carrier::TwoPorts, 503, 3, 2, 1, 2, 4, 27),
        (Carrier::TwoPorts, 503, 3, 2, 1, 52, 11, 24),
        (Carrier::TwoPorts, 503, 3, 2, 1, 83, 13, 35),
        (Carrier::LongPrefix, 0, 2, 0, 6, 71, 6, 14),
        (Carrier::LongPrefix, 0, 2, 0, 6, 167, 7, 47),
        (Carrier::LongPrefix, 0, 2, 0, 6, 467, 11, 71),
        (Carrier::LongPrefix, 503, 3, 2, 1, 2, 6, 26),
        (Carrier::LongPrefix, 503, 3, 2, 1, 40, 9, 31),
        (Carrier::LongPrefix, 503, 3, 2, 1, 67, 11, 35),
        (Carrier::FourPorts, 0, 2, 0, 6, 168, 8, 1),
        (Carrier::FourPorts, 0, 2, 0, 6, 200, 8, 49),
        (Carrier::FourPorts, 0, 2, 0, 6, 551, 13, 71),
        (Carrier::FourPorts, 503, 3, 2, 1, 17, 8, 25),
        (Carrier::FourPorts, 503, 3, 2, 1, 52, 11, 30),
        (Carrier::FourPorts, 503, 3, 2, 1, 79, 13, 35),
    ] {
        let point = point_by(carrier, identity, cfi, start, blocks, i);
        assert!(rt;
            point == Some(Place { symbol, k }),
            "point {i} of {identity}"
        );
    }
    assert!(rt; point_by(Carrier::TwoPorts, 503, 3, 2, 1, 84).is_none());
    assert!(rt; point_by(Carrier::LongPrefix, 503, 3, 2, 1, 68).is_none());
    assert!(rt; point_by(Carrier::FourPorts, 503, 3, 2, 1, 80).is_none());
}

#[test]
fn places_of_a_block(rt: HostRuntime) {
    for (carrier, cfi, count) in [
        (Carrier::OnePort, 2, 102),
        (Carrier::OnePort, 3, 90),
        (Carrier::TwoPorts, 2, 96),
        (Carrier::TwoPorts, 3, 84),
        (Carrier::LongPrefix, 2, 78),
        (Carrier::LongPrefix, 3, 68),
        (Carrier::FourPorts, 2, 92),
        (Carrier::FourPorts, 3, 80),
    ] {
        assert!(rt; block_places(carrier, cfi) == count, "indicator {cfi}");
    }
}

use cs_num::Cpx;
use lte_types::Half;
use sync_seq::{pss, sss, sss_shifts};

#[test]
fn the_first_values_of_each_root(rt: HostRuntime) {
    assert!(rt; pss(0)[0] == Cpx { re: 127, im: 0 });
    for (n2, second) in [
        (0, Cpx { re: -101, im: -77 }),
        (1, Cpx { re: -123, im: -31 }),
        (2, Cpx { re: -123, im: 31 }),
    ] {
        assert!(rt; pss(n2)[1] == second);
    }
}

// Returns whether both PSS values next to the omitted middle one are `middle`, and the last is 127.
fn has_middle(values: &[Cpx; 62], middle: Cpx) -> bool {
    values[30] == middle && values[31] == middle && values[61] == Cpx { re: 127, im: 0 }
}

#[test]
fn the_middle_value_is_left_out(rt: HostRuntime) {
    for (n2, middle) in [
        (0, Cpx { re: -126, im: 19 }),
        (1, Cpx { re: 121, im: -37 }),
        (2, Cpx { re: 121, im: 37 }),
    ] {
        assert!(rt; has_middle(&pss(n2), middle));
    }
}

#[test]
fn secondary_values_of_three_identities(rt: HostRuntime) {
    assert!(rt;
        sss(0, 0, Half::Zero)
            == [
                1, 1, 1, -1, 1, 1, 1, 1, 1, -1, 1, 1, -1, -1, -1, -1, -1, -1, 1, -1, 1, 1, 1, 1,
                -1, 1, 1, 1, -1, -1, -1, -1, -1, -1, 1, -1, -1, 1, -1, 1, -1, -1, 1, 1, -1, 1, 1,
                -1, 1, 1, 1, 1, -1, 1, -1, -1, -1, 1, 1, 1, 1, -1
            ]
    );
    assert!(rt;
        sss(100, 1, Half::Zero)
            == [
                -1, -1, -1, -1, -1, -1, 1, 1, -1, -1, -1, -1, 1, -1, -1, 1, 1, -1, 1, -1, 1, -1, 1,
                1, 1, 1, -1, -1, 1, -1, -1, -1, -1, -1, 1, 1, -1, -1, -1, 1, -1, 1, 1, 1, -1, -1,
                -1, 1, -1, 1, -1, -1, -1, -1, -1, -1, -1, -1, -1, -1, 1, 1
            ]
    );
    assert!(rt;
        sss(167, 2, Half::Five)
            == [
                -1, 1, -1, -1, -1, -1, 1, 1, 1, 1, -1, -1, 1, 1, 1, 1, 1, -1, 1, -1, -1, 1, -1, 1,
                -1, -1, -1, -1, 1, -1, 1, -1, 1, -1, 1, -1, -1, 1, 1, 1, 1, 1, -1, -1, -1, 1, -1,
                -1, 1, 1, -1, -1, -1, 1, 1, 1, -1, 1, -1, -1, 1, -1
            ]
    );
}

#[test]
fn shifts_of_three_groups(rt: HostRuntime) {
    for (n1, shifts) in [(0, (0, 1)), (30, (0, 2)), (167, (2, 9))] {
        assert!(rt; sss_shifts(n1, Half::Zero) == shifts, "group {n1}");
    }
}

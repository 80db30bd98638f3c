use cs_num::{Cpx, Gain, Sample, clamp_div};

#[test]
fn products_and_sums_of_small_numbers(rt: HostRuntime) {
    let a = Cpx { re: 3, im: -4 };
    let b = Cpx { re: -2, im: 5 };
    assert!(rt; a.mul(b) == Cpx { re: 14, im: 23 });
    assert!(rt; a + b == Cpx { re: 1, im: 1 });
    assert!(rt; a.conj() == Cpx { re: 3, im: 4 });
    assert!(rt; a.norm() == 25);
}

#[test]
fn rounding_takes_halves_up(rt: HostRuntime) {
    assert!(rt; Cpx { re: 6, im: -6 }.round_shift(2) == Cpx { re: 2, im: -1 });
    assert!(rt; Cpx { re: 5, im: -7 }.round_shift(2) == Cpx { re: 1, im: -2 });
}

#[test]
fn quotients_go_toward_zero_and_stop_at_the_limit(rt: HostRuntime) {
    for (value, quotient) in [(-7, -3), (7, 3), (-1000, -127), (1000, 127)] {
        assert!(rt; clamp_div(value, 2, 127) == quotient);
    }
}

#[test]
fn quotients_are_rounded_halves_up(rt: HostRuntime) {
    assert!(rt; Cpx { re: 5, im: -5 }.quotient(2) == Cpx { re: 3, im: -2 });
    assert!(rt; Cpx { re: 7, im: -7 }.quotient(3) == Cpx { re: 2, im: -2 });
    assert!(rt; Cpx { re: 8, im: -8 }.quotient(3) == Cpx { re: 3, im: -3 });
}

#[test]
fn small_numbers_are_samples(rt: HostRuntime) {
    let sample = Sample {
        re: -32_767,
        im: 12,
    };
    assert!(rt;
        Cpx {
            re: -32_767,
            im: 12
        }
        .exact_sample()
            == sample
    );
}

#[test]
fn great_numbers_are_clamped_to_samples(rt: HostRuntime) {
    let least = Sample {
        re: -32_768,
        im: 32_767,
    };
    assert!(rt;
        Cpx {
            re: -32_769,
            im: 32_768
        }
        .nearest_sample()
            == least
    );
    assert!(rt;
        Cpx {
            re: -32_768,
            im: 32_767
        }
        .nearest_sample()
            == least
    );
    assert!(rt; Cpx { re: 5, im: -6 }.nearest_sample() == Sample { re: 5, im: -6 });
}

// Returns whether `Gain` accepts the components `re` and `im`, and then has the same components and their complex
// number.
fn is_gain(re: i16, im: i16) -> bool {
    match Gain::new(re, im) {
        Some(gain) => {
            (gain.re(), gain.im()) == (re, im)
                && gain.value()
                    == Cpx {
                        re: re as i64,
                        im: im as i64,
                    }
        }
        None => false,
    }
}

// The squared magnitudes of the gains are 1, 784, 761 and 784.
#[test]
fn gains_have_sizes_of_1_to_28(rt: HostRuntime) {
    for (re, im) in [(1, 0), (0, -28), (-20, 19), (28, 0)] {
        assert!(rt; is_gain(re, im));
    }
}

// The squared magnitudes of the refused numbers are 0, 785, 800 and 2^31.
#[test]
fn smaller_and_greater_numbers_are_no_gains(rt: HostRuntime) {
    for (re, im) in [(0, 0), (28, 1), (20, 20), (-32_768, -32_768)] {
        assert!(rt; Gain::new(re, im).is_none());
    }
}

#[test]
fn gains_are_not_taken_from_16_bits(rt: HostRuntime) {
    assert!(rt; Gain::of(Cpx { re: 65_537, im: 0 }).is_none());
    assert!(rt; Gain::of(Cpx { re: 3, im: -4 }) == Gain::new(3, -4));
}

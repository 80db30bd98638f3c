ghost use Rattle.std.specs.Prelude.{◌<◌, All};
ghost use Rattle.cs_num.specs.Complex.{IsWithin};

use cs_num::{Cpx, Sample};
use fold128::{synth, transform, w, z63};

// Returns a grid with `value` on subcarrier `k`, and 0 elsewhere.
fn one_value(k: usize, value: Cpx) -> [Cpx; 72]
    requires k { k < 72 }
    requires small { IsWithin 127 value }
    ensures { All (IsWithin 127) result }
{
    let mut grid = [Cpx::ZERO; 72];
    grid[k] = value;
    grid
}

#[test]
fn tables_at_the_ends_of_their_parts(rt: HostRuntime) {
    for (m, value) in [
        (0, Cpx { re: 16384, im: 0 }),
        (
            7,
            Cpx {
                re: 15426,
                im: 5520,
            },
        ),
        (
            16,
            Cpx {
                re: 11585,
                im: 11585,
            },
        ),
        (96 + 128, Cpx { re: 0, im: -16384 }),
    ] {
        assert!(rt; w(m) == value);
    }
    assert!(rt; z63(31) == Cpx { re: -127, im: 6 });
    assert!(rt; z63(32) == Cpx { re: -127, im: -6 });
}

// Returns whether the phase of samples 0, 32 and 64 advances by a quarter cycle each.
fn turns_once(samples: &[Cpx; 128]) -> bool {
    samples[0] == Cpx { re: 11, im: 11 }
        && samples[32] == Cpx { re: -11, im: 11 }
        && samples[64] == Cpx { re: -11, im: -11 }
}

#[test]
fn one_subcarrier_turns_once(rt: HostRuntime) {
    assert!(rt; turns_once(&synth(&one_value(36, Cpx { re: 90, im: 90 }))));
}

// Returns six nonzero samples, four of them 32 apart.
fn six_samples() -> [Sample; 128] {
    let mut samples = [Sample { re: 0, im: 0 }; 128];
    samples[0] = Sample { re: 1, im: 0 };
    samples[5] = Sample { re: 100, im: -7 };
    samples[37] = Sample {
        re: -32768,
        im: 32767,
    };
    samples[69] = Sample { re: 13, im: 11 };
    samples[101] = Sample { re: -5, im: 2000 };
    samples[127] = Sample { re: 0, im: 3 };
    samples
}

// Returns whether one subcarrier for each residue modulo 4, and both outermost subcarriers, have the expected sums.
fn has_sums_of_six_samples(seen: &[Cpx; 72]) -> bool {
    seen[0]
        == Cpx {
            re: 128506129,
            im: -770966241,
        }
        && seen[36]
            == Cpx {
                re: 620734439,
                im: 397635603,
            }
        && seen[37]
            == Cpx {
                re: 206706731,
                im: -756220250,
            }
        && seen[38]
            == Cpx {
                re: -733135371,
                im: -60340679,
            }
        && seen[39]
            == Cpx {
                re: 176420809,
                im: 761461029,
            }
        && seen[71]
            == Cpx {
                re: 761380999,
                im: -176423601,
            }
}

#[test]
fn each_residue_of_a_frequency_sees_its_sum(rt: HostRuntime) {
    assert!(rt; has_sums_of_six_samples(&transform(&six_samples())));
}

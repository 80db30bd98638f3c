// The expected values are from `python/lte_reference/cancel.py`.
ghost use Rattle.std.specs.Prelude.{◌≡◌, length};

use crate::examples::cell_of;
use cancel::{
    Subtracted, answer_leaves_errors, best_candidate_is_one, clean_gain_is_candidate, some_answer,
    subtract,
};
use cell_tx::{CellPlan, Port, Sender, sequence};
use cs_num::{Cpx, Sample, clamp_div};
use lte_types::{Carrier, Duration, Resource, Sfn, Timing};
use sample_file::Recording;
use std::alloc::Global;
use std::test::Fail;
use test_support::{plain_block, silent};

// Returns the plan in `scripts/examples/plain_cell.json`, with another identity.
fn plain_plan(identity: u16) -> CellPlan {
    CellPlan {
        identity,
        duration: Duration::Normal,
        resource: Resource::One,
        spare: 0,
        cfi: 2,
        start: 0,
        blocks: 6,
        mcs: 4,
        column: 2,
        sib1: plain_block(),
    }
}

// Returns the plan of a second cell, with identity 150.
fn other_plan() -> CellPlan {
    CellPlan {
        duration: Duration::Extended,
        resource: Resource::Two,
        spare: 5,
        cfi: 3,
        mcs: 5,
        column: 3,
        ..plain_plan(150)
    }
}

// Clamps a component to 16 bits.
fn part(z: i64) -> i16 {
    clamp_div(z, 1, 32_767)
}

// Returns `sample` plus `sent` times `gain`, clamped to 16 bits.
fn added(sample: Sample, sent: Sample, gain: Sample) -> Sample {
    let product = Cpx::from(gain).mul(Cpx::from(sent));
    Sample {
        re: part(sample.re as i64 + part(product.re) as i64),
        im: part(sample.im as i64 + part(product.im) as i64),
    }
}

// Adds a cell's emission times a gain. `place` is the frame number and the sample at which the emission begins.
fn add(
    alloc: Global,
    samples: &mut [Sample],
    plan: CellPlan,
    place: (u16, u32),
    gain: (i16, i16),
) -> Result<(), Fail>
    requires { length samples.old ≡ 57600 }
    ensures { length samples.new ≡ length samples.old }
{
    let cell = cell_of(plan).ok_or("a plan that is sent")?;
    let sfn = Sfn::new(place.0).ok_or("in range")?;
    let timing = Timing::new(sfn, place.1).ok_or("in range")?;
    let gain = Sample {
        re: gain.0,
        im: gain.1,
    };
    let mut sent = silent(alloc, 57_600)?;
    let sender = Sender {
        cell: &cell,
        port: Port {
            carrier: Carrier::OnePort,
            number: 0,
        },
        timing,
        load: None,
    };
    sequence(&sender, &mut sent);
    for i in 0..57_600 {
        samples[i] = added(samples[i], sent[i], gain);
    }
    Ok(())
}

// Subtracts the cell of `plan` from `samples`. `place` is a frame number and the sample at which that frame starts.
fn taken(
    alloc: Global,
    samples: Vec<Sample>,
    plan: CellPlan,
    place: (u16, u32),
) -> Result<Option<Subtracted>, Fail> {
    let cell = cell_of(plan).ok_or("a plan that is sent")?;
    let (number, start) = place;
    let sfn = Sfn::new(number).ok_or("in range")?;
    let recording = Recording::new(samples).ok_or("30 ms")?;
    if start >= 19_200 {
        return Ok(None);
    }
    Ok(subtract(alloc, &recording, &cell, start, sfn)?)
}

// The expected gain and powers, and samples 0, 1000 and 57,599 of the residual.
#[derive(Clone, Copy)]
struct Expected {
    gain: (i16, i16),
    greatest: u32,
    before: u128,
    after: u128,
    samples: [(i16, i16); 3],
}

// Returns samples 0, 1000 and 57,599 from a residual.
fn samples_of(taken: &Subtracted) -> [(i16, i16); 3] {
    let residue = &taken.residue;
    let count = residue.len();
    prove!(57_600 <= count);
    let pair = |s: Sample| (s.re, s.im);
    [
        pair(residue.get(0)),
        pair(residue.get(1000)),
        pair(residue.get(57_599)),
    ]
}

fn is_expected(taken: &Subtracted, expected: &Expected) -> bool {
    taken.gain == expected.gain
        && taken.greatest == expected.greatest
        && taken.before == expected.before
        && taken.after == expected.after
        && samples_of(taken) == expected.samples
}

// Returns whether subtracting a plan's cell gives the expected result.
fn is_taken_off(
    alloc: Global,
    samples: Vec<Sample>,
    plan: CellPlan,
    place: (u16, u32),
    expected: &Expected,
) -> Result<bool, Fail> {
    Ok(match taken(alloc, samples, plan, place)? {
        Some(taken) => is_expected(&taken, expected),
        None => false,
    })
}

// Frame 1023 precedes frame 0.
#[test]
fn a_lone_cell_leaves_nothing(rt: HostRuntime) -> Result<(), Fail> {
    for (sent, gain, heard, before) in [
        ((0, 0), (1, 0), (0, 0), 169_776_488),
        ((1023, 1), (3, -4), (0, 19_199), 3_594_134_850),
    ] {
        let mut samples = silent(rt.alloc(), 57_600)?;
        add(rt.alloc(), &mut samples, plain_plan(0), sent, gain)?;
        let expected = Expected {
            gain,
            greatest: 0,
            before,
            after: 0,
            samples: [(0, 0); 3],
        };
        assert!(rt; is_taken_off(rt.alloc(), samples, plain_plan(0), heard, &expected)?);
    }
    clean_gain_is_candidate();
    Ok(())
}

// Adds 56 to both components of each even sample, and -56 to those of each odd sample.
fn disturb(samples: &mut [Sample]) {
    for i in 0..samples.len() {
        let error = if i % 2 == 0 { 56 } else { -56 };
        let error = Sample {
            re: error,
            im: error,
        };
        samples[i] = added(samples[i], error, Sample { re: 1, im: 0 });
    }
}

#[test]
fn errors_at_the_bound_are_left(rt: HostRuntime) -> Result<(), Fail> {
    let mut samples = silent(rt.alloc(), 57_600)?;
    let place = (5, 19_199);
    add(rt.alloc(), &mut samples, plain_plan(503), place, (0, 28))?;
    disturb(&mut samples);
    let expected = Expected {
        gain: (0, 28),
        greatest: 56,
        before: 133_806_036_560,
        after: 361_267_200,
        samples: [(56, 56), (56, 56), (-56, -56)],
    };
    assert!(rt; is_taken_off(rt.alloc(), samples, plain_plan(503), (6, 1), &expected)?);
    Ok(())
}

// In silence, the gains 1, j, -1 and -j leave residuals of equal power.
#[test]
fn of_equal_gains_the_lowest_is_taken(rt: HostRuntime) -> Result<(), Fail> {
    let samples = silent(rt.alloc(), 57_600)?;
    let expected = Expected {
        gain: (-1, 0),
        greatest: 370,
        before: 0,
        after: 169_776_488,
        samples: [(-99, 131), (68, 95), (0, 0)],
    };
    assert!(rt; is_taken_off(rt.alloc(), samples, plain_plan(0), (0, 0), &expected)?);
    best_candidate_is_one();
    some_answer();
    answer_leaves_errors();
    Ok(())
}

// The estimated gain, 20 + 9j, is not the gain with the smallest residual.
#[test]
fn another_gain_than_the_estimate_is_taken(rt: HostRuntime) -> Result<(), Fail> {
    let mut samples = silent(rt.alloc(), 57_600)?;
    add(rt.alloc(), &mut samples, plain_plan(0), (0, 0), (20, 9))?;
    add(rt.alloc(), &mut samples, other_plan(), (514, 5000), (2, -1))?;
    let expected = Expected {
        gain: (18, 9),
        greatest: 999,
        before: 82_530_174_415,
        after: 1_515_079_615,
        samples: [(-198, 262), (136, 190), (0, 0)],
    };
    assert!(rt; is_taken_off(rt.alloc(), samples, plain_plan(0), (0, 0), &expected)?);
    Ok(())
}

#[test]
fn the_greatest_is_reported_before_16_bits(rt: HostRuntime) -> Result<(), Fail> {
    let loudest = Sample {
        re: 32_767,
        im: -32_768,
    };
    let samples = vec![in rt.alloc(); loudest; 57_600]?;
    let expected = Expected {
        gain: (0, 1),
        greatest: 33_122,
        before: 123_691_283_308_800,
        after: 123_625_232_291_812,
        samples: [(32_767, -32_669), (32_767, -32_768), (32_767, -32_768)],
    };
    assert!(rt; is_taken_off(rt.alloc(), samples, plain_plan(0), (0, 0), &expected)?);
    Ok(())
}

#[test]
fn a_greater_gain_is_none(rt: HostRuntime) -> Result<(), Fail> {
    let mut samples = silent(rt.alloc(), 57_600)?;
    add(rt.alloc(), &mut samples, plain_plan(0), (0, 0), (40, 0))?;
    assert!(rt; taken(rt.alloc(), samples, plain_plan(0), (0, 0))?.is_none());
    Ok(())
}

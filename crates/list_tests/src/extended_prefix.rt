// The expected numbers are from the reference implementation, `python/lte_reference/long_prefix.py`.
use cs_num::{Sample, clamp_div};
use explain::EntryList;
use long_prefix::{LongMade, LongPlan, Workspace3, explain_clean, made_is_clean, make, sample};
use lte_types::{Bandwidth, CellId, Duration, Entry, Mib, Resource, Sfn, Sib1Reason};
use sample_file::Recording;
use std::alloc::{AllocError, Global};
use std::test::Fail;
use test_support::{Summary, are_samples, is_summed_up, silent_recording};

// Samples from cell 7, starting at frame 7.
const SENT: [(u32, i16, i16); 27] = [
    (0, 0, -67),
    (31, -78, 17),
    (32, -45, -22),
    (159, -78, 17),
    (192, 0, 0),
    (640, -32, -63),
    (672, 95, 0),
    (800, 92, -26),
    (832, -109, 68),
    (960, 23, 180),
    (992, -22, -45),
    (1000, -109, -36),
    (1100, 2, 147),
    (1152, 0, 68),
    (1312, 23, -135),
    (1500, -139, 67),
    (9600, 45, 45),
    (10_240, 0, 32),
    (10_272, -95, 0),
    (10_432, -109, 68),
    (19_200, 0, -67),
    (20_160, -67, 90),
    (20_200, -196, -108),
    (20_352, 113, -22),
    (20_512, 90, -22),
    (20_672, 23, 68),
    (28_800, 45, 45),
];

// Returns cell 7's plan, with the given bandwidth and upper frame number bits in its MIB.
fn plan_7(bandwidth: Bandwidth, upper: u8) -> Option<LongPlan> {
    let mib = Mib::new(bandwidth, Duration::Extended, Resource::Two, upper, 7)?;
    Some(LongPlan {
        id: CellId::new(7)?,
        mib,
    })
}

// The bandwidth and the upper bits in the plan's MIB do not change the samples.
#[test]
fn samples_of_a_plan(rt: HostRuntime) -> Result<(), Fail> {
    for (bandwidth, upper) in [(Bandwidth::N6, 1), (Bandwidth::N100, 255)] {
        let plan = plan_7(bandwidth, upper).ok_or("in range")?;
        let sent = |i: u32| Some(sample(&plan, Sfn::modulo(7), i as u64));
        assert!(rt; are_samples(&SENT, sent), "upper bits {upper}");
    }
    Ok(())
}

// Returns whether a synthetic recording has the given gain, noise bound and summary.
fn is_made(made: &LongMade, gain: (i16, i16), bound: i16, summary: &Summary) -> bool {
    made.gain == gain && made.bound == bound && is_summed_up(&made.recording, summary)
}

// Synthetic recordings: number, gain, noise bound and summary.
const MADE: [(u32, (i16, i16), i16, Summary); 3] = [
    (
        0,
        (1, 0),
        2,
        Summary {
            count: 192_000,
            front: [(0, -23), (-28, -22), (12, 13), (51, 11)],
            sums: [-29_145, 2157, -12_175_129, -3_334_298],
        },
    ),
    (
        7,
        (8, 7),
        21,
        Summary {
            count: 326_400,
            front: [(105, -77), (348, -278), (145, 189), (-230, 711)],
            sums: [-327_871, 315_644, -159_347_480, 96_467_028],
        },
    ),
    (
        4_294_967_221,
        (8, 1),
        16,
        Summary {
            count: 211_200,
            front: [(9, -15), (9, -13), (-5, -5), (-7, 3)],
            sums: [180_775, 34_420, 104_354_895, 12_631_419],
        },
    ),
];

#[test]
fn recordings_by_number(rt: HostRuntime) -> Result<(), Fail> {
    made_is_clean();
    for (n, gain, bound, summary) in MADE {
        assert!(rt;
            is_made(&make(rt.alloc(), n)?, gain, bound, &summary),
            "number {n}"
        );
    }
    Ok(())
}

// Returns a recording's cell list.
fn list_of(alloc: Global, recording: &Recording) -> Result<EntryList, AllocError> {
    let mut work = Workspace3::new(alloc)?;
    let mut list = EntryList::new(alloc)?;
    explain_clean(recording, &mut work, &mut list);
    Ok(list)
}

// The expected entry for a cell with one antenna port and the extended cyclic prefix.
#[derive(Clone, Copy)]
struct ExpectedEntry {
    identity: u16,
    start: u32,
    sfn: u16,
    duration: Duration,
    resource: Resource,
    spare: u16,
}

fn is_expected(entry: &Entry, expected: &ExpectedEntry) -> bool {
    entry.id.value() == expected.identity
        && entry.start == expected.start
        && entry.sfn.value() == expected.sfn
        && entry.ports == 1
        && entry.mib.duration == expected.duration
        && entry.mib.resource == expected.resource
        && entry.mib.spare == expected.spare
        && matches!(&entry.sib1, Err(Sib1Reason::LongPrefix))
}

// Returns whether the cell list of synthetic recording `n` is exactly the entry `expected`.
fn is_list(alloc: Global, n: u32, expected: &ExpectedEntry) -> Result<bool, AllocError> {
    let made = make(alloc, n)?;
    let list = list_of(alloc, &made.recording)?;
    Ok(match list.slice() {
        [entry] => is_expected(entry, expected),
        _ => false,
    })
}

// The expected list entries of synthetic recordings, by number.
const EXPECTED: [(u32, ExpectedEntry); 3] = [
    // Recording 7 starts at sample 7 of frame 7, so its frame 8 begins at sample 19,193.
    (
        7,
        ExpectedEntry {
            identity: 7,
            start: 19_193,
            sfn: 8,
            duration: Duration::Extended,
            resource: Resource::Two,
            spare: 7,
        },
    ),
    // The first PSS, in subframe 5, is at sample 142, which leaves no room for the SSS in front of it. The frame begins
    // 8,768 samples later.
    (
        10_290,
        ExpectedEntry {
            identity: 210,
            start: 8_910,
            sfn: 51,
            duration: Duration::Normal,
            resource: Resource::One,
            spare: 50,
        },
    ),
    // The first PSS, in subframe 5, is at sample 152.
    (
        10_280,
        ExpectedEntry {
            identity: 200,
            start: 8_920,
            sfn: 41,
            duration: Duration::Normal,
            resource: Resource::OneSixth,
            spare: 40,
        },
    ),
];

#[test]
fn the_cells_of_recordings(rt: HostRuntime) -> Result<(), Fail> {
    for (n, expected) in EXPECTED {
        assert!(rt; is_list(rt.alloc(), n, &expected)?, "number {n}");
    }
    Ok(())
}

// A 32-bit noise generator.
#[derive(Drop)]
struct Noise {
    state: u32,
}

impl Noise {
    // Returns a number from -`most` to `most`.
    fn next(&mut self, most: u16) -> i16 {
        self.state = self
            .state
            .wrapping_mul(1_664_525)
            .wrapping_add(1_013_904_223);
        let most = most as i64;
        clamp_div((self.state >> 16) as i64 % (2 * most + 1) - most, 1, 32_767)
    }
}

// Adds noise of magnitude at most `most` to each component.
fn noisy(sample: Sample, noise: &mut Noise, most: u16) -> Sample {
    let re = sample.re.saturating_add(noise.next(most));
    let im = sample.im.saturating_add(noise.next(most));
    Sample { re, im }
}

// Returns synthetic recording 1 with noise in slot 1 of each frame; the first frame begins at sample 19,199.
fn spoiled(alloc: Global, most: u16) -> Result<Recording, Fail> {
    let made = make(alloc, 1)?;
    let mut samples = Vec::with_capacity(alloc, made.recording.len())?;
    let mut noise = Noise { state: 1 };
    for (i, sample) in made.recording.as_slice().iter().enumerate() {
        let in_frame = (i % 19_200 + 1) % 19_200;
        let sample = if i >= 19_199 && in_frame / 960 == 1 {
            noisy(*sample, &mut noise, most)
        } else {
            *sample
        };
        samples.push(sample)?;
    }
    let recording = Recording::new(samples).ok_or("10 frames")?;
    Ok(recording)
}

// Returns whether the cell list of the noisy recording has only the sent cell, with a MIB decoded from frame `frame`
// alone.
fn is_estimated_alone(alloc: Global, most: u16, frame: u8) -> Result<bool, Fail> {
    let expected = ExpectedEntry {
        identity: 1,
        start: 19_199,
        sfn: 2,
        duration: Duration::Extended,
        resource: Resource::Half,
        spare: 1,
    };
    let recording = spoiled(alloc, most)?;
    let list = list_of(alloc, &recording)?;
    Ok(match list.slice() {
        [entry] => is_expected(entry, &expected) && entry.frames == 1 && entry.frame == frame,
        _ => false,
    })
}

// Expected result from `lte_reference/long_prefix.py --spoiled 700 1` and `lte_reference/search.py --prefix long why`:
// no MIB is decoded from frame 0.
#[test]
fn the_second_frame_decodes_alone(rt: HostRuntime) -> Result<(), Fail> {
    assert!(rt; is_estimated_alone(rt.alloc(), 700, 1)?);
    Ok(())
}

// Expected result from `lte_reference/long_prefix.py --spoiled 1000 1` and `900 1`: no MIB is decoded from a single
// frame, although the sum of two or four frames would give one.
#[test]
fn no_frames_are_added(rt: HostRuntime) -> Result<(), Fail> {
    let alloc = rt.alloc();
    for most in [1000, 900] {
        let recording = spoiled(alloc, most)?;
        assert!(rt; list_of(alloc, &recording)?.slice().is_empty());
    }
    Ok(())
}

#[test]
fn silence_has_no_cells(rt: HostRuntime) -> Result<(), Fail> {
    let recording = silent_recording(rt.alloc())?;
    assert!(rt; list_of(rt.alloc(), &recording)?.slice().is_empty());
    Ok(())
}

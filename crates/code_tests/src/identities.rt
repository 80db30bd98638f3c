ghost use Rattle.std.specs.Prelude.{◌≡◌};

use lte_types::{Half, Hit};
use observe::symbol;
use sample_file::Recording;
use sss_detect::{best, cell_id, frame_start, identity};
use std::test::Fail;
use test_support::{PRIMARY, SECONDARY, silent, silent_recording, write_signal};

// Returns a PSS detection at sample `t` with N_ID(2) = 0.
fn hit_at(t: u32) -> Hit
    ensures { (result.t ≡ t) × (result.n2 ≡ 0) }
{
    Hit {
        t,
        n2: 0,
        peak: 0,
        energy: 0,
    }
}

#[test]
fn the_sent_pair_of_signals_is_identified(rt: HostRuntime) -> Result<(), Fail> {
    let mut samples = silent(rt.alloc(), 57_600)?;
    write_signal(&mut samples[863..991], &SECONDARY);
    write_signal(&mut samples[1000..1128], &PRIMARY);
    let recording = Recording::new(samples).expect(&rt, "30 ms");
    let hit = hit_at(1000);
    assert!(rt; identity(&recording, &hit) == (167, Half::Five));
    assert!(rt; frame_start(&hit, Half::Five) == 9768);
    assert!(rt; cell_id(167, 0).value() == 501);
    Ok(())
}

#[test]
fn of_equal_scores_the_first_pair_is_taken(rt: HostRuntime) -> Result<(), Fail> {
    let recording = silent_recording(rt.alloc())?;
    let seen = symbol(&recording, 0);
    assert!(rt; best(&seen, &seen, 2) == (0, Half::Zero));
    Ok(())
}

#[test]
fn a_frame_that_began_before_the_recording_starts_modulo_its_length(rt: HostRuntime) {
    assert!(rt; frame_start(&hit_at(137), Half::Zero) == 18505);
    assert!(rt; frame_start(&hit_at(10_432), Half::Five) == 0);
}

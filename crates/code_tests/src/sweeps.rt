ghost use Rattle.std.specs.Prelude.{◌+◌, ◌≤◌};

use lte_types::Hit;
use pss_search::{HitList, Metric, Sweep, hits};
use sample_file::Recording;
use std::alloc::Global;
use std::test::Fail;
use test_support::{primary_grid, put_symbol, silent, silent_recording};

// Returns the PSS detections in a recording that is silent except for the PSS of root 0 from sample `t`.
fn hits_with_signal_at(alloc: Global, t: usize) -> Result<HitList, Fail>
    requires { t + 128 ≤ 57600 }
{
    let mut samples = silent(alloc, 57_600)?;
    put_symbol(&mut samples, t, &primary_grid(0));
    let mut list = HitList::new(alloc)?;
    if let Some(recording) = Recording::new(samples) {
        hits(&recording, &mut list);
    }
    Ok(list)
}

// Returns whether the list has exactly one detection, of root 0 at sample `t`. The expected peak and energy are from
// the reference implementation.
fn has_lone_hit(list: &HitList, t: u32) -> bool {
    let lone = Hit {
        t,
        n2: 0,
        peak: 3_985_589_003_236,
        energy: 1_996_394,
    };
    list.slice() == [lone].as_slice()
}

#[test]
fn a_signal_alone_is_the_one_hit(rt: HostRuntime) -> Result<(), Fail> {
    let list = hits_with_signal_at(rt.alloc(), 1000)?;
    assert!(rt; has_lone_hit(&list, 1000));
    Ok(())
}

#[test]
fn the_places_137_to_19336_are_searched(rt: HostRuntime) -> Result<(), Fail> {
    for t in [137_u32, 19_336] {
        let list = hits_with_signal_at(rt.alloc(), t as usize)?;
        assert!(rt; has_lone_hit(&list, t));
    }
    for t in [136, 19_337] {
        let list = hits_with_signal_at(rt.alloc(), t)?;
        assert!(rt; list.slice().len() == 0);
    }
    Ok(())
}

#[test]
fn a_list_is_emptied_before_it_is_filled(rt: HostRuntime) -> Result<(), Fail> {
    let mut list = hits_with_signal_at(rt.alloc(), 1000)?;
    let silence = silent_recording(rt.alloc())?;
    hits(&silence, &mut list);
    assert!(rt; list.slice().len() == 0);
    Ok(())
}

// Returns whether the sweep returns zero metrics at 19,218 samples and then ends for good.
fn is_silent(recording: &Recording) -> bool {
    let mut sweep = Sweep::new(recording);
    let silent = [Metric { peak: 0, energy: 0 }; 3];
    for _ in 0..19_218_u32 {
        if sweep.step() != Some(silent) {
            return false;
        }
    }
    sweep.step() == None && sweep.step() == None && sweep.place() == 19_346
}

#[test]
fn a_sweep_of_silence_has_19218_places(rt: HostRuntime) -> Result<(), Fail> {
    let silence = silent_recording(rt.alloc())?;
    assert!(rt; is_silent(&silence));
    Ok(())
}

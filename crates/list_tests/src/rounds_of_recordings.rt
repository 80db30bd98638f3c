ghost use Rattle.std.specs.Prelude.{◌≡◌, IfOk, length};

use cell_json::read;
use cell_tx::send_all;
use cs_num::{Sample, clamp_div};
use explain::Workspace;
use report_text::{cancel_text, one_cancel_text};
use sample_file::Recording;
use std::alloc::Global;
use std::test::Fail;
use successive_cancel::{Round, cancel_rounds, clean_cell_is_taken_first, rounds_in_plain_words};
use test_support::{description, silent, wide_cell};

// The expected texts are from `python/lte_reference/cancel.py`.

// A high gain for the plain cell.
const LOUD: &str = ", \"gain\": [20, 9]";

// A second cell, 20 dB below the plain cell.
const OTHER: &str =
    ", \"identity\": 150, \"sfn\": 514, \"offset\": 5000, \"gain\": [2, -1], \"duration\": \"extended\", \
    \"resource\": \"two\", \"spare\": 5, \"cfi\": 3, \"mcs\": 5, \"column\": 3";

// Returns the samples that the plain cell sends with `change`.
fn sent(alloc: Global, change: &str) -> Result<Vec<Sample>, Fail>
    ensures { IfOk result (λ samples. length samples.items ≡ 57600) }
{
    let text = description(alloc, change, "")?;
    let transmission = read(alloc, text.as_bytes())?;
    if transmission.samples != 57_600 {
        return Err("30 ms".into());
    }
    let mut samples = silent(alloc, 57_600)?;
    send_all(&transmission, &mut samples);
    Ok(samples)
}

// Adds `others` to `samples`, sample by sample.
fn add(samples: &mut [Sample], others: &[Sample])
    requires { length others.now ≡ length samples.old }
    ensures { length samples.new ≡ length samples.old }
{
    for i in 0..samples.len() {
        samples[i] = Sample {
            re: clamp_div(samples[i].re as i64 + others[i].re as i64, 1, 32_767),
            im: clamp_div(samples[i].im as i64 + others[i].im as i64, 1, 32_767),
        };
    }
}

// Returns whether `wanted` is the cancellation text for a recording of `samples`.
fn has_text(alloc: Global, samples: Vec<Sample>, wanted: &str) -> Result<bool, Fail> {
    let recording = Recording::new(samples).ok_or("30 ms")?;
    let text = cancel_text(alloc, &recording)?;
    Ok(text.as_str() == wanted)
}

#[test]
fn silence_has_no_cell_to_take_off(rt: HostRuntime) -> Result<(), Fail> {
    let samples = silent(rt.alloc(), 57_600)?;
    assert!(rt; has_text(rt.alloc(), samples, "cells 0\ncancelled none\n")?);
    rounds_in_plain_words();
    one_cancel_text();
    clean_cell_is_taken_first();
    Ok(())
}

const LONE: &str = "cells 1
cell 0 at 0 sfn 0 ports 1 n6 phich normal one br 0 spare 0
sib1 tac 1 cell 1 open allowed csg 0 - rx -70 offset - pmax - band 1 window ms1 tag 0 tdd - extension 0
plmn 001 01 free
si rf8 -
cancelled 0 gain 20 9 residue 0
power 81662490728 0
cells 0
cancelled none
";

#[test]
fn a_lone_cell_leaves_silence(rt: HostRuntime) -> Result<(), Fail> {
    let samples = sent(rt.alloc(), LOUD)?;
    assert!(rt; has_text(rt.alloc(), samples, LONE)?);
    Ok(())
}

const WIDER: &str = "cells 1
cell 0 at 0 sfn 0 ports 1 n50 phich normal one br 0 spare 0
sib1 none bandwidth n50
cancelled none
";

#[test]
fn a_wider_cell_has_no_plan(rt: HostRuntime) -> Result<(), Fail> {
    let samples = wide_cell(rt.alloc())?;
    assert!(rt; has_text(rt.alloc(), samples, WIDER)?);
    Ok(())
}

// Returns whether a round cancelled the plain cell with gain `gain`, and had the given power before and after.
fn is_round(round: &Round, gain: (i16, i16), before: u128, after: u128) -> bool {
    round.id.value() == 0
        && round.taken.gain == gain
        && round.taken.greatest == 999
        && round.taken.before == before
        && round.taken.after == after
}

// Returns whether a round's list has two cells, the second of which is `OTHER`.
fn lists_the_other(round: &Round) -> bool {
    match round.list.slice() {
        [_, other] => other.id.value() == 150,
        _ => false,
    }
}

// Returns whether the first of four rounds cancels the plain cell, and each other round what remains of the plain cell
// in the residual.
fn are_four(rounds: &[Round]) -> bool {
    let (all, less, more) = (82_530_174_415, 1_168_250_863, 1_515_079_615);
    match rounds {
        [first, second, third, fourth] => is_round(first, (18, 9), all, more)
            && is_round(second, (1, -1), more, less)
            && is_round(third, (-1, 1), less, more)
            && is_round(fourth, (1, -1), more, less),
        _ => false,
    }
}

#[test]
fn a_weaker_cell_is_found_and_four_rounds_are_made(rt: HostRuntime) -> Result<(), Fail> {
    let mut samples = sent(rt.alloc(), LOUD)?;
    let others = sent(rt.alloc(), OTHER)?;
    add(&mut samples[..], &others);
    let recording = Recording::new(samples).ok_or("30 ms")?;
    let mut work = Workspace::new(rt.alloc())?;
    let rounds = cancel_rounds(rt.alloc(), &recording, &mut work)?;
    assert!(rt; rounds.first.slice().len() == 1);
    assert!(rt; !rounds.ended);
    assert!(rt; are_four(&rounds.taken));
    assert!(rt; rounds.taken.iter().all(lists_the_other));
    Ok(())
}

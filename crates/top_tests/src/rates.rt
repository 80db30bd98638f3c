//! Recordings at a given sample rate. Expected values that the standard does not give are from the reference
//! implementation: `narrowed` of `python/lte_reference/wide_slots.py`, then `search.py` and `forms.py`.

use crate::samples_of_8_bits::quiet;
use crate::{
    Output, command_line, gives, gives_by, is_no_form, output_by, output_of, output_unread, sent_by,
};
use lte_top::{Program, Status};
use std::alloc::{AllocError, Global};
use std::process::Abort;
use std::test::Fail;
use test_support::{PLAIN_REPORT, silence};

// The option for each rate, with the rate's multiple of 1.92 million samples per second.
const RATES: [(&'static str, usize); 5] = [
    ("--rate 1.92", 1),
    ("--rate 3.84", 2),
    ("--rate 7.68", 4),
    ("--rate 15.36", 8),
    ("--rate 30.72", 16),
];

// ---- arguments

// Joins the front and the back of a command line by a space.
fn joined(alloc: Global, front: &str, back: &str) -> Result<String, AllocError> {
    format!(in alloc; "{front} {back}")
}

// Returns whether a command line selects a form of a program, which then reads its input.
fn is_form_read(
    alloc: Global,
    program: Program,
    front: &str,
    back: &str,
) -> Result<bool, AllocError> {
    let words = command_line(alloc, &joined(alloc, front, back)?)?;
    let (output, _) = output_unread(alloc, program, &words)?;
    Ok(output.status == Status::ReadFault)
}

// Returns whether a command line selects no form of a program.
fn is_of_no_form(
    alloc: Global,
    program: Program,
    front: &str,
    back: &str,
) -> Result<bool, AllocError> {
    is_no_form(
        alloc,
        program,
        &command_line(alloc, &joined(alloc, front, back)?)?,
    )
}

// Forms of `lte_cli` that take a rate, one a line.
const RECEIVED: &str = "hits
hits --json --format cu8
ids --json
ids --deep all --json
search
search --ports 2 --format cu8
search --ports 4 --json
search --prefix long
search --cancel
search --all --json --format cu8
evidence --ports 2
evidence --json --format cu8
why 503 --ports 4 --json
certify
certify --prefix long --format cu8";

// Forms of `lte_tune` that take a rate, one a line.
const TUNED: &str = "tell
apply
apply 0 --format cu8
apply -2048
tell --json --format cu8";

#[test]
fn each_report_takes_each_rate(rt: HostRuntime) -> Result<(), Fail> {
    for (program, forms) in [(Program::Receiver, RECEIVED), (Program::Tuner, TUNED)] {
        for front in forms.split('\n') {
            for (rate, _) in RATES {
                assert!(rt;
                    is_form_read(rt.alloc(), program, front, rate)?,
                    "{front} {rate}"
                );
            }
        }
    }
    Ok(())
}

// Words after `search` that are no rate, one case a line.
const NO_RATES: &str = "--rate
--rate 0
--rate 1
--rate 1.920
--rate 01.92
--rate 1,92
--rate +1.92
--rate 1.92e6
--rate 1920000
--rate 2.4
--rate 3.84M
--rate 11.52
--rate 23.04
--rate 61.44
--rate cu8
--rate 3.84 7.68
--rate 3.84 --rate 3.84
--rate 3.84 --json
--rate 3.84 --format cu8
--rate=3.84
3.84";

#[test]
fn no_other_rate_is_taken(rt: HostRuntime) -> Result<(), Fail> {
    for back in NO_RATES.split('\n') {
        assert!(rt;
            is_of_no_form(rt.alloc(), Program::Receiver, "search", back)?,
            "{back}"
        );
    }
    Ok(())
}

#[test]
fn forms_without_a_recording_take_no_rate(rt: HostRuntime) -> Result<(), Fail> {
    for (program, forms) in [
        (Program::Receiver, "check\ntransmit\nmake 7\nhelp\nversion"),
        (Program::Tuner, "help"),
    ] {
        for front in forms.split('\n') {
            assert!(rt;
                is_of_no_form(rt.alloc(), program, front, "--rate 1.92")?,
                "{front}"
            );
        }
    }
    Ok(())
}

// ---- silence

// Returns whether a command of `lte_cli` on `bytes` ends with `Done`, and writes exactly `text`.
fn gives_at(
    alloc: Global,
    front: &str,
    rate: &str,
    bytes: Vec<u8>,
    text: &str,
) -> Result<bool, AllocError> {
    gives(alloc, &joined(alloc, front, rate)?, bytes, text)
}

// Returns whether a command on silence at 3.84 million samples per second writes exactly `text`.
fn silence_gives(alloc: Global, front: &str, text: &str) -> Result<bool, AllocError> {
    gives_at(alloc, front, "--rate 3.84", silence(alloc, 460_800)?, text)
}

#[test]
fn each_report_of_silence(rt: HostRuntime) -> Result<(), Fail> {
    for (front, report) in [
        ("hits", "hits 0\n"),
        ("ids --json", "[]\n"),
        ("ids --deep all", "deep 0 of 5\n"),
        ("search --ports 2", "cells 0\n"),
        ("search --ports 4 --json", "[]\n"),
        ("search --prefix long", "cells 0\n"),
        ("search --cancel", "cells 0\ncancelled none\n"),
        ("search --all --json", "[]\n"),
        ("evidence", "evidence 0\n"),
        ("certify", ""),
    ] {
        assert!(rt; silence_gives(rt.alloc(), front, report)?, "{front}");
    }
    Ok(())
}

// Returns whether the cell list of a recording is empty.
fn lists_nothing(
    alloc: Global,
    front: &str,
    rate: &str,
    bytes: Vec<u8>,
) -> Result<bool, AllocError> {
    gives_at(alloc, front, rate, bytes, "cells 0\n")
}

#[test]
fn silence_is_listed_at_each_rate(rt: HostRuntime) -> Result<(), Fail> {
    let alloc = rt.alloc();
    for (rate, factor) in RATES {
        let zeros = silence(alloc, 230_400 * factor)?;
        assert!(rt; lists_nothing(alloc, "search", rate, zeros)?, "{rate}");
        let zeros = quiet(alloc, 115_200 * factor)?;
        assert!(rt;
            lists_nothing(alloc, "search --format cu8", rate, zeros)?,
            "{rate}"
        );
    }
    Ok(())
}

#[test]
fn silence_has_no_offset(rt: HostRuntime) -> Result<(), Fail> {
    let zeros = silence(rt.alloc(), 921_600)?;
    assert!(rt;
        gives_by(
            rt.alloc(),
            Program::Tuner,
            "tell --rate 7.68",
            zeros,
            "hits 0\n"
        )?
    );
    Ok(())
}

// ---- lengths

// Returns whether a command refuses `count` bytes of silence with a status and an exit code, and writes nothing.
fn is_refused_at(
    alloc: Global,
    rate: &str,
    count: usize,
    refusal: Status,
    code: u8,
) -> Result<bool, AllocError> {
    let line = joined(alloc, "hits", rate)?;
    Ok(output_of(alloc, &line, silence(alloc, count)?)?.is_refused(refusal, code))
}

#[test]
fn lengths_are_limited_in_time(rt: HostRuntime) -> Result<(), Fail> {
    for (rate, factor) in RATES {
        for (count, refusal, code) in [
            (0, Status::TooShort, 4),
            (230_400 * factor - 4, Status::TooShort, 4),
            (230_400 * factor - 1, Status::Ragged, 3),
            (230_400 * factor + 2, Status::Ragged, 3),
        ] {
            assert!(rt;
                is_refused_at(rt.alloc(), rate, count, refusal, code)?,
                "{rate}: {count} bytes"
            );
        }
    }
    Ok(())
}

// Runs a command on `count` bytes of value 127.
fn quiet_output(alloc: Global, line: &str, count: usize) -> Result<Output, AllocError> {
    output_of(alloc, line, quiet(alloc, count)?)
}

// Returns whether a command accepts `most` bytes, and refuses one byte more as too long.
fn is_longest(alloc: Global, line: &str, most: usize) -> Result<bool, AllocError> {
    let is_read = quiet_output(alloc, line, most)?.status == Status::Done;
    let longer = quiet_output(alloc, line, most.saturating_add(1))?;
    Ok(is_read && longer.is_refused(Status::TooLong, 5))
}

#[test]
fn one_second_is_the_maximum(rt: HostRuntime) -> Result<(), Fail> {
    for (line, most) in [
        ("certify --rate 1.92", 7_680_000),
        ("hits --rate 3.84", 15_360_000),
        ("hits --format cu8 --rate 7.68", 15_360_000),
    ] {
        assert!(rt; is_longest(rt.alloc(), line, most)?, "{line}");
    }
    Ok(())
}

// ---- cells

// Returns whether a command has the same nonempty output for `first` without a rate, and for `second` at 1.92 million
// samples per second.
fn agrees(
    alloc: Global,
    program: Program,
    front: &str,
    first: &[u8],
    second: &[u8],
) -> Result<bool, AllocError> {
    let plain = output_by(alloc, program, front, first.to_vec(alloc)?)?;
    let line = joined(alloc, front, "--rate 1.92")?;
    let rated = output_by(alloc, program, &line, second.to_vec(alloc)?)?;
    Ok(
        plain.status == Status::Done
            && !plain.written.is_empty()
            && rated.is(Status::Done, &plain.written),
    )
}

// Checks that commands of `lte_cli` have the same output for the plain cell with `--rate 1.92` as without: nothing is
// converted at this rate, and the recording is short.
fn have_the_same_reports(rt: &impl Abort, alloc: Global, fronts: &[&str]) -> Result<(), Fail> {
    let cell = sent_by(alloc, "")?.written;
    for front in fronts {
        assert!(rt;
            agrees(alloc, Program::Receiver, front, &cell, &cell)?,
            "{front}"
        );
    }
    Ok(())
}

#[test]
fn hits_and_reasons_at_1_92(rt: HostRuntime) -> Result<(), Fail> {
    have_the_same_reports(
        &rt,
        rt.alloc(),
        &["hits", "ids --json", "ids --deep", "why 3"],
    )
}

#[test]
fn lists_at_1_92(rt: HostRuntime) -> Result<(), Fail> {
    have_the_same_reports(&rt, rt.alloc(), &["search --json", "search --all"])
}

#[test]
fn rounds_at_1_92(rt: HostRuntime) -> Result<(), Fail> {
    have_the_same_reports(&rt, rt.alloc(), &["search --cancel"])
}

#[test]
fn evidence_at_1_92(rt: HostRuntime) -> Result<(), Fail> {
    have_the_same_reports(&rt, rt.alloc(), &["evidence", "evidence --all --json"])
}

#[test]
fn certificates_at_1_92(rt: HostRuntime) -> Result<(), Fail> {
    have_the_same_reports(&rt, rt.alloc(), &["certify"])
}

#[test]
fn corrections_at_1_92(rt: HostRuntime) -> Result<(), Fail> {
    let alloc = rt.alloc();
    let cell = sent_by(alloc, "")?.written;
    for front in ["apply", "apply 5", "apply -2048"] {
        assert!(rt;
            agrees(alloc, Program::Tuner, front, &cell, &cell)?,
            "{front}"
        );
    }
    Ok(())
}

// Returns whether a command of `lte_tune` writes silence for the same silence.
fn leaves_silence(alloc: Global, line: &str) -> Result<bool, AllocError> {
    let zeros = silence(alloc, 460_800)?;
    let output = output_by(alloc, Program::Tuner, line, zeros.clone()?)?;
    Ok(output.is(Status::Done, &zeros))
}

#[test]
fn corrected_silence_is_silence(rt: HostRuntime) -> Result<(), Fail> {
    for line in ["apply --rate 3.84", "apply 9 --rate 3.84"] {
        assert!(rt; leaves_silence(rt.alloc(), line)?, "{line}");
    }
    Ok(())
}

// Returns a recording in which each 16-bit sample of `bytes` is repeated `factor` times.
fn repeated(alloc: Global, bytes: &[u8], factor: usize) -> Result<Vec<u8>, AllocError> {
    let mut output = Vec::new(alloc);
    for sample in bytes.chunks(4) {
        for _ in 0..factor {
            output.extend_from_slice(sample)?;
        }
    }
    Ok(output)
}

#[test]
fn a_cell_is_listed_at_each_rate(rt: HostRuntime) -> Result<(), Fail> {
    let alloc = rt.alloc();
    let cell = sent_by(alloc, "")?.written;
    for (rate, factor) in RATES {
        let bytes = repeated(alloc, &cell, factor)?;
        assert!(rt;
            gives_at(alloc, "search", rate, bytes, PLAIN_REPORT)?,
            "{rate}"
        );
    }
    Ok(())
}

// The hits of the plain cell at 3.84 million samples per second, each sample twice.
const IDS: &str =
    "[{\"at\":0,\"energy\":1902696,\"identity\":0,\"n2\":0,\"peak\":3613690761337,\"power\":1996394,\"secondary\":\
{\"best\":{\"group\":0,\"score\":494746822566,\"subframe\":0},\"second\":{\"group\":166,\"score\":241102192736,\
\"subframe\":5}},\"subframe\":0,\"t\":832},{\"at\":0,\"energy\":1902756,\"identity\":0,\"n2\":0,\
\"peak\":3614051937956,\"power\":1996394,\"secondary\":{\"best\":{\"group\":0,\"score\":494638977928,\
\"subframe\":5},\"second\":{\"group\":166,\"score\":241215183618,\"subframe\":0}},\"subframe\":5,\"t\":10432}]\n";

// The estimate of the plain cell at 15.36 million samples per second, each sample eight times.
const ESTIMATE: &str =
    "{\"candidates\":[{\"coarse\":0,\"energy\":1876516,\"peak\":3216136772242,\"power\":1996394,\"turn\":0},\
{\"coarse\":8,\"energy\":1882049,\"peak\":3022433868625,\"power\":1996394,\"turn\":251},{\"coarse\":-12,\
\"energy\":1868418,\"peak\":2975850952850,\"power\":1996394,\"turn\":-377},{\"coarse\":-8,\"energy\":1759115,\
\"peak\":2092514232785,\"power\":1996394,\"turn\":-248}],\"told\":{\"cells\":1,\"hits\":2,\"turn\":0}}\n";

#[test]
fn hits_are_those_of_the_converted_samples(rt: HostRuntime) -> Result<(), Fail> {
    let alloc = rt.alloc();
    let twice = repeated(alloc, &sent_by(alloc, "")?.written, 2)?;
    assert!(rt; gives(alloc, "ids --json --rate 3.84", twice, IDS)?);
    Ok(())
}

#[test]
fn the_offset_is_that_of_the_converted_samples(rt: HostRuntime) -> Result<(), Fail> {
    let alloc = rt.alloc();
    let often = repeated(alloc, &sent_by(alloc, "")?.written, 8)?;
    let line = "tell --json --rate 15.36";
    assert!(rt; gives_by(alloc, Program::Tuner, line, often, ESTIMATE)?);
    Ok(())
}

// Checks that samples after the first 170 ms, here of large magnitude, have no effect on a command with a rate.
fn ends_early(rt: &impl Abort, alloc: Global, program: Program, front: &str) -> Result<(), Fail> {
    let mut first = sent_by(alloc, "")?.written;
    first.extend_from_slice(&silence(alloc, 1_305_600 - 230_400)?)?;
    let mut longer = first.clone()?;
    longer.extend_from_slice(&quiet(alloc, 40_000)?)?;
    assert!(rt; agrees(alloc, program, front, &first, &longer)?, "{front}");
    Ok(())
}

#[test]
fn later_samples_have_no_effect_on_rounds(rt: HostRuntime) -> Result<(), Fail> {
    ends_early(&rt, rt.alloc(), Program::Receiver, "search --cancel")
}

#[test]
fn later_samples_have_no_effect_on_certificates(rt: HostRuntime) -> Result<(), Fail> {
    ends_early(&rt, rt.alloc(), Program::Receiver, "certify")
}

#[test]
fn later_samples_have_no_effect_on_the_offset(rt: HostRuntime) -> Result<(), Fail> {
    ends_early(&rt, rt.alloc(), Program::Tuner, "tell --json")
}

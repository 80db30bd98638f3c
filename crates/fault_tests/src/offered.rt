//! The bytes that each call of a sink is offered: always the rest of a piece. Each piece except the last has at least
//! 4,096 bytes.

use crate::forms::{APPLYING, Form, OTHERS, PAGES, REASONS, REPORTS, SENDING, TELLING};
use crate::inputs::{bytes_of, description_with, recording, sixteen_cells};
use cs_outside::{MemSource, StdSink};
use lte_top::{Program, Status, run_program};
use run_support::command_line;
use std::alloc::{AllocError, Global};
use std::io;
use std::io::Write;
use std::process::Abort;
use std::test::Fail;

// The minimum length of a piece, except for the last.
const LEAST: usize = 4_096;

// A number of calls that no run reaches.
const CALLS: usize = 1_000_000;

// The maximum byte count that a call accepts, so low that a piece needs several calls.
const MOST: usize = 3_000;

// The length of the plain cell's recording.
const PLAIN: usize = 230_400;

// A writer that accepts at most `most` bytes a call, and no byte from call `fails`. The writer records how many bytes
// each call is offered.
#[derive(Drop)]
struct Recorder {
    offered: Vec<usize>,
    most: usize,
    fails: usize,
}

impl Write for Recorder {
    fn write(&mut self, piece: &[u8]) -> io::Result<usize> {
        let fails = self.offered.len() >= self.fails;
        if self.offered.push(piece.len()).is_err() || fails {
            return Ok(0);
        }
        Ok(piece.len().min(self.most))
    }

    fn flush(&mut self) -> io::Result<()> {
        Ok(())
    }
}

// An output's pieces, reconstructed from calls that accept at most `most` bytes each: the number of pieces, their total
// bytes, the bytes left of the current piece, whether the current piece is short, and whether all calls so far are as
// expected.
#[derive(Drop)]
struct Pieces {
    most: usize,
    count: usize,
    bytes: usize,
    left: usize,
    is_short: bool,
    are_right: bool,
}

impl Pieces {
    // Returns the pieces for calls that are offered the byte counts in `offered`.
    fn of(offered: &[usize], most: usize) -> Pieces {
        let mut pieces = Pieces {
            most,
            count: 0,
            bytes: 0,
            left: 0,
            is_short: false,
            are_right: true,
        };
        for &bytes in offered {
            pieces.add(bytes);
        }
        pieces
    }

    // Adds a call, which begins a piece or is offered the rest of a piece.
    fn add(&mut self, offered: usize) {
        if self.left == 0 {
            self.are_right = self.are_right && !self.is_short;
            self.is_short = offered < LEAST;
            self.count = self.count.saturating_add(1);
            self.bytes = self.bytes.saturating_add(offered);
        } else {
            self.are_right = self.are_right && offered == self.left;
        }
        self.left = offered.saturating_sub(self.most);
    }

    // Returns whether every piece is complete, each call is offered the rest of its piece, and only the last piece may
    // be short.
    fn are_whole(&self) -> bool {
        self.are_right && self.left == 0
    }
}

// How a run ended, and how many bytes each call of its sink was offered.
#[derive(Drop)]
struct Run {
    status: Status,
    offered: Vec<usize>,
    most: usize,
}

impl Run {
    // Runs a command on `bytes`, into a recorder.
    fn new(
        alloc: Global,
        program: Program,
        line: &str,
        bytes: Vec<u8>,
        most: usize,
        fails: usize,
    ) -> Result<Run, AllocError> {
        let words = command_line(alloc, line)?;
        let mut recorder = Recorder {
            offered: Vec::new(alloc),
            most,
            fails,
        };
        let mut source = MemSource::new(bytes);
        let mut sink = StdSink::new(&mut recorder);
        let status = run_program(alloc, program, &words, &mut source, &mut sink);
        Ok(Run {
            status,
            offered: recorder.offered,
            most,
        })
    }

    // Returns whether the run is done, and wrote `bytes` bytes in complete pieces.
    fn is_written(&self, bytes: usize) -> bool {
        let pieces = Pieces::of(&self.offered, self.most);
        self.status == Status::Done && pieces.are_whole() && pieces.bytes == bytes
    }

    // Returns whether the run is done, and its output is one piece.
    fn is_one_piece(&self) -> bool {
        let pieces = Pieces::of(&self.offered, self.most);
        self.status == Status::Done && pieces.are_whole() && pieces.count == 1
    }

    // Returns whether the run is done, and wrote `count` pieces, none of which is short.
    fn is_long_pieces(&self, count: usize) -> bool {
        let pieces = Pieces::of(&self.offered, self.most);
        self.status == Status::Done
            && pieces.are_whole()
            && !pieces.is_short
            && pieces.count == count
    }

    // Returns whether the run ended at call `call`, which failed.
    fn ends_with(&self, call: usize) -> bool {
        self.status == Status::WriteFault && self.offered.len() == call.saturating_add(1)
    }
}

// Checks that the recordings of descriptions with `change` are written in complete pieces.
fn sends_from(rt: &impl Abort, alloc: Global, change: &str) -> Result<(), Fail> {
    for (line, input) in SENDING {
        let bytes = description_with(alloc, input, change)?;
        let run = Run::new(alloc, Program::Receiver, line, bytes, MOST, CALLS)?;
        assert!(rt; run.is_written(PLAIN), "{line} {change}");
    }
    Ok(())
}

#[test]
fn what_is_sent_from_the_first_samples_is_in_whole_pieces(rt: HostRuntime) -> Result<(), Fail> {
    sends_from(&rt, rt.alloc(), ", \"offset\": 0")?;
    sends_from(&rt, rt.alloc(), ", \"offset\": 1")
}

#[test]
fn what_is_sent_from_within_a_frame_is_in_whole_pieces(rt: HostRuntime) -> Result<(), Fail> {
    sends_from(&rt, rt.alloc(), ", \"offset\": 5115")
}

// The first frame has 1,023 samples, one too few for a piece, or only one sample.
#[test]
fn what_is_sent_from_the_last_samples_is_in_whole_pieces(rt: HostRuntime) -> Result<(), Fail> {
    sends_from(&rt, rt.alloc(), ", \"offset\": 18177")?;
    sends_from(&rt, rt.alloc(), ", \"offset\": 19199")
}

#[test]
fn a_turned_recording_is_written_in_whole_pieces(rt: HostRuntime) -> Result<(), Fail> {
    let alloc = rt.alloc();
    for (line, input) in APPLYING {
        let bytes = bytes_of(alloc, input)?;
        let run = Run::new(alloc, Program::Tuner, line, bytes, MOST, CALLS)?;
        assert!(rt; run.is_written(PLAIN), "{line}");
    }
    Ok(())
}

#[test]
fn a_certificate_is_a_piece(rt: HostRuntime) -> Result<(), Fail> {
    let alloc = rt.alloc();
    let one = recording(alloc)?;
    let run = Run::new(alloc, Program::Receiver, "certify", one, MOST, CALLS)?;
    assert!(rt; run.is_long_pieces(1));
    let many = sixteen_cells(alloc)?;
    let run = Run::new(alloc, Program::Receiver, "certify", many, MOST, CALLS)?;
    assert!(rt; run.is_long_pieces(16));
    Ok(())
}

// Checks that the output of each form in `forms` is one piece.
fn are_one_piece(
    rt: &impl Abort,
    alloc: Global,
    program: Program,
    forms: &[Form],
) -> Result<(), Fail> {
    for &(line, input) in forms {
        let run = Run::new(alloc, program, line, bytes_of(alloc, input)?, 7, CALLS)?;
        assert!(rt; run.is_one_piece(), "{line} {input:?}");
    }
    Ok(())
}

#[test]
fn each_other_output_of_the_receiver_is_one_piece(rt: HostRuntime) -> Result<(), Fail> {
    are_one_piece(&rt, rt.alloc(), Program::Receiver, &REPORTS)?;
    are_one_piece(&rt, rt.alloc(), Program::Receiver, &REASONS)?;
    are_one_piece(&rt, rt.alloc(), Program::Receiver, &OTHERS)?;
    are_one_piece(&rt, rt.alloc(), Program::Receiver, &PAGES)
}

#[test]
fn each_other_output_of_the_tuner_is_one_piece(rt: HostRuntime) -> Result<(), Fail> {
    are_one_piece(&rt, rt.alloc(), Program::Tuner, &TELLING)?;
    are_one_piece(&rt, rt.alloc(), Program::Tuner, &PAGES)
}

// Checks that no call follows a failed one, with a writer whose other calls accept everything.
fn end_with_calls(
    rt: &impl Abort,
    alloc: Global,
    program: Program,
    line: &str,
    bytes: &Vec<u8>,
    calls: &[usize],
) -> Result<(), Fail> {
    for &call in calls {
        let run = Run::new(alloc, program, line, bytes.clone()?, usize::MAX, call)?;
        assert!(rt; run.ends_with(call), "{line} call {call}");
    }
    Ok(())
}

// The 230,400 bytes of the recording are 15 pieces.
#[test]
fn no_call_follows_one_that_fails_where_samples_are_sent(rt: HostRuntime) -> Result<(), Fail> {
    let alloc = rt.alloc();
    for (line, input) in SENDING {
        let bytes = description_with(alloc, input, ", \"offset\": 19199")?;
        end_with_calls(&rt, alloc, Program::Receiver, line, &bytes, &[0, 1, 14])?;
    }
    Ok(())
}

#[test]
fn no_call_follows_one_that_fails_where_a_recording_is_turned(rt: HostRuntime) -> Result<(), Fail> {
    let alloc = rt.alloc();
    let bytes = recording(alloc)?;
    end_with_calls(&rt, alloc, Program::Tuner, "apply -5", &bytes, &[0, 1, 14])
}

#[test]
fn no_call_follows_one_that_fails_where_cells_are_certified(rt: HostRuntime) -> Result<(), Fail> {
    let alloc = rt.alloc();
    let bytes = sixteen_cells(alloc)?;
    end_with_calls(&rt, alloc, Program::Receiver, "certify", &bytes, &[0, 15])
}

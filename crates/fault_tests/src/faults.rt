//! Runs in which each call to a source or a sink fails once, and runs with one-byte pieces.

use crate::forms::{
    APPLYING, AS_JSON, AT_RATES, BY_OTHER_RULES, BY_OTHER_RULES_AND_WORDS, CANCELLING,
    EVIDENCE_OF_ALL, Form, OF_8_BITS, OF_8_BITS_AS_JSON, OF_ALL, OF_LISTS_BY_OTHER_RULES, OTHERS,
    PAGES, REASONS, REPORTS, SENDING, TELLING,
};
use crate::inputs::{Input, bytes_of, recording};
use cs_outside::{FailSink, FailSource, MemSource, StdSink, StdSource};
use lte_top::{Program, Status, Words, run};
use run_support::{Output, ROOM, command_line, output_by, output_from, output_into, output_of};
use std::alloc::{AllocError, Global};
use std::io;
use std::io::Write;
use std::process::Abort;
use std::test::Fail;
use test_support::silence;

// The maximum byte count of a call.
const MOST: usize = 65_536;

// A number of calls that no run reaches.
const CALLS: u64 = 1_000;

// The kind of call that fails.
#[derive(Clone, Copy)]
enum Fault {
    Read,
    Write,
}

// A program with its arguments and its input (`bytes`), and its output if no call fails (`whole`).
#[derive(Drop)]
struct Case {
    program: Program,
    words: Words,
    bytes: Vec<u8>,
    whole: Output,
}

impl Case {
    // Creates a case by running a form without failing calls.
    fn new(alloc: Global, program: Program, form: Form) -> Result<Case, AllocError> {
        let (line, input) = form;
        let words = command_line(alloc, line)?;
        let bytes = bytes_of(alloc, input)?;
        let whole = output_by(alloc, program, line, bytes.clone()?)?;
        Ok(Case {
            program,
            words,
            bytes,
            whole,
        })
    }

    // Runs the case with one failing call. The sink has room for exactly the complete output.
    fn output_at(&self, alloc: Global, fault: Fault, call: u64) -> Result<Output, AllocError> {
        let (program, words) = (self.program, &self.words);
        let fails = vec![in alloc; call; 1]?;
        match fault {
            Fault::Read => {
                let mut source = FailSource::new(self.bytes.clone()?, fails, MOST);
                output_from(alloc, program, words, &mut source)
            }
            Fault::Write => {
                let mut source = MemSource::new(self.bytes.clone()?);
                let mut sink = FailSink::new(alloc, fails, MOST, self.whole.written.len())?;
                output_into(alloc, program, words, &mut source, &mut sink)
            }
        }
    }

    // Returns whether a failed read leaves no output, and a failed write a prefix of the complete output.
    fn is_answered(&self, fault: Fault, output: &Output) -> bool {
        match fault {
            Fault::Read => output.is(Status::ReadFault, b""),
            Fault::Write => {
                output.status == Status::WriteFault
                    && output.written.len() < self.whole.written.len()
                    && self.whole.written.starts_with(&output.written)
            }
        }
    }

    // Returns whether `faults` is a plausible number of calls that can fail for an input.
    fn has_faults(&self, fault: Fault, input: Input, faults: u64) -> bool {
        match fault {
            Fault::Read => {
                faults >= least_reads(input, self.bytes.len())
                    && (faults == 0) == (input == Input::Nothing)
            }
            Fault::Write => {
                let len = self.whole.written.len();
                len > 0 && faults >= least_writes(len)
            }
        }
    }
}

// Returns the minimum number of reads for an input of `len` bytes, with the read that returns the end.
fn least_reads(input: Input, len: usize) -> u64 {
    match input {
        Input::Nothing => 0,
        _ => least_writes(len).saturating_add(1),
    }
}

// Returns the minimum number of writes for `len` bytes.
fn least_writes(len: usize) -> u64 {
    len.div_ceil(MOST) as u64
}

// Counts the calls of a form that can fail: makes each fail in turn, until a run is complete.
fn faults_of(
    rt: &impl Abort,
    alloc: Global,
    form: Form,
    case: &Case,
    fault: Fault,
) -> Result<u64, Fail> {
    let (line, input) = form;
    for call in 0..CALLS {
        let output = case.output_at(alloc, fault, call)?;
        if output.is(Status::Done, &case.whole.written) {
            return Ok(call);
        }
        assert!(rt;
            case.is_answered(fault, &output),
            "{line} {input:?} call {call}"
        );
    }
    Ok(CALLS)
}

// Checks that each run of each form with one failing call reports that call's fault.
fn fail_each(rt: &impl Abort, alloc: Global, program: Program, forms: &[Form]) -> Result<(), Fail> {
    for &(line, input) in forms {
        let case = Case::new(alloc, program, (line, input))?;
        assert!(rt; case.whole.status == Status::Done, "{line} {input:?}");
        for fault in [Fault::Read, Fault::Write] {
            let faults = faults_of(rt, alloc, (line, input), &case, fault)?;
            assert!(rt;
                faults < CALLS && case.has_faults(fault, input, faults),
                "{line} {input:?}"
            );
        }
    }
    Ok(())
}

#[test]
fn each_call_of_reports_that_fails_is_a_fault(rt: HostRuntime) -> Result<(), Fail> {
    fail_each(&rt, rt.alloc(), Program::Receiver, &REPORTS)
}

#[test]
fn each_call_of_reports_as_json_that_fails_is_a_fault(rt: HostRuntime) -> Result<(), Fail> {
    fail_each(&rt, rt.alloc(), Program::Receiver, &AS_JSON)
}

#[test]
fn each_call_of_forms_of_8_bits_that_fails_is_a_fault(rt: HostRuntime) -> Result<(), Fail> {
    fail_each(&rt, rt.alloc(), Program::Receiver, &OF_8_BITS)
}

#[test]
fn each_call_of_forms_of_8_bits_as_json_that_fails_is_a_fault(rt: HostRuntime) -> Result<(), Fail> {
    fail_each(&rt, rt.alloc(), Program::Receiver, &OF_8_BITS_AS_JSON)
}

#[test]
fn each_call_of_forms_with_a_rate_that_fails_is_a_fault(rt: HostRuntime) -> Result<(), Fail> {
    fail_each(&rt, rt.alloc(), Program::Receiver, &AT_RATES)
}

#[test]
fn each_call_of_forms_by_other_rules_that_fails_is_a_fault(rt: HostRuntime) -> Result<(), Fail> {
    fail_each(&rt, rt.alloc(), Program::Receiver, &BY_OTHER_RULES)
}

#[test]
fn each_call_of_lists_by_other_rules_and_words_that_fails_is_a_fault(
    rt: HostRuntime,
) -> Result<(), Fail> {
    fail_each(
        &rt,
        rt.alloc(),
        Program::Receiver,
        &BY_OTHER_RULES_AND_WORDS,
    )
}

#[test]
fn each_failing_call_in_lists_by_other_rules_is_a_fault(rt: HostRuntime) -> Result<(), Fail> {
    fail_each(&rt, rt.alloc(), Program::Receiver, &OF_LISTS_BY_OTHER_RULES)
}

#[test]
fn each_call_of_reasons_that_fails_is_a_fault(rt: HostRuntime) -> Result<(), Fail> {
    fail_each(&rt, rt.alloc(), Program::Receiver, &REASONS)
}

#[test]
fn each_call_of_lists_of_what_is_left_that_fails_is_a_fault(rt: HostRuntime) -> Result<(), Fail> {
    fail_each(&rt, rt.alloc(), Program::Receiver, &CANCELLING)
}

#[test]
fn each_call_of_lists_of_every_carrier_that_fails_is_a_fault(rt: HostRuntime) -> Result<(), Fail> {
    fail_each(&rt, rt.alloc(), Program::Receiver, &OF_ALL)
}

#[test]
fn each_call_of_evidence_of_every_list_that_fails_is_a_fault(rt: HostRuntime) -> Result<(), Fail> {
    fail_each(&rt, rt.alloc(), Program::Receiver, &EVIDENCE_OF_ALL)
}

#[test]
fn each_call_of_forms_that_send_that_fails_is_a_fault(rt: HostRuntime) -> Result<(), Fail> {
    fail_each(&rt, rt.alloc(), Program::Receiver, &SENDING)
}

#[test]
fn each_call_of_other_forms_that_fails_is_a_fault(rt: HostRuntime) -> Result<(), Fail> {
    fail_each(&rt, rt.alloc(), Program::Receiver, &OTHERS)
}

#[test]
fn each_call_of_pages_of_the_receiver_that_fails_is_a_fault(rt: HostRuntime) -> Result<(), Fail> {
    fail_each(&rt, rt.alloc(), Program::Receiver, &PAGES)
}

#[test]
fn each_failing_call_in_a_report_is_a_fault(rt: HostRuntime) -> Result<(), Fail> {
    fail_each(&rt, rt.alloc(), Program::Tuner, &TELLING)
}

#[test]
fn each_call_of_what_is_applied_that_fails_is_a_fault(rt: HostRuntime) -> Result<(), Fail> {
    fail_each(&rt, rt.alloc(), Program::Tuner, &APPLYING)
}

#[test]
fn each_call_of_pages_of_the_tuner_that_fails_is_a_fault(rt: HostRuntime) -> Result<(), Fail> {
    fail_each(&rt, rt.alloc(), Program::Tuner, &PAGES)
}

// Returns whether a run of `search` lists exactly the recording's cell, and writes the same output as `whole`.
fn states_the_cell(output: &Output, whole: &Output) -> bool {
    output.written.starts_with(b"cells 1\ncell 0 at 0 sfn 0 ")
        && output.is(Status::Done, &whole.written)
}

#[test]
fn reads_of_one_byte_change_nothing(rt: HostRuntime) -> Result<(), Fail> {
    let alloc = rt.alloc();
    let words = command_line(alloc, "search")?;
    let bytes = recording(alloc)?;
    let whole = output_of(alloc, "search", bytes.clone()?)?;
    let mut source = FailSource::new(bytes, Vec::new(alloc), 1);
    let output = output_from(alloc, Program::Receiver, &words, &mut source)?;
    assert!(rt; states_the_cell(&output, &whole));
    Ok(())
}

#[test]
fn writes_of_one_byte_change_nothing(rt: HostRuntime) -> Result<(), Fail> {
    let alloc = rt.alloc();
    let words = command_line(alloc, "ids")?;
    let mut sink = FailSink::new(alloc, Vec::new(alloc), 1, ROOM)?;
    let mut source = MemSource::new(recording(alloc)?);
    let output = output_into(alloc, Program::Receiver, &words, &mut source, &mut sink)?;
    assert!(rt; output.is(Status::Done, b"ids 2\n832 0 0 0\n10432 0 5 0\n"));
    Ok(())
}

// A writer that accepts no byte, and counts the calls.
#[derive(Drop)]
struct Stuck {
    pieces: u64,
}

impl Write for Stuck {
    fn write(&mut self, _piece: &[u8]) -> io::Result<usize> {
        self.pieces = self.pieces.saturating_add(1);
        Ok(0)
    }

    fn flush(&mut self) -> io::Result<()> {
        Ok(())
    }
}

#[test]
fn a_writer_that_takes_nothing_is_a_write_fault(rt: HostRuntime) -> Result<(), Fail> {
    let alloc = rt.alloc();
    let words = command_line(alloc, "search")?;
    let bytes = silence(alloc, 230_400)?;
    let mut writer = Stuck { pieces: 0 };
    let status = run(
        alloc,
        &words,
        &mut StdSource::new(bytes.as_slice()),
        &mut StdSink::new(&mut writer),
    );
    assert!(rt; status == Status::WriteFault && writer.pieces == 1);
    Ok(())
}

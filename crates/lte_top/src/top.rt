//! The top-level calls.
//!
//! A run reads at most one byte past the input's limit. If the source reports its bytes, the answer depends only on
//! those bytes, except for failed allocations and counted faults.

ghost use Rattle.std.specs.Prelude.{◌≡◌, ◌≤◌, length, IfErr, OnOk, OnErr};
ghost use Rattle.cs_outside.specs.Counts.{Rose};
ghost use Rattle.cs_outside.specs.Outside.{SourceState, SinkState};
ghost use Rattle.cs_outside.specs.Streams.{HasWritten, HasWrittenFront, IsShortOf};
ghost use Rattle.lte_top.specs.Memory.{in_memory, taken_by};
ghost use Rattle.lte_top.specs.Run.{IsDone, Ends, Outcome, Runs};
ghost use Rattle.lte_args.specs.declared.form.Program.TheVariants.{Receiver};
ghost use Rattle.lte_top.specs.declared.status.Status.TheVariants.{WriteFault};

use crate::certifying::{answers_text, certify_recording};
use crate::making::made_text;
use crate::pages::page_text;
use crate::reporting::report_text;
use crate::status::Status;
use crate::transmitting::transmit;
use crate::tuning::apply_turn;
use cs_outside::{Failed, MemSink, MemSource, Sink, Source, write_whole};
use lte_args::{Form, Program, Words};
use std::alloc::Global;

/// Runs the command that `words` select. The sink receives the complete output if the status is `Done`, a prefix of the
/// output if it is `WriteFault`, and nothing otherwise.
pub fn run_program<S: Source, K: Sink>(
    alloc: Global,
    program: Program,
    words: &Words,
    source: &mut S,
    sink: &mut K,
) -> Status
    ensures { Runs program words.now
        (S.state source.old, K.state sink.old) (S.state source.new, K.state sink.new) result }
{
    run_words(alloc, program, words, source, sink)
}

/// Runs a command of `lte_cli`, as `run_program` does.
pub fn run<S: Source, K: Sink>(alloc: Global, words: &Words, source: &mut S, sink: &mut K) -> Status
    ensures { Runs Receiver words.now
        (S.state source.old, K.state sink.old) (S.state source.new, K.state sink.new) result }
{
    run_program(alloc, Program::Receiver, words, source, sink)
}

/// Runs a command of `lte_cli`, as `run_program` does, on a source and a sink in memory.
pub fn run_in_memory(
    alloc: Global,
    words: &Words,
    source: &mut MemSource,
    sink: &mut MemSink,
) -> Status
    ensures { Runs Receiver words.now
        (in_memory source.old, taken_by sink.old) (in_memory source.new, taken_by sink.new) result }
{
    run(alloc, words, source, sink)
}

// Runs either program. The contracts of the published calls follow from this contract.
fn run_words<S: Source, K: Sink>(
    alloc: Global,
    program: Program,
    words: &Words,
    source: &mut S,
    sink: &mut K,
) -> Status
    ensures outcome { Outcome program words.now
        (S.state source.old, K.state sink.old) (S.state source.new, K.state sink.new) result }
    ensures reads { (S.state source.old).faults ≤ (S.state source.new).faults }
    ensures writes { (K.state sink.old).faults ≤ (K.state sink.new).faults }
{
    let Some(form) = Form::of(program, words) else {
        return Status::Usage;
    };
    match run_form(alloc, form, source, sink) {
        Ok(()) => Status::Done,
        Err(status) => status,
    }
}

// Runs a command form. The forms' functions are not inlined, to limit a run's stack to its own form.
fn run_form<S: Source, K: Sink>(
    alloc: Global,
    form: Form,
    source: &mut S,
    sink: &mut K,
) -> Result<(), Status>
    ensures done { OnOk result (IsDone form
        (S.state source.old, K.state sink.old) (S.state source.new, K.state sink.new)) }
    ensures ended { IfErr result (Ends form
        (S.state source.old, K.state sink.old) (S.state source.new, K.state sink.new)) }
    ensures reads { (S.state source.old).faults ≤ (S.state source.new).faults }
    ensures writes { (K.state sink.old).faults ≤ (K.state sink.new).faults }
{
    match form {
        Form::Report(report, output, recording) => {
            let text = report_text(alloc, report, output, recording, source)?;
            write_output(sink, text.as_bytes())
        }
        Form::Certify(carrier, recording) => {
            certify_recording(alloc, carrier, recording, source, sink)
        }
        Form::Check => {
            let text = answers_text(alloc, source)?;
            write_output(sink, text.as_bytes())
        }
        Form::Transmit(carrier, load) => transmit(alloc, carrier, load, source, sink),
        Form::Make(carrier, n) => {
            let text = made_text(alloc, carrier, n)?;
            write_output(sink, text.as_bytes())
        }
        Form::Apply(turn, recording) => apply_turn(alloc, turn, recording, source, sink),
        Form::Print(program, page) => {
            let text = page_text(alloc, program, page)?;
            write_output(sink, text.as_bytes())
        }
    }
}

// Writes the complete output, or returns `WriteFault` after a prefix of it.
fn write_output<K: Sink>(sink: &mut K, output: &[u8]) -> Result<(), Status>
    ensures ok { OnOk result (HasWritten output.now (K.state sink.old) (K.state sink.new)) }
    ensures status { IfErr result (λ status. status ≡ WriteFault) }
    ensures front { OnErr result (HasWrittenFront output.now (K.state sink.old) (K.state sink.new)) }
    ensures full { OnErr result (IsShortOf (length output.now) (K.state sink.old)) }
    ensures fault { OnErr result (Rose (K.state sink.old).faults (K.state sink.new).faults) }
    ensures never_falls { (K.state sink.old).faults ≤ (K.state sink.new).faults }
{
    match write_whole(sink, output) {
        Ok(()) => Ok(()),
        Err(Failed) => Err(Status::WriteFault),
    }
}

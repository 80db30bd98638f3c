//! The programs' command forms.

ghost use Rattle.std.specs.Prelude.{◌≡◌, ◌^◌, IfSome, IsNone, map, string_bytes};
ghost use Rattle.lte_args.specs.Words.{name_of, exponent_of, IsWordsOf, IsNoForm};
ghost use Rattle.lte_args.specs.declared.form.Program.TheVariants.{Receiver, Tuner};

use crate::parts::{
    apply_parts, certify_parts, deep_parts, evidence_parts, is_only, make_parts, page_of,
    report_parts, search_parts, transmit_parts, why_parts,
};
use crate::words::Words;
use lte_types::{Carrier, CellId};
use sample_file::SampleForm;

/// A program with its own command forms.
#[derive(Clone, Copy, Debug, PartialEq, Eq)]
pub enum Program {
    /// `lte_cli`: searches a recording for cells, and makes recordings.
    Receiver,
    /// `lte_tune`: estimates and corrects the frequency offset of a recording.
    Tuner,
}

impl Program {
    /// Returns the program's name.
    pub fn name(self) -> &'static str
        ensures { result.now ≡ name_of self }
    {
        match self {
            Program::Receiver => "lte_cli",
            Program::Tuner => "lte_tune",
        }
    }
}

/// The input of a command that reads a recording. The option `--format cu8` selects 8-bit samples; the default is
/// 16-bit samples. The option `--rate R` gives the sample rate.
#[derive(Clone, Copy, Debug, PartialEq, Eq)]
pub struct RecordingForm {
    /// The sample format.
    pub samples: SampleForm,
    /// The sample rate. With `None` the recording has 1.92 million samples per second, and all its samples count. With
    /// a rate its first 170 ms count, converted to 1.92 million samples per second.
    pub rate: Option<Rate>,
}

/// A sample rate: 1, 2, 4, 8 or 16 times 1.92 million samples per second.
#[derive(Clone, Copy, Debug, PartialEq, Eq)]
pub enum Rate {
    /// `1.92`: 1.92 million samples per second.
    Times1,
    /// `3.84`: 3.84 million samples per second.
    Times2,
    /// `7.68`: 7.68 million samples per second.
    Times4,
    /// `15.36`: 15.36 million samples per second.
    Times8,
    /// `30.72`: 30.72 million samples per second.
    Times16,
}

impl Rate {
    /// Returns the rate's exponent r, 0 to 4: the rate is 1.92 * 2^r million samples per second.
    pub fn exponent(self) -> u8
        ensures { result ≡ exponent_of self }
    {
        match self {
            Rate::Times1 => 0,
            Rate::Times2 => 1,
            Rate::Times4 => 2,
            Rate::Times8 => 3,
            Rate::Times16 => 4,
        }
    }

    /// Returns the rate as a multiple of 1.92 million samples per second: 2^r for exponent r.
    pub fn factor(self) -> usize
        ensures { result ≡ 2 ^ exponent_of self }
    {
        match self {
            Rate::Times1 => 1,
            Rate::Times2 => 2,
            Rate::Times4 => 4,
            Rate::Times8 => 8,
            Rate::Times16 => 16,
        }
    }
}

/// A command form: a command followed by its options in a fixed order.
#[derive(Clone, Copy, Debug, PartialEq, Eq)]
pub enum Form {
    /// A report about a recording in the given output format.
    Report(Report, Output, RecordingForm),
    /// `certify`: a certificate for the MIB of each listed cell.
    Certify(Carrier, RecordingForm),
    /// `check`: an answer to each certificate on the input.
    Check,
    /// `transmit`: the samples of a described cell, with load number N if `--load N` is given.
    Transmit(Carrier, Option<u32>),
    /// `make N`: the cell list of synthetic recording number N under a transmission scheme.
    Make(Carrier, u32),
    /// `apply`: a frequency-corrected recording, in 16-bit samples at the rate of the input.
    Apply(Turn, RecordingForm),
    /// A page about a program.
    Print(Program, Page),
}

/// A report about a recording.
#[derive(Clone, Copy, Debug, PartialEq, Eq)]
pub enum Report {
    /// `hits`: the PSS detections.
    Hits,
    /// `ids`: the PSS detections, each with its cell identity and frame start.
    Ids,
    /// `ids --deep`: the cells that are detected over many half-frames.
    Deep(Span),
    /// `search`: the cell list under a rule.
    Search(Rule),
    /// `evidence`: the evidence for each listed cell.
    Evidence(Lists),
    /// `tell`: the frequency offset.
    Tell,
    /// `why PCI`: the reasons why a cell identity is in the cell list of a transmission scheme, or is not.
    Why(CellId, Carrier),
}

/// The samples that `ids --deep` uses.
#[derive(Clone, Copy, Debug, PartialEq, Eq)]
pub enum Span {
    /// The first 170 ms, the default.
    First,
    /// `all`: all samples of a recording without a rate. With a rate, the first 170 ms too.
    All,
}

/// Which cell lists a report covers: one, or all.
#[derive(Clone, Copy, Debug, PartialEq, Eq)]
pub enum Lists {
    /// The list for one transmission scheme, selected as in `Rule::Of`.
    Of(Carrier),
    /// `--all`: the lists for all transmission schemes.
    All,
}

/// Which cell list `search` writes.
#[derive(Clone, Copy, Debug, PartialEq, Eq)]
pub enum Rule {
    /// The cells with one transmission scheme. The default is one antenna port; `--ports 2`, `--ports 4` and `--prefix
    /// long` (the extended cyclic prefix) select the others.
    Of(Carrier),
    /// `--cancel`: the cell list, and the list of the residual after each listed cell is cancelled.
    Cancel,
    /// `--all`: one cell list per transmission scheme.
    All,
}

/// A report's output format.
#[derive(Clone, Copy, Debug, PartialEq, Eq)]
pub enum Output {
    /// Lines of text.
    Text,
    /// `--json`: a line of JSON.
    Json,
}

/// How `apply` corrects a recording.
#[derive(Clone, Copy, Debug, PartialEq, Eq)]
pub enum Turn {
    /// `apply`: the recording's estimated frequency offset is corrected.
    AsEstimated,
    /// `apply M`: the mean is subtracted, and the frequency is shifted by M steps of 117.1875 Hz, -2,048 to 2,047.
    Steps(i16),
}

/// A page about a program.
#[derive(Clone, Copy, Debug, PartialEq, Eq)]
pub enum Page {
    /// `help`, also `--help` and `-h`: the program's command forms.
    Help,
    /// `version`, also `--version` and `-V`: the versions of the program and of the cell list's definition.
    Version,
}

impl Form {
    /// Returns the form of `program` that `words` select, or `None` if they select none.
    pub fn of(program: Program, words: &Words) -> Option<Form>
        ensures some { IfSome result (IsWordsOf program words.now) }
        ensures none { IsNone result → IsNoForm program words.now }
    {
        match program {
            Program::Receiver => of_receiver(words.texts()),
            Program::Tuner => of_tuner(words.texts()),
        }
    }
}

// Returns the form of `lte_cli` that `words` select, if any.
fn of_receiver(words: &[String]) -> Option<Form>
    ensures some { IfSome result (IsWordsOf Receiver (map string_bytes words.now)) }
    ensures none { IsNone result → IsNoForm Receiver (map string_bytes words.now) }
{
    if let Some((output, recording)) = report_parts(words, "hits") {
        Some(Form::Report(Report::Hits, output, recording))
    } else if let Some((output, recording)) = report_parts(words, "ids") {
        Some(Form::Report(Report::Ids, output, recording))
    } else if let Some((span, output, recording)) = deep_parts(words) {
        Some(Form::Report(Report::Deep(span), output, recording))
    } else if let Some((rule, output, recording)) = search_parts(words) {
        Some(Form::Report(Report::Search(rule), output, recording))
    } else if let Some((lists, output, recording)) = evidence_parts(words) {
        Some(Form::Report(Report::Evidence(lists), output, recording))
    } else if let Some((id, carrier, output, recording)) = why_parts(words) {
        Some(Form::Report(Report::Why(id, carrier), output, recording))
    } else if let Some((carrier, recording)) = certify_parts(words) {
        Some(Form::Certify(carrier, recording))
    } else if is_only(words, "check") {
        Some(Form::Check)
    } else if let Some((carrier, load)) = transmit_parts(words) {
        Some(Form::Transmit(carrier, load))
    } else if let Some((carrier, n)) = make_parts(words) {
        Some(Form::Make(carrier, n))
    } else {
        let page = page_of(words)?;
        Some(Form::Print(Program::Receiver, page))
    }
}

// Returns the form of `lte_tune` that `words` select, if any.
fn of_tuner(words: &[String]) -> Option<Form>
    ensures some { IfSome result (IsWordsOf Tuner (map string_bytes words.now)) }
    ensures none { IsNone result → IsNoForm Tuner (map string_bytes words.now) }
{
    if let Some((output, recording)) = report_parts(words, "tell") {
        Some(Form::Report(Report::Tell, output, recording))
    } else if let Some((turn, recording)) = apply_parts(words) {
        Some(Form::Apply(turn, recording))
    } else {
        let page = page_of(words)?;
        Some(Form::Print(Program::Tuner, page))
    }
}

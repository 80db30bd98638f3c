//! Why a cell identity is in a cell list, or is not.

ghost use Rattle.std.specs.Prelude.{◌≡◌, IfOk, string_bytes};
ghost use Rattle.evidence.specs.Receivers.{receiver_of};
ghost use Rattle.reasons.specs.Reason.{IsReasonFor};
ghost use Rattle.lte_top.specs.Why.{IsWhy, why_text as text_of};

use crate::reporting::line_of;
use explain::OnePort;
use four_ports::FourPorts;
use long_prefix::ExtendedPrefix;
use lte_args::Output;
use lte_types::{Carrier, CellId};
use reason_report::{json_of_reasons, text_of_reasons};
use reasons::{Reason, reasons_by};
use sample_file::Recording;
use std::alloc::{AllocError, Global};
use two_ports::TwoPorts;

// Returns the report on why identity `id` is in the list for transmission scheme `carrier`, or is not.
pub(crate) fn why_text(
    alloc: Global,
    id: CellId,
    carrier: Carrier,
    output: Output,
    recording: &Recording,
) -> Result<String, AllocError>
    ensures { IfOk result (λ text. IsWhy id carrier output recording.now (string_bytes text)) }
{
    let reasons = reasons_of(alloc, carrier, recording, id)?;
    written(alloc, id, carrier, output, &reasons)
}

// Returns the reasons why identity `id` is in the list for transmission scheme `carrier`, or is not.
fn reasons_of(
    alloc: Global,
    carrier: Carrier,
    recording: &Recording,
    id: CellId,
) -> Result<Vec<Reason>, AllocError>
    ensures { IfOk result (λ reasons. IsReasonFor (receiver_of carrier) recording.now id reasons.items) }
{
    match carrier {
        Carrier::OnePort => reasons_by(alloc, &OnePort, recording, id),
        Carrier::TwoPorts => reasons_by(alloc, &TwoPorts, recording, id),
        Carrier::LongPrefix => reasons_by(alloc, &ExtendedPrefix, recording, id),
        Carrier::FourPorts => reasons_by(alloc, &FourPorts, recording, id),
    }
}

// Returns the reasons as text or as a line of JSON.
fn written(
    alloc: Global,
    id: CellId,
    carrier: Carrier,
    output: Output,
    reasons: &[Reason],
) -> Result<String, AllocError>
    ensures { IfOk result (λ text. string_bytes text ≡ text_of output id carrier reasons.now) }
{
    match output {
        Output::Text => text_of_reasons(alloc, id, carrier, reasons),
        Output::Json => line_of(json_of_reasons(alloc, id, carrier, reasons)?),
    }
}

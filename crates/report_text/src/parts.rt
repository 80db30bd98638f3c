//! Parts of a report's lines, built from words and numbers.

ghost use Rattle.std.specs.Prelude.{◌≡◌, IfOk, string_bytes};
ghost use Rattle.report_text.specs.Lines.{place_part as place_of, block_part as block_of, access_part as access_of};
ghost use Rattle.report_text.specs.Lines.{group_part as group_of, level_part as level_of, window_part as window_of};
ghost use Rattle.report_text.specs.Lines.{network_line as network_of, schedule_line as schedule_of};

use std::alloc::{AllocError, Global};
use std::fmt::Write;

/// Returns the part with a cell's identity, frame start, frame number and antenna port count.
pub(crate) fn place_part(
    alloc: Global,
    id: u16,
    start: u32,
    sfn: u16,
    ports: u8,
) -> Result<String, AllocError>
    ensures { IfOk result (λ part. string_bytes part ≡ place_of id start sfn ports) }
{
    format!(in alloc; "cell {id} at {start} sfn {sfn} ports {ports}")
}

/// Returns the part with a cell's MIB, from the words and numbers of its fields.
pub(crate) fn block_part(
    alloc: Global,
    bandwidth: &str,
    duration: &str,
    resource: &str,
    br: u8,
    spare: u8,
) -> Result<String, AllocError>
    ensures { IfOk result (λ part. string_bytes part ≡
        block_of bandwidth.now duration.now resource.now br spare) }
{
    format!(in alloc; " {bandwidth} phich {duration} {resource} br {br} spare {spare}\n")
}

/// Returns the part with the cell's tracking area code and identity, whether the cell is barred, and whether a terminal
/// may reselect other cells on its frequency.
pub(crate) fn access_part(
    alloc: Global,
    tac: u16,
    cell: u32,
    barred: &str,
    intra: &str,
) -> Result<String, AllocError>
    ensures { IfOk result (λ part. string_bytes part ≡ access_of tac cell barred.now intra.now) }
{
    format!(in alloc; "sib1 tac {tac} cell {cell} {barred} {intra}")
}

/// Returns the part with the cell's closed subscriber group: csg-Indication and csg-Identity.
pub(crate) fn group_part(alloc: Global, csg: &str, identity: &str) -> Result<String, AllocError>
    ensures { IfOk result (λ part. string_bytes part ≡ group_of csg.now identity.now) }
{
    format!(in alloc; " csg {csg} {identity}")
}

/// Returns the part with the levels for cell selection and the frequency band.
pub(crate) fn level_part(
    alloc: Global,
    level: i8,
    offset: &str,
    power: &str,
    band: u8,
) -> Result<String, AllocError>
    ensures { IfOk result (λ part. string_bytes part ≡ level_of level offset.now power.now band) }
{
    format!(in alloc; " rx {level} offset {offset} pmax {power} band {band}")
}

/// Returns the part with the window for system information, systemInfoValueTag, the TDD configuration, and whether an
/// extension follows.
pub(crate) fn window_part(
    alloc: Global,
    window: &str,
    tag: u8,
    tdd: &str,
    extension: &str,
) -> Result<String, AllocError>
    ensures { IfOk result (λ part. string_bytes part ≡ window_of window.now tag tdd.now extension.now) }
{
    format!(in alloc; " window {window} tag {tag} tdd {tdd} extension {extension}\n")
}

/// Returns the line of a network: its country code, its network code, and whether the cell is reserved for operator
/// use.
pub(crate) fn network_line(
    alloc: Global,
    mcc: &str,
    mnc: &str,
    reserved: &str,
) -> Result<String, AllocError>
    ensures { IfOk result (λ line. string_bytes line ≡ network_of mcc.now mnc.now reserved.now) }
{
    format!(in alloc; "plmn {mcc} {mnc} {reserved}\n")
}

/// Returns the line of a schedule entry: the period and the block codes of a system information message.
pub(crate) fn schedule_line(alloc: Global, period: &str, sibs: &str) -> Result<String, AllocError>
    ensures { IfOk result (λ line. string_bytes line ≡ schedule_of period.now sibs.now) }
{
    format!(in alloc; "si {period} {sibs}\n")
}

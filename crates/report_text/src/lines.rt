//! The lines of a cell list.

ghost use Rattle.std.specs.Prelude.{◌≡◌, ℕ, List, IfOk, string_bytes};
ghost use Rattle.report_text.specs.Lines.{cell_line as cell_line_of, block_part_of, none_line as none_line_of};
ghost use Rattle.report_text.specs.Lines.{access_part_of, group_part_of, level_part_of, window_part_of};
ghost use Rattle.report_text.specs.Lines.{sib1_line as sib1_line_of, sib1_lines as sib1_lines_of};
ghost use Rattle.report_text.specs.Lines.{plmn_line as plmn_line_of, message_line as message_line_of};

use crate::each::{ToLines, add_lines};
use crate::parts::{
    access_part, block_part, group_part, level_part, network_line, place_part, schedule_line,
    window_part,
};
use crate::words::{either, mcc_or_dash, or_dash, sibs_word, tdd_or_dash};
use lte_types::{Entry, Mib, Plmn, SiMessage, Sib1, Sib1Reason, period, window};
use report_parts::mnc_word;
use std::alloc::{AllocError, Global};
use std::fmt::Write;

/// Returns the line with a cell's identity, timing, antenna port count and MIB.
pub(crate) fn cell_line(alloc: Global, entry: &Entry) -> Result<String, AllocError>
    ensures { IfOk result (λ line. string_bytes line ≡ cell_line_of entry.now) }
{
    let id = entry.id.value();
    let sfn = entry.sfn.value();
    let mut line = place_part(alloc, id, entry.start, sfn, entry.ports)?;
    let block = mib_part(alloc, &entry.mib)?;
    line.push_str(&block)?;
    Ok(line)
}

fn mib_part(alloc: Global, mib: &Mib) -> Result<String, AllocError>
    ensures { IfOk result (λ part. string_bytes part ≡ block_part_of mib.now) }
{
    let bandwidth = mib.bandwidth.name();
    let duration = mib.duration.name();
    let resource = mib.resource.name();
    block_part(alloc, bandwidth, duration, resource, mib.br(), mib.rest())
}

/// Returns the line with the reason why a cell has no system information.
pub(crate) fn none_line(alloc: Global, reason: Sib1Reason) -> Result<String, AllocError>
    ensures { IfOk result (λ line. string_bytes line ≡ none_line_of reason) }
{
    format!(in alloc; "sib1 none {reason}\n")
}

/// Returns the lines for a cell's system information.
pub(crate) fn sib1_lines(alloc: Global, sib1: &Sib1) -> Result<String, AllocError>
    ensures { IfOk result (λ text. string_bytes text ≡ sib1_lines_of sib1.now) }
{
    let mut text = sib1_line(alloc, sib1)?;
    add_lines(alloc, sib1.plmns.slice(), &mut text)?;
    add_lines(alloc, sib1.scheduling.slice(), &mut text)?;
    Ok(text)
}

fn sib1_line(alloc: Global, sib1: &Sib1) -> Result<String, AllocError>
    ensures { IfOk result (λ line. string_bytes line ≡ sib1_line_of sib1.now) }
{
    let mut line = access_of_cell(alloc, sib1)?;
    let group = group_of_cell(alloc, sib1)?;
    line.push_str(&group)?;
    let levels = levels_of_cell(alloc, sib1)?;
    line.push_str(&levels)?;
    let timing = timing_of_cell(alloc, sib1)?;
    line.push_str(&timing)?;
    Ok(line)
}

fn access_of_cell(alloc: Global, sib1: &Sib1) -> Result<String, AllocError>
    ensures { IfOk result (λ part. string_bytes part ≡ access_part_of sib1.now) }
{
    let barred = either(sib1.barred, "barred", "open");
    let intra = either(sib1.intra, "allowed", "forbidden");
    access_part(alloc, sib1.tac, sib1.cell, barred, intra)
}

fn group_of_cell(alloc: Global, sib1: &Sib1) -> Result<String, AllocError>
    ensures { IfOk result (λ part. string_bytes part ≡ group_part_of sib1.now) }
{
    let csg = either(sib1.csg, "1", "0");
    let identity = or_dash(alloc, sib1.csg_identity)?;
    group_part(alloc, csg, identity.as_str())
}

fn levels_of_cell(alloc: Global, sib1: &Sib1) -> Result<String, AllocError>
    ensures { IfOk result (λ part. string_bytes part ≡ level_part_of sib1.now) }
{
    let offset = or_dash(alloc, sib1.q_offset)?;
    let power = or_dash(alloc, sib1.p_max)?;
    level_part(alloc, sib1.q_rx, offset.as_str(), power.as_str(), sib1.band)
}

fn timing_of_cell(alloc: Global, sib1: &Sib1) -> Result<String, AllocError>
    ensures { IfOk result (λ part. string_bytes part ≡ window_part_of sib1.now) }
{
    let window = window::name(sib1.window);
    let tdd = tdd_or_dash(alloc, sib1.tdd)?;
    let extension = either(sib1.extended, "1", "0");
    window_part(alloc, window, sib1.tag, tdd.as_str(), extension)
}

// The line of a network.
impl ToLines for Plmn {
    ghost lines_of = { plmn_line_of };

    fn to_lines(&self, alloc: Global) -> Result<String, AllocError> {
        let mcc = mcc_or_dash(alloc, &self.mcc)?;
        let mnc = mnc_word(alloc, &self.mnc)?;
        let reserved = either(self.reserved, "reserved", "free");
        network_line(alloc, mcc.as_str(), mnc.as_str(), reserved)
    }
}

// The line of a schedule entry.
impl ToLines for SiMessage {
    ghost lines_of = { message_line_of };

    fn to_lines(&self, alloc: Global) -> Result<String, AllocError> {
        let sibs = sibs_word(alloc, self.sibs.slice())?;
        schedule_line(alloc, period::name(self.period), sibs.as_str())
    }
}

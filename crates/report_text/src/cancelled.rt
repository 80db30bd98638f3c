//! The lines for a cancelled cell.

ghost use Rattle.std.specs.Prelude.{◌≡◌, IfOk, string_bytes};
ghost use Rattle.report_text.specs.Cancelled.{cancelled_line as cancelled_of, gain_part as gain_of, power_line as power_of};
ghost use Rattle.report_text.specs.Cancelled.{cancelled_lines, cancelled_none};

use cs_num::Gain;
use std::alloc::{AllocError, Global};
use std::fmt::Write;

/// Returns the two lines for a cancelled cell. `greatest` is the largest component magnitude of the residual, and
/// `powers` are the recording's power before and after cancellation. Fails only if an allocation fails. (own)
pub fn text_of_cancelled(
    alloc: Global,
    id: u16,
    gain: Gain,
    greatest: u32,
    powers: (u64, u64),
) -> Result<String, AllocError>
    ensures { IfOk result (λ text. string_bytes text ≡ cancelled_lines id gain greatest powers.0 powers.1) }
{
    let mut text = cancelled_line(alloc, id, gain, greatest)?;
    let line = power_line(alloc, powers.0, powers.1)?;
    text.push_str(&line)?;
    Ok(text)
}

// Returns the line with the cell identity, the gain and the largest component magnitude of the residual.
fn cancelled_line(alloc: Global, id: u16, gain: Gain, greatest: u32) -> Result<String, AllocError>
    ensures { IfOk result (λ line. string_bytes line ≡ cancelled_of id gain greatest) }
{
    let mut line = format!(in alloc; "cancelled {id}")?;
    let gain = gain_part(alloc, gain)?;
    let rest = format!(in alloc; " residue {greatest}\n")?;
    line.push_str(&gain)?;
    line.push_str(&rest)?;
    Ok(line)
}

fn gain_part(alloc: Global, gain: Gain) -> Result<String, AllocError>
    ensures { IfOk result (λ part. string_bytes part ≡ gain_of gain) }
{
    let (re, im) = (gain.re(), gain.im());
    format!(in alloc; " gain {re} {im}")
}

// Returns the line with the recording's power before and after cancellation.
fn power_line(alloc: Global, before: u64, after: u64) -> Result<String, AllocError>
    ensures { IfOk result (λ line. string_bytes line ≡ power_of before after) }
{
    format!(in alloc; "power {before} {after}\n")
}

/// Returns the line that reports that no cell can be cancelled. Fails only if an allocation fails. (own)
pub fn text_of_cancelled_none(alloc: Global) -> Result<String, AllocError>
    ensures { IfOk result (λ text. string_bytes text ≡ cancelled_none) }
{
    format!(in alloc; "cancelled none\n")
}

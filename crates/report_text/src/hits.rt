//! The text of PSS detections (hits).

ghost use Rattle.std.specs.Prelude.{◌≡◌, ℕ, List, IfOk, string_bytes};
ghost use Rattle.report_text.specs.Hits.{hits_text, hit_line, root_line, place_line, id_line, ids_text};

use crate::each::{ToLines, add_lines};
use hit_details::IdentifiedHit;
use lte_types::Hit;
use std::alloc::{AllocError, Global};
use std::fmt::Write;

/// Returns the text of `hits`: a line with their number, then a line for each with its sample and identity within the
/// group. Fails only if an allocation fails. (own)
pub fn text_of_hits(alloc: Global, hits: &[Hit]) -> Result<String, AllocError>
    ensures { IfOk result (λ text. string_bytes text ≡ hits_text hits.now) }
{
    let mut text = format!(in alloc; "hits {}\n", hits.len())?;
    add_lines(alloc, hits, &mut text)?;
    Ok(text)
}

/// Returns the text of identified `hits`: a line with their number, then a line for each with its sample, cell
/// identity, subframe (0 or 5) and frame start. Fails only if an allocation fails. (own)
pub fn text_of_ids(alloc: Global, hits: &[IdentifiedHit]) -> Result<String, AllocError>
    ensures { IfOk result (λ text. string_bytes text ≡ ids_text hits.now) }
{
    let mut text = format!(in alloc; "ids {}\n", hits.len())?;
    add_lines(alloc, hits, &mut text)?;
    Ok(text)
}

// The line of a hit.
impl ToLines for Hit {
    ghost lines_of = { hit_line };

    fn to_lines(&self, alloc: Global) -> Result<String, AllocError> {
        line_of_root(alloc, self.t, self.n2)
    }
}

// The line of an identified hit.
impl ToLines for IdentifiedHit {
    ghost lines_of = { id_line };

    fn to_lines(&self, alloc: Global) -> Result<String, AllocError> {
        let id = self.id.value();
        let subframe = self.half.subframe();
        line_of_place(alloc, self.hit.t, id, subframe, self.start)
    }
}

// Returns a line with a hit's sample and its identity within the group.
fn line_of_root(alloc: Global, t: u32, n2: u8) -> Result<String, AllocError>
    ensures { IfOk result (λ line. string_bytes line ≡ root_line t n2) }
{
    format!(in alloc; "{t} {n2}\n")
}

// Returns a line with a hit's sample, cell identity, subframe and frame start.
fn line_of_place(
    alloc: Global,
    t: u32,
    id: u16,
    subframe: u8,
    start: u32,
) -> Result<String, AllocError>
    ensures { IfOk result (λ line. string_bytes line ≡ place_line t id subframe start) }
{
    format!(in alloc; "{t} {id} {subframe} {start}\n")
}

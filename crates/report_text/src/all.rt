//! A recording's texts for all transmission schemes, as one text.

ghost use Rattle.std.specs.Prelude.{◌≡◌, ℕ, IfOk, List, length, map, string_bytes};
ghost use Rattle.lte_types.specs.Carrier.{carriers};
ghost use Rattle.report_text.specs.All.{rule_line as line_of, ruled_text as text_of, ruled_texts, all_text};
ghost use Rattle.report_text.specs.Lines.{report_text};

use crate::listing::text;
use explain::EntryList;
use lte_types::{Carrier, Entry};
use report_parts::rule_word;
use std::alloc::{AllocError, Global};
use std::fmt::Write;

/// Returns the text of the `lists` for all transmission schemes, in the order of `Carrier::ALL`: for each a line with
/// its rule, then the list as in `text`. Fails only if an allocation fails. (own)
pub fn text_of_all(alloc: Global, lists: &[EntryList]) -> Result<String, AllocError>
    requires { length lists.now ≡ length carriers }
    ensures { (of : Carrier → List Entry) → lists.now ≡ map of carriers →
        IfOk result (λ text. string_bytes text ≡ all_text of) }
{
    let texts = list_texts(alloc, lists)?;
    text_of_ruled(alloc, &texts)
}

/// Returns the `texts` for all transmission schemes, in the order of `Carrier::ALL`, as one text: for each a line with
/// its rule, then the text. Fails only if an allocation fails. (own)
pub fn text_of_ruled(alloc: Global, texts: &[String]) -> Result<String, AllocError>
    requires { length texts.now ≡ length carriers }
    ensures { (of : Carrier → List ℕ) → map string_bytes texts.now ≡ map of carriers →
        IfOk result (λ text. string_bytes text ≡ ruled_texts of) }
{
    let mut all = String::new(alloc);
    for (carrier, text) in Carrier::ALL.iter().zip(texts) {
        let lines = ruled_text(alloc, *carrier, text)?;
        all.push_str(&lines)?;
    }
    Ok(all)
}

// Returns the text of each cell list.
fn list_texts(alloc: Global, lists: &[EntryList]) -> Result<Vec<String>, AllocError>
    ensures { IfOk result (λ texts. map string_bytes texts.items ≡ map report_text lists.now) }
{
    let mut texts = Vec::new(alloc);
    for list in lists {
        texts.push(text(alloc, list.slice())?)?;
    }
    Ok(texts)
}

// Returns a text under a line with its rule.
fn ruled_text(alloc: Global, rule: Carrier, text: &str) -> Result<String, AllocError>
    ensures { IfOk result (λ lines. string_bytes lines ≡ text_of rule text.now) }
{
    let mut lines = rule_line(alloc, rule_word(rule))?;
    lines.push_str(text)?;
    Ok(lines)
}

fn rule_line(alloc: Global, word: &str) -> Result<String, AllocError>
    ensures { IfOk result (λ line. string_bytes line ≡ line_of word.now) }
{
    format!(in alloc; "rule {word}\n")
}

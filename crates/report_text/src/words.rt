//! The words in a text report.

ghost use Rattle.std.specs.Prelude.{◌≡◌, ◌∷◌, ℕ, List, Some, IfOk, string_bytes};
ghost use Rattle.report_parts.specs.Words.{digits_word as digits_of};
ghost use Rattle.report_text.specs.Words.{or_dash as word_or_dash, either as either_of, tdd_word as config_of};
ghost use Rattle.report_text.specs.Words.{sibs_word as sibs_of};

use report_parts::digits_word;
use std::alloc::{AllocError, Global};
use std::fmt::{Display, Write};

/// Returns `yes` if `flag` is true, otherwise `no`.
pub(crate) fn either(flag: bool, yes: &'static str, no: &'static str) -> &'static str
    ensures { result.now ≡ either_of flag yes.now no.now }
{
    if flag { yes } else { no }
}

/// Returns the text of a value, or a dash if it is absent.
pub(crate) fn or_dash<T: Display + Drop>(
    alloc: Global,
    value: Option<T>,
) -> Result<String, AllocError>
    ensures { (text_of : T → List ℕ) → ((x : T) → T.output x ≡ Some (text_of x)) →
        IfOk result (λ text. string_bytes text ≡ word_or_dash text_of value) }
{
    match value {
        Some(value) => format!(in alloc; "{value}"),
        None => String::from_str(alloc, "-"),
    }
}

/// Returns the two numbers of a TDD configuration, separated by a slash, or a dash if it is absent.
pub(crate) fn tdd_or_dash(alloc: Global, tdd: Option<(u8, u8)>) -> Result<String, AllocError>
    ensures { IfOk result (λ text. string_bytes text ≡ word_or_dash config_of tdd) }
{
    match tdd {
        Some((first, second)) => format!(in alloc; "{first}/{second}"),
        None => String::from_str(alloc, "-"),
    }
}

/// Returns the three digits of a mobile country code, or a dash if it is absent.
pub(crate) fn mcc_or_dash(alloc: Global, mcc: &Option<[u8; 3]>) -> Result<String, AllocError>
    ensures { IfOk result (λ text. string_bytes text ≡ word_or_dash digits_of mcc.now) }
{
    match mcc {
        Some(digits) => digits_word(alloc, digits),
        None => String::from_str(alloc, "-"),
    }
}

/// Returns system information block codes separated by commas, or a dash if there are none.
pub(crate) fn sibs_word(alloc: Global, sibs: &[u8]) -> Result<String, AllocError>
    ensures { IfOk result (λ text. string_bytes text ≡ sibs_of sibs.now) }
{
    match sibs {
        [] => String::from_str(alloc, "-"),
        [first, rest @ ..] => joined(alloc, *first, rest),
    }
}

// Returns the block codes `first` and `rest`, separated by commas.
fn joined(alloc: Global, first: u8, rest: &[u8]) -> Result<String, AllocError>
    ensures { IfOk result (λ text. string_bytes text ≡ sibs_of (first ∷ rest.now)) }
{
    let mut text = format!(in alloc; "{first}")?;
    for code in rest {
        let word = format!(in alloc; ",{}", *code)?;
        text.push_str(&word)?;
    }
    Ok(text)
}

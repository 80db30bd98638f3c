//! The text of the answers to certificates.

ghost use Rattle.std.specs.Prelude.{◌≡◌, IfOk, string_bytes};
ghost use Rattle.report_text.specs.Answers.{answer_line, check_text};

use std::alloc::{AllocError, Global};
use std::fmt::Write;

/// Returns the text of the `answers` to certificates: a line with their number, then a line for each with the
/// certificate's index from 0 and `yes` or `no`. Fails only if an allocation fails. (own)
pub fn text_of_answers(alloc: Global, answers: &[bool]) -> Result<String, AllocError>
    ensures { IfOk result (λ text. string_bytes text ≡ check_text answers.now) }
{
    let mut text = format!(in alloc; "certificates {}\n", answers.len())?;
    for (number, answer) in answers.iter().enumerate() {
        let line = line_of_answer(alloc, number, *answer)?;
        text.push_str(&line)?;
    }
    Ok(text)
}

// Returns the line with a certificate's index and the answer to it.
fn line_of_answer(alloc: Global, number: usize, answer: bool) -> Result<String, AllocError>
    ensures { IfOk result (λ line. string_bytes line ≡ answer_line number answer) }
{
    if answer {
        format!(in alloc; "{number} yes\n")
    } else {
        format!(in alloc; "{number} no\n")
    }
}

//! Parsers for the parts of a command form. Each parser reads the arguments that the previous part leaves, and no
//! arguments may remain after the last part.

ghost use Rattle.std.specs.Prelude.{◌≡◌, ◌↔◌, ◌<◌, ◌≤◌, ◌^◌, ℕ, Option, Some, List, [], ◌∷◌, ◌++◌, map, IfSome};
ghost use Rattle.std.specs.Prelude.{IsNone, IsTrue, codes, string_bytes};
ghost use Rattle.std.specs.Fmt.{decimal};
ghost use Rattle.lte_args.specs.declared.form.Rate.{Rate as RateValue};
ghost use Rattle.lte_args.specs.declared.form.RecordingForm.{RecordingForm as RecordingFormValue};
ghost use Rattle.lte_types.specs.declared.carrier.Carrier.{Carrier as CarrierValue};
ghost use Rattle.lte_args.specs.declared.form.Lists.{Lists as ListsValue};
ghost use Rattle.lte_args.specs.declared.form.Output.{Output as OutputValue};
ghost use Rattle.lte_args.specs.declared.form.Page.{Page as PageValue};
ghost use Rattle.lte_args.specs.declared.form.Rule.{Rule as RuleValue};
ghost use Rattle.lte_args.specs.declared.form.Span.{Span as SpanValue};
ghost use Rattle.lte_args.specs.declared.form.Turn.{Turn as TurnValue};
ghost use Rattle.lte_args.specs.Words.{samples_words, rate_words, recording_words, output_words, rule_words};
ghost use Rattle.lte_args.specs.Words.{rate_word, carrier_words, lists_words, load_words, span_words, turn_words};
ghost use Rattle.lte_args.specs.Words.{BeginsWithNo, IsAskedLoad, IsAskedTurn, ArePageWords};

use crate::form::{Lists, Output, Page, Rate, RecordingForm, Rule, Span, Turn};
use crate::numbers::{identity_of, number_of, steps_of};
use lte_types::{Carrier, CellId};
use sample_file::SampleForm;

// ---- parts before the last: each parser returns a value and the remaining arguments

// Parses a list rule; the default is the list for one antenna port.
fn rule_in(words: &[String]) -> (Rule, &[String])
    ensures named { map string_bytes words.now ≡ rule_words result.0 ++ map string_bytes result.1.now }
    ensures unnamed { rule_words result.0 ≡ [] → BeginsWithNo rule_words (map string_bytes words.now) }
{
    if let Some(rest) = after(words, "--cancel") {
        (Rule::Cancel, rest)
    } else {
        let (lists, rest) = lists_in(words);
        (rule_of(lists), rest)
    }
}

// Returns the rule of `search` with the arguments of `lists`.
fn rule_of(lists: Lists) -> Rule
    ensures { rule_words result ≡ lists_words lists }
{
    match lists {
        Lists::Of(carrier) => Rule::Of(carrier),
        Lists::All => Rule::All,
    }
}

// Parses the lists that a report covers; the default is the list for one antenna port.
fn lists_in(words: &[String]) -> (Lists, &[String])
    ensures named { map string_bytes words.now ≡ lists_words result.0 ++ map string_bytes result.1.now }
    ensures unnamed { lists_words result.0 ≡ [] → BeginsWithNo lists_words (map string_bytes words.now) }
{
    if let Some(rest) = after(words, "--all") {
        (Lists::All, rest)
    } else {
        let (carrier, rest) = carrier_in(words);
        (Lists::Of(carrier), rest)
    }
}

// Parses a transmission scheme; the default is one antenna port.
fn carrier_in(words: &[String]) -> (Carrier, &[String])
    ensures named { map string_bytes words.now ≡ carrier_words result.0 ++ map string_bytes result.1.now }
    ensures unnamed { carrier_words result.0 ≡ [] → BeginsWithNo carrier_words (map string_bytes words.now) }
{
    if let Some(rest) = after_two(words, "--ports", "2") {
        (Carrier::TwoPorts, rest)
    } else if let Some(rest) = after_two(words, "--ports", "4") {
        (Carrier::FourPorts, rest)
    } else if let Some(rest) = after_two(words, "--prefix", "long") {
        (Carrier::LongPrefix, rest)
    } else {
        (Carrier::OnePort, words)
    }
}

// Parses the samples that `ids --deep` uses; the default is the first 170 ms.
fn span_in(words: &[String]) -> (Span, &[String])
    ensures named { map string_bytes words.now ≡ span_words result.0 ++ map string_bytes result.1.now }
    ensures unnamed { span_words result.0 ≡ [] → BeginsWithNo span_words (map string_bytes words.now) }
{
    match after(words, "all") {
        Some(rest) => (Span::All, rest),
        None => (Span::First, words),
    }
}

// Parses an output format; the default is text.
fn output_in(words: &[String]) -> (Output, &[String])
    ensures named { map string_bytes words.now ≡ output_words result.0 ++ map string_bytes result.1.now }
    ensures unnamed { output_words result.0 ≡ [] → BeginsWithNo output_words (map string_bytes words.now) }
{
    match after(words, "--json") {
        Some(rest) => (Output::Json, rest),
        None => (Output::Text, words),
    }
}

// Parses a sample format; the default is 16-bit samples.
fn samples_in(words: &[String]) -> (SampleForm, &[String])
    ensures named { map string_bytes words.now ≡ samples_words result.0 ++ map string_bytes result.1.now }
    ensures unnamed { samples_words result.0 ≡ [] → BeginsWithNo samples_words (map string_bytes words.now) }
{
    match after_two(words, "--format", "cu8") {
        Some(rest) => (SampleForm::Cu8, rest),
        None => (SampleForm::Ci16, words),
    }
}

// ---- last parts: each parser accepts all its arguments or returns `None`

// Parses an optional sample rate.
fn rate_of(words: &[String]) -> Option<Option<Rate>>
    ensures some { IfSome result (λ rate. map string_bytes words.now ≡ rate_words rate) }
    ensures none { IsNone result → (rate : Option RateValue) → map string_bytes words.now ≡ rate_words rate → ⊥ }
{
    if are_none(words) {
        return Some(None);
    }
    let words = after(words, "--rate")?;
    let rate = rate_named(words)?;
    Some(Some(rate))
}

// Parses the name of a sample rate, in million samples per second.
fn rate_named(words: &[String]) -> Option<Rate>
    ensures some { IfSome result (λ rate. map string_bytes words.now ≡ rate_word rate ∷ []) }
    ensures none { IsNone result → (rate : RateValue) → map string_bytes words.now ≡ rate_word rate ∷ [] → ⊥ }
{
    if is_only(words, "1.92") {
        Some(Rate::Times1)
    } else if is_only(words, "3.84") {
        Some(Rate::Times2)
    } else if is_only(words, "7.68") {
        Some(Rate::Times4)
    } else if is_only(words, "15.36") {
        Some(Rate::Times8)
    } else if is_only(words, "30.72") {
        Some(Rate::Times16)
    } else {
        None
    }
}

// Parses a recording's sample format and sample rate.
fn recording_of(words: &[String]) -> Option<RecordingForm>
    ensures some { IfSome result (λ form. map string_bytes words.now ≡ recording_words form) }
    ensures none { IsNone result → (form : RecordingFormValue) →
        map string_bytes words.now ≡ recording_words form → ⊥ }
{
    let (samples, words) = samples_in(words);
    let rate = rate_of(words)?;
    Some(RecordingForm { samples, rate })
}

// Parses an output format followed by a recording's form.
fn output_of(words: &[String]) -> Option<(Output, RecordingForm)>
    ensures some { IfSome result (λ parts.
        map string_bytes words.now ≡ output_words parts.0 ++ recording_words parts.1) }
    ensures none { IsNone result → (output : OutputValue) (form : RecordingFormValue) →
        map string_bytes words.now ≡ output_words output ++ recording_words form → ⊥ }
{
    let (output, words) = output_in(words);
    let recording = recording_of(words)?;
    Some((output, recording))
}

// Parses a transmission scheme that no further arguments follow.
fn carrier_of(words: &[String]) -> Option<Carrier>
    ensures some { IfSome result (λ carrier. map string_bytes words.now ≡ carrier_words carrier) }
    ensures none { IsNone result → (carrier : CarrierValue) → map string_bytes words.now ≡ carrier_words carrier → ⊥ }
{
    let (carrier, words) = carrier_in(words);
    if are_none(words) { Some(carrier) } else { None }
}

// Parses an optional 32-bit load number without leading zeros.
fn load_of(words: &[String]) -> Option<Option<u32>>
    ensures some { IfSome result (λ load. IsAskedLoad load × (map string_bytes words.now ≡ load_words load)) }
    ensures none { IsNone result → (load : Option ℕ) → IsAskedLoad load →
        map string_bytes words.now ≡ load_words load → ⊥ }
{
    if are_none(words) {
        return Some(None);
    }
    let words = after(words, "--load")?;
    let (text, left) = words.split_first()?;
    let n = number_of(text.as_str())?;
    if are_none(left) { Some(Some(n)) } else { None }
}

// ---- a command's parts

// Parses the report `command`: its output format and recording form.
pub(crate) fn report_parts(words: &[String], command: &str) -> Option<(Output, RecordingForm)>
    ensures some { IfSome result (λ parts.
        map string_bytes words.now ≡ command.now ∷ output_words parts.0 ++ recording_words parts.1) }
    ensures none { IsNone result → (output : OutputValue) (form : RecordingFormValue) →
        map string_bytes words.now ≡ command.now ∷ output_words output ++ recording_words form → ⊥ }
{
    let words = after(words, command)?;
    output_of(words)
}

// Parses `ids --deep`: the samples that it uses, its output format and recording form.
pub(crate) fn deep_parts(words: &[String]) -> Option<(Span, Output, RecordingForm)>
    ensures some { IfSome result (λ parts. map string_bytes words.now ≡
        codes "ids" ∷ codes "--deep" ∷ span_words parts.0 ++ output_words parts.1 ++ recording_words parts.2) }
    ensures none { IsNone result → (span : SpanValue) (output : OutputValue) (form : RecordingFormValue) →
        map string_bytes words.now ≡
        codes "ids" ∷ codes "--deep" ∷ span_words span ++ output_words output ++ recording_words form → ⊥ }
{
    let words = after_two(words, "ids", "--deep")?;
    let (span, words) = span_in(words);
    let (output, recording) = output_of(words)?;
    Some((span, output, recording))
}

// Parses `search`: its rule, output format and recording form.
pub(crate) fn search_parts(words: &[String]) -> Option<(Rule, Output, RecordingForm)>
    ensures some { IfSome result (λ parts. map string_bytes words.now ≡
        codes "search" ∷ rule_words parts.0 ++ output_words parts.1 ++ recording_words parts.2) }
    ensures none { IsNone result → (rule : RuleValue) (output : OutputValue) (form : RecordingFormValue) →
        map string_bytes words.now ≡
        codes "search" ∷ rule_words rule ++ output_words output ++ recording_words form → ⊥ }
{
    let words = after(words, "search")?;
    let (rule, words) = rule_in(words);
    let (output, recording) = output_of(words)?;
    Some((rule, output, recording))
}

// Parses `evidence`: its lists, output format and recording form.
pub(crate) fn evidence_parts(words: &[String]) -> Option<(Lists, Output, RecordingForm)>
    ensures some { IfSome result (λ parts. map string_bytes words.now ≡
        codes "evidence" ∷ lists_words parts.0 ++ output_words parts.1 ++ recording_words parts.2) }
    ensures none { IsNone result → (lists : ListsValue) (output : OutputValue) (form : RecordingFormValue) →
        map string_bytes words.now ≡
        codes "evidence" ∷ lists_words lists ++ output_words output ++ recording_words form → ⊥ }
{
    let words = after(words, "evidence")?;
    let (lists, words) = lists_in(words);
    let (output, recording) = output_of(words)?;
    Some((lists, output, recording))
}

// Parses `why`: its cell identity, transmission scheme, output format and recording form.
pub(crate) fn why_parts(words: &[String]) -> Option<(CellId, Carrier, Output, RecordingForm)>
    ensures some { IfSome result (λ parts. (parts.0 ≤ 503) × (map string_bytes words.now ≡
        codes "why" ∷ decimal parts.0 ∷ carrier_words parts.1 ++ output_words parts.2 ++ recording_words parts.3)) }
    ensures none { IsNone result → (n : ℕ) (carrier : CarrierValue) (output : OutputValue) (form : RecordingFormValue) →
        n ≤ 503 → map string_bytes words.now ≡
        codes "why" ∷ decimal n ∷ carrier_words carrier ++ output_words output ++ recording_words form → ⊥ }
{
    let words = after(words, "why")?;
    let (text, words) = words.split_first()?;
    let id = identity_of(text.as_str())?;
    let (carrier, words) = carrier_in(words);
    let (output, recording) = output_of(words)?;
    Some((id, carrier, output, recording))
}

// Parses `certify`: its transmission scheme and recording form.
pub(crate) fn certify_parts(words: &[String]) -> Option<(Carrier, RecordingForm)>
    ensures some { IfSome result (λ parts.
        map string_bytes words.now ≡ codes "certify" ∷ carrier_words parts.0 ++ recording_words parts.1) }
    ensures none { IsNone result → (carrier : CarrierValue) (form : RecordingFormValue) →
        map string_bytes words.now ≡ codes "certify" ∷ carrier_words carrier ++ recording_words form → ⊥ }
{
    let words = after(words, "certify")?;
    let (carrier, words) = carrier_in(words);
    let recording = recording_of(words)?;
    Some((carrier, recording))
}

// Parses `transmit`: its transmission scheme and load.
pub(crate) fn transmit_parts(words: &[String]) -> Option<(Carrier, Option<u32>)>
    ensures some { IfSome result (λ parts. IsAskedLoad parts.1
        × (map string_bytes words.now ≡ codes "transmit" ∷ carrier_words parts.0 ++ load_words parts.1)) }
    ensures none { IsNone result → (carrier : CarrierValue) (load : Option ℕ) → IsAskedLoad load →
        map string_bytes words.now ≡ codes "transmit" ∷ carrier_words carrier ++ load_words load → ⊥ }
{
    let words = after(words, "transmit")?;
    let (carrier, words) = carrier_in(words);
    let load = load_of(words)?;
    Some((carrier, load))
}

// Parses `make`: its transmission scheme and 32-bit number.
pub(crate) fn make_parts(words: &[String]) -> Option<(Carrier, u32)>
    ensures some { IfSome result (λ parts.
        map string_bytes words.now ≡ codes "make" ∷ decimal parts.1 ∷ carrier_words parts.0) }
    ensures none { IsNone result → (carrier : CarrierValue) (n : ℕ) → n < 2 ^ 32 →
        map string_bytes words.now ≡ codes "make" ∷ decimal n ∷ carrier_words carrier → ⊥ }
{
    let words = after(words, "make")?;
    let (text, words) = words.split_first()?;
    let n = number_of(text.as_str())?;
    let carrier = carrier_of(words)?;
    Some((carrier, n))
}

// Parses `apply`: its optional phase step and its recording form.
pub(crate) fn apply_parts(words: &[String]) -> Option<(Turn, RecordingForm)>
    ensures some { IfSome result (λ parts. IsAskedTurn parts.0
        × (map string_bytes words.now ≡ codes "apply" ∷ turn_words parts.0 ++ recording_words parts.1)) }
    ensures none { IsNone result → (turn : TurnValue) (form : RecordingFormValue) → IsAskedTurn turn →
        map string_bytes words.now ≡ codes "apply" ∷ turn_words turn ++ recording_words form → ⊥ }
{
    let words = after(words, "apply")?;
    if let Some(recording) = recording_of(words) {
        Some((Turn::AsEstimated, recording))
    } else {
        let (text, words) = words.split_first()?;
        let m = steps_of(text.as_str())?;
        let recording = recording_of(words)?;
        Some((Turn::Steps(m), recording))
    }
}

// Parses the command of a page, or a synonym.
pub(crate) fn page_of(words: &[String]) -> Option<Page>
    ensures some { IfSome result (λ page. ArePageWords page (map string_bytes words.now)) }
    ensures none { IsNone result → (page : PageValue) → ArePageWords page (map string_bytes words.now) → ⊥ }
{
    if is_only(words, "help") || is_only(words, "--help") || is_only(words, "-h") {
        Some(Page::Help)
    } else if is_only(words, "version") || is_only(words, "--version") || is_only(words, "-V") {
        Some(Page::Version)
    } else {
        None
    }
}

// ---- single arguments

// Returns whether no arguments remain.
fn are_none(words: &[String]) -> bool
    ensures { IsTrue result ↔ (map string_bytes words.now ≡ []) }
{
    words.is_empty()
}

// Returns the arguments after the first if that is `word`.
fn after<'a>(words: &'a [String], word: &str) -> Option<&'a [String]>
    ensures some { IfSome result (λ rest. map string_bytes words.now ≡ word.now ∷ map string_bytes rest.now) }
    ensures none { IsNone result → (rest : List (List ℕ)) → map string_bytes words.now ≡ word.now ∷ rest → ⊥ }
{
    let (first, rest) = words.split_first()?;
    if first.as_str() == word {
        Some(rest)
    } else {
        None
    }
}

// Returns the arguments after the first two if those are `first` and `second`.
fn after_two<'a>(words: &'a [String], first: &str, second: &str) -> Option<&'a [String]>
    ensures some { IfSome result (λ rest.
        map string_bytes words.now ≡ first.now ∷ second.now ∷ map string_bytes rest.now) }
    ensures none { IsNone result → (rest : List (List ℕ)) →
        map string_bytes words.now ≡ first.now ∷ second.now ∷ rest → ⊥ }
{
    let words = after(words, first)?;
    after(words, second)
}

// Returns whether `word` is the only argument.
pub(crate) fn is_only(words: &[String], word: &str) -> bool
    ensures { IsTrue result ↔ (map string_bytes words.now ≡ word.now ∷ []) }
{
    match after(words, word) {
        Some(rest) => are_none(rest),
        None => false,
    }
}

//! Laws of the encodings.

ghost use Rattle.std.specs.Prelude.{◌≡◌, ◌↔◌, [], ◌++◌, Bool, true, List, Some, Result, Ok};
ghost use Rattle.lte_types.specs.declared.sib1.Sib1.{Sib1 as Fields};
ghost use Rattle.lte_types.specs.declared.sib1_reason.Sib1Reason.{Sib1Reason};
ghost use Rattle.lte_types.specs.Ranges.{IsValid};
ghost use Rattle.uper.specs.Texts.{IsText};
ghost use Rattle.sib1.specs.Layout.{sib1};
ghost use Rattle.sib1.specs.Message.{Says, Writes};
ghost use Rattle.sib1.specs.Text.{text_of};

/// A law: bits begin with the encoding of exactly one SIB1 or are refused for exactly one reason. Later bits are
/// ignored, fields are in range, `text_of` is a SIB1's only encoding, and `read` inverts `write`.
pub fn texts_and_bits()
    ensures one_answer { (bits : List Bool) (a b : Result Fields Sib1Reason)
        → Says bits a → Says bits b → a ≡ b }
    ensures some_answer { (bits : List Bool) → (answer : Result Fields Sib1Reason) × Says bits answer }
    ensures whatever_follows { (text more : List Bool) (fields : Fields)
        → IsText sib1 text fields → Says (text ++ more) (Ok fields) }
    ensures no_other { (text more : List Bool) (fields : Fields) (answer : Result Fields Sib1Reason)
        → IsText sib1 text fields → Says (text ++ more) answer → answer ≡ Ok fields }
    ensures one_text { (a b : List Bool) (fields : Fields)
        → IsText sib1 a fields → IsText sib1 b fields → a ≡ b }
    ensures no_front { (text more : List Bool) (fields other : Fields)
        → IsText sib1 text fields → IsText sib1 (text ++ more) other → (more ≡ []) × (other ≡ fields) }
    ensures text_is { (text : List Bool) (fields : Fields) → (text_of fields ≡ Some text) ↔ IsText sib1 text fields }
    ensures valid { (text : List Bool) (fields : Fields) → IsText sib1 text fields → IsValid fields }
    ensures written_is_read { (bits more : List Bool) (fields : Fields) (answer : Result Fields Sib1Reason)
        → Writes fields true bits → Says (bits ++ more) answer → answer ≡ Ok fields }
{}

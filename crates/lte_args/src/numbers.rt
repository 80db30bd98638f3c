//! Decimal numbers without leading zeros.

ghost use Rattle.std.specs.Prelude.{◌≡◌, ◌≢◌, ◌<◌, ◌≤◌, ◌^◌, ℕ, ℤ, IfSome, IsNone};
ghost use Rattle.std.specs.Fmt.{decimal, signed_decimal};
ghost use Rattle.lte_args.specs.Words.{IsTurn};

use itoa::Buffer;
use lte_types::CellId;

// Parses a 32-bit number without leading zeros.
pub(crate) fn number_of(text: &str) -> Option<u32>
    ensures some { IfSome result (λ n. text.now ≡ decimal n) }
    ensures none { IsNone result → (n : ℕ) → n < 2 ^ 32 → text.now ≡ decimal n → ⊥ }
{
    match text.parse::<u32>() {
        Ok(n) => exactly(n, text),
        Err(_) => None,
    }
}

// Returns `n` if `text` is its decimal form.
fn exactly(n: u32, text: &str) -> Option<u32>
    ensures some { IfSome result (λ same. (same ≡ n) × (text.now ≡ decimal n)) }
    ensures none { IsNone result → text.now ≢ decimal n }
{
    let mut digits = Buffer::new();
    if digits.format(n) == text {
        Some(n)
    } else {
        None
    }
}

// Parses a cell identity from 0 to 503 without leading zeros.
pub(crate) fn identity_of(text: &str) -> Option<CellId>
    ensures some { IfSome result (λ id. (id ≤ 503) × (text.now ≡ decimal id)) }
    ensures none { IsNone result → (n : ℕ) → n ≤ 503 → text.now ≡ decimal n → ⊥ }
{
    let n = number_of(text)?;
    if n <= 503 {
        CellId::new(n as u16)
    } else {
        None
    }
}

// Parses a phase step from -2,048 to 2,047 without leading zeros.
pub(crate) fn steps_of(text: &str) -> Option<i16>
    ensures some { IfSome result (λ m. IsTurn m × (text.now ≡ signed_decimal m)) }
    ensures none { IsNone result → (m : ℤ) → IsTurn m → text.now ≡ signed_decimal m → ⊥ }
{
    match text.parse::<i16>() {
        Ok(m) => exact_steps(m, text),
        Err(_) => None,
    }
}

// Returns `m` if it is in range and `text` is its decimal form.
fn exact_steps(m: i16, text: &str) -> Option<i16>
    ensures some { IfSome result (λ same. (same ≡ m) × IsTurn m × (text.now ≡ signed_decimal m)) }
    ensures none { IsNone result → IsTurn m → text.now ≢ signed_decimal m }
{
    let mut digits = Buffer::new();
    if -2048 <= m && m <= 2047 && digits.format(m) == text {
        Some(m)
    } else {
        None
    }
}

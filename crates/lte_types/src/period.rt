//! Periods of SI messages, by their si-Periodicity codes (TS 36.331 section 6.2.2).

ghost use Rattle.std.specs.Prelude.{◌≡◌, ◌≤◌, Some, IfSome};
ghost use Rattle.lte_types.specs.Codes.{period_word, period_frames, period_of};

/// Returns the standard's name for the SI period with code `code`, 0 to 6. For invalid codes, returns the name for 0.
pub fn name(code: u8) -> &'static str
    ensures { result.now ≡ period_word code }
{
    match code {
        1 => "rf16",
        2 => "rf32",
        3 => "rf64",
        4 => "rf128",
        5 => "rf256",
        6 => "rf512",
        _ => "rf8",
    }
}

/// Returns the length in frames, 8 to 512, of the SI period with code `code`, 0 to 6. For invalid codes, returns 8.
pub fn frames(code: u8) -> u16
    ensures value { result ≡ period_frames code }
    ensures back { code ≤ 6 → period_of result ≡ Some code }
{
    match code {
        1 => 16,
        2 => 32,
        3 => 64,
        4 => 128,
        5 => 256,
        6 => 512,
        _ => 8,
    }
}

/// Returns the code of an SI period of `frames` frames, or `None` if the standard has no such period.
pub fn code_of(frames: u16) -> Option<u8>
    ensures value { result ≡ period_of frames }
    ensures back { IfSome result (λ code. (code ≤ 6) × (period_frames code ≡ frames)) }
{
    match frames {
        8 => Some(0),
        16 => Some(1),
        32 => Some(2),
        64 => Some(3),
        128 => Some(4),
        256 => Some(5),
        512 => Some(6),
        _ => None,
    }
}

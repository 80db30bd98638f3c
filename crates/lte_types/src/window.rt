//! SI windows, by their si-WindowLength codes (TS 36.331 section 6.2.2).

ghost use Rattle.std.specs.Prelude.{◌≡◌, ◌≤◌, Some, IfSome};
ghost use Rattle.lte_types.specs.Codes.{window_word, window_length, window_of};

/// Returns the standard's name for the SI window with code `code`, 0 to 6. For invalid codes, returns the name for 0.
pub fn name(code: u8) -> &'static str
    ensures { result.now ≡ window_word code }
{
    match code {
        1 => "ms2",
        2 => "ms5",
        3 => "ms10",
        4 => "ms15",
        5 => "ms20",
        6 => "ms40",
        _ => "ms1",
    }
}

/// Returns the length in milliseconds, 1 to 40, of the SI window with code `code`, 0 to 6. For invalid codes, returns
/// 1.
pub fn milliseconds(code: u8) -> u8
    ensures value { result ≡ window_length code }
    ensures back { code ≤ 6 → window_of result ≡ Some code }
{
    match code {
        1 => 2,
        2 => 5,
        3 => 10,
        4 => 15,
        5 => 20,
        6 => 40,
        _ => 1,
    }
}

/// Returns the code of an SI window of `milliseconds`, or `None` if the standard has no such window.
pub fn code_of(milliseconds: u8) -> Option<u8>
    ensures value { result ≡ window_of milliseconds }
    ensures back { IfSome result (λ code. (code ≤ 6) × (window_length code ≡ milliseconds)) }
{
    match milliseconds {
        1 => Some(0),
        2 => Some(1),
        5 => Some(2),
        10 => Some(3),
        15 => Some(4),
        20 => Some(5),
        40 => Some(6),
        _ => None,
    }
}

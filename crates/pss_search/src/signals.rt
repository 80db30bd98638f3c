//! The samples and powers of the primary synchronisation signals.

ghost use Rattle.std.specs.Prelude.{◌≡◌, ◌<◌, ◌≤◌};
ghost use Rattle.finite.specs.Sizes.{AllWithin};
ghost use Rattle.pss_search.specs.Correlation.{wave_power};
ghost use Rattle.pss_search.specs.Products.{wave_part};

// The powers of the signals with roots 25, 29 and 34, each over 128 samples, and the samples of the first two: root
// 25's real and imaginary parts, then root 29's. The powers have 128 bits so that the samples begin at a multiple of 16
// bytes, where the processor can load eight at once.
struct Tables {
    powers: [u128; 3],
    parts: [[i16; 128]; 4],
}

static TABLES: Tables = Tables {
    powers: [1_996_394, 2_001_625, 2_001_665],
    parts: [
        [
            104, 27, -99, -112, -3, 101, 111, 49, -29, -89, -120, -126, -131, -141, -137, -116,
            -104, -85, -9, 105, 135, 30, -85, -75, 6, 20, -26, -12, 58, 44, -80, -154, -69, 69,
            122, 102, 97, 114, 107, 90, 98, 119, 119, 94, 36, -66, -145, -93, 53, 102, -14, -102,
            -10, 104, 24, -151, -139, 66, 185, 102, 3, 26, 47, -40, -107, -40, 47, 26, 3, 102, 185,
            66, -139, -151, 24, 104, -10, -102, -14, 102, 53, -93, -145, -66, 36, 94, 119, 119, 98,
            90, 107, 114, 97, 102, 122, 69, -69, -154, -80, 44, 58, -12, -26, 20, 6, -75, -85, 30,
            135, 105, -9, -85, -104, -116, -137, -141, -131, -126, -120, -89, -29, 49, 111, 101,
            -3, -112, -99, 27,
        ],
        [
            -72, -7, 69, 1, -134, -132, 21, 140, 117, 48, 35, 41, 0, -41, -12, 49, 70, 70, 100,
            104, 1, -141, -145, 8, 117, 37, -111, -116, 26, 122, 56, -81, -145, -119, -70, -31, 13,
            54, 67, 52, 36, 18, -26, -96, -144, -122, -34, 58, 82, 16, -77, -97, -20, 71, 69, -27,
            -121, -126, -53, 32, 86, 109, 112, 108, 105, 108, 112, 109, 86, 32, -53, -126, -121,
            -27, 69, 71, -20, -97, -77, 16, 82, 58, -34, -122, -144, -96, -26, 18, 36, 52, 67, 54,
            13, -31, -70, -119, -145, -81, 56, 122, 26, -116, -111, 37, 117, 8, -145, -141, 1, 104,
            100, 70, 70, 49, -12, -41, 0, 41, 35, 48, 117, 140, 21, -132, -134, 1, 69, -7,
        ],
        [
            -109, -51, 63, 133, 133, 120, 131, 120, 44, -47, -73, -43, -21, 1, 75, 149, 101, -50,
            -119, -19, 95, 55, -79, -138, -113, -110, -128, -80, 15, 38, -10, 0, 92, 147, 118, 101,
            132, 110, 5, -47, 24, 77, -13, -144, -161, -102, -80, -56, 53, 140, 43, -146, -171,
            -11, 74, -42, -164, -99, 48, 67, -39, -106, -57, 32, 73, 32, -57, -106, -39, 67, 48,
            -99, -164, -42, 74, -11, -171, -146, 43, 140, 53, -56, -80, -102, -161, -144, -13, 77,
            24, -47, 5, 110, 132, 101, 118, 147, 92, 0, -10, 38, 15, -80, -128, -110, -113, -138,
            -79, 55, 95, -19, -119, -50, 101, 149, 75, 1, -21, -43, -73, -47, 44, 120, 131, 120,
            133, 133, 63, -51,
        ],
        [
            68, 6, -94, -91, 22, 100, 30, -102, -119, 7, 112, 57, -87, -147, -90, -42, -81, -124,
            -73, 35, 96, 86, 62, 36, -19, -69, -29, 93, 158, 72, -71, -112, -26, 73, 104, 88, 52,
            -16, -91, -84, 37, 154, 139, 29, -21, 46, 120, 101, 35, 21, 55, 46, -33, -112, -129,
            -105, -71, -12, 75, 122, 68, -49, -119, -109, -87, -109, -119, -49, 68, 122, 75, -12,
            -71, -105, -129, -112, -33, 46, 55, 21, 35, 101, 120, 46, -21, 29, 139, 154, 37, -84,
            -91, -16, 52, 88, 104, 73, -26, -112, -71, 72, 158, 93, -29, -69, -19, 36, 62, 86, 96,
            35, -73, -124, -81, -42, -90, -147, -87, 57, 112, 7, -119, -102, 30, 100, 22, -91, -94,
            6,
        ],
    ],
};

// Returns list `part` of the samples: root 25's real and imaginary parts, then root 29's. Callers pass all four values,
// so none is known at compile time.
pub(crate) fn part_of(part: usize) -> &'static [i16; 128]
    requires { part < 4 }
    ensures value { result.now ≡ wave_part part }
    ensures small { AllWithin 255 result.now }
{
    &TABLES.parts[part]
}

// A primary signal: its identity within the group, 0 to 2, and its power.
#[derive(Clone, Copy)]
pub(crate) struct Root {
    pub n2: u8,
    pub power: u64,
    ghost known: { n2 ≤ 2 },
    ghost squares: { power ≡ wave_power n2 },
}

impl Root {
    pub(crate) fn new(n2: u8) -> Self
        requires { n2 ≤ 2 }
        ensures { result.n2 ≡ n2 }
    {
        let power = signal_power(n2);
        Root { n2, power }
    }
}

/// Returns the power of the primary signal for the identity `n2` within the group, 0 to 2: the sum of squared
/// magnitudes of its 128 samples, 1,990,000 to 2,001,665. (own)
pub fn signal_power(n2: u8) -> u64
    requires { n2 ≤ 2 }
    ensures value { result ≡ wave_power n2 }
    ensures least { 1990000 ≤ result }
    ensures few { result ≤ 2001665 }
{
    TABLES.powers[n2 as usize] as u64
}

//! Transport block sizes.

ghost use Rattle.std.specs.Prelude.{◌≡◌, ◌≤◌, ◌<◌};
ghost use Rattle.wide_grant.specs.Sizes.{size_1a as size_1a_of, size_1c as size_1c_of};

const COLUMN_2: [u16; 27] = [
    32, 56, 72, 104, 120, 144, 176, 224, 256, 296, 328, 376, 440, 488, 552, 600, 632, 696, 776,
    840, 904, 1000, 1064, 1128, 1192, 1256, 1480,
];

const COLUMN_3: [u16; 27] = [
    56, 88, 144, 176, 208, 224, 256, 328, 392, 456, 504, 584, 680, 744, 840, 904, 968, 1064, 1160,
    1288, 1384, 1480, 1608, 1736, 1800, 1864, 2216,
];

const SIZES_1C: [u16; 32] = [
    40, 56, 72, 120, 136, 144, 176, 208, 224, 256, 280, 296, 328, 336, 392, 488, 552, 600, 632,
    696, 776, 840, 904, 1000, 1064, 1128, 1224, 1288, 1384, 1480, 1608, 1736,
];

// Returns the size of format 1A for a scheme; `low` is the power control command's low bit.
pub(crate) fn size_1a(low: bool, mcs: u16) -> u16
    requires { mcs ≤ 26 }
    ensures { result ≡ size_1a_of low mcs }
{
    if low {
        COLUMN_3[mcs as usize]
    } else {
        COLUMN_2[mcs as usize]
    }
}

// Returns the size of format 1C for an index.
pub(crate) fn size_1c(index: u16) -> u16
    requires { index < 32 }
    ensures { result ≡ size_1c_of index }
{
    SIZES_1C[index as usize]
}

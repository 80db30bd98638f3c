//! Transport block sizes.

ghost use Rattle.std.specs.Prelude.{◌≡◌, ◌⊎◌, slice_get};
ghost use Rattle.dci.specs.Sizes.{size_of};

const COLUMN_2: [u16; 22] = [
    32, 56, 72, 104, 120, 144, 176, 224, 256, 296, 328, 376, 440, 488, 552, 600, 632, 696, 776,
    840, 904, 1000,
];

const COLUMN_3: [u16; 17] = [
    56, 88, 144, 176, 208, 224, 256, 328, 392, 456, 504, 584, 680, 744, 840, 904, 968,
];

/// Returns the transport block size in bits for a modulation and coding scheme and a column, 2 or 3. Returns `None` if
/// the table, which ends at 1,000 bits, has no entry.
pub fn size(mcs: u8, column: u8) -> Option<u16>
    requires { (column ≡ 2) ⊎ (column ≡ 3) }
    ensures { result ≡ size_of mcs column }
{
    if column == 2 {
        entry(&COLUMN_2, mcs)
    } else {
        entry(&COLUMN_3, mcs)
    }
}

// Returns the entry of `column` for the modulation and coding scheme `mcs`, if there is one.
fn entry(column: &[u16], mcs: u8) -> Option<u16>
    ensures { result ≡ slice_get column.now mcs }
{
    column.get(mcs as usize).copied()
}

//! Scrambling seeds per channel, and the PCFICH codewords.

ghost use Rattle.std.specs.Prelude.{◌≡◌, ◌*◌, ◌^◌, ◌<◌, ◌≤◌};
ghost use Rattle.grid_map.specs.Scrambling.{pbch_c_init, pcfich_c_init, pdcch_c_init, pdsch_c_init, indicator_bit};

use lte_types::CellId;

/// Returns `c_init` for the PBCH, which is scrambled over four frames (TS 36.211 section 6.6.1).
pub fn pbch_c_init(id: CellId) -> u32
    ensures value { result ≡ pbch_c_init id }
    ensures fits { result < 2 ^ 31 }
{
    id.value() as u32
}

/// Returns `c_init` for the PCFICH in the subframe of a slot, 0 to 19, for every bandwidth (TS 36.211 section 6.7.1).
pub fn pcfich_c_init(id: CellId, slot: u8) -> u32
    requires { slot < 20 }
    ensures value { result ≡ pcfich_c_init id slot }
    ensures fits { result < 2 ^ 31 }
{
    let identity = id.value() as u32;
    (slot as u32 / 2 + 1) * (2 * identity + 1) * 512 + identity
}

/// Returns `c_init` for the PDCCH in the subframe of a slot, 0 to 19, for every bandwidth (TS 36.211 section 6.8.2).
pub fn pdcch_c_init(id: CellId, slot: u8) -> u32
    requires { slot < 20 }
    ensures value { result ≡ pdcch_c_init id slot }
    ensures fits { result < 2 ^ 31 }
{
    slot as u32 / 2 * 512 + id.value() as u32
}

/// Returns `c_init` for the first codeword of the PDSCH for an RNTI in the subframe of a slot, 0 to 19, for every
/// bandwidth (TS 36.211 section 6.3.1).
pub fn pdsch_c_init(id: CellId, slot: u8, rnti: u16) -> u32
    requires { slot < 20 }
    ensures value { result ≡ pdsch_c_init id slot rnti }
    ensures fits { result < 2 ^ 31 }
{
    rnti as u32 * 16_384 + slot as u32 / 2 * 512 + id.value() as u32
}

/// Returns bit `i` of the 32-bit codeword for a control format indicator, 1 to 3 (TS 36.212 section 5.3.4).
pub fn indicator_bit(indicator: u8, i: usize) -> bool
    requires { 1 ≤ indicator }
    ensures { result ≡ indicator_bit indicator i }
{
    i % 3 != indicator as usize - 1
}

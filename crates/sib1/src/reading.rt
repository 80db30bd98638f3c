//! Decoding SystemInformationBlockType1.

ghost use Rattle.std.specs.Prelude.{◌≡◌, ◌≤◌, pos, ◌-ℤ◌, length, true, false, IfOk};
ghost use Rattle.lte_types.specs.Ranges.{IsValid};
ghost use Rattle.uper.specs.Grammar.{if_present};
ghost use Rattle.uper.specs.Reading.{Reads};
ghost use Rattle.sib1.specs.Layout.{cell_access_related_info, csg_identity, q_rx_lev_min_offset, cell_selection_info, p_max, tdd_config, sib1};
ghost use Rattle.sib1.specs.Message.{IsSib1, Says};

use crate::read_plmns::read_plmn_identity_list;
use crate::read_schedule::read_scheduling_info_list;
use lte_types::{CellAccessRelatedInfo, CellSelectionInfo, Sib1, Sib1Reason};
use uper::Reader;

fn read_csg_identity(reader: &mut Reader<'_>, present: bool) -> Result<Option<u32>, usize>
    ensures { Reads (if_present present csg_identity) reader.old result reader.new }
{
    if present {
        let identity = reader.number(27, 0, (1 << 27) - 1)?;
        Ok(Some(identity))
    } else {
        Ok(None)
    }
}

fn read_cell_access_related_info(reader: &mut Reader<'_>) -> Result<CellAccessRelatedInfo, usize>
    ensures { Reads cell_access_related_info reader.old result reader.new }
{
    let has_csg_identity = reader.flag()?;
    let plmns = read_plmn_identity_list(reader)?;
    let tac = reader.number(16, 0, 65535)?;
    let cell = reader.number(28, 0, (1 << 28) - 1)?;
    let not_barred = reader.flag()?;
    let not_allowed = reader.flag()?;
    let csg = reader.flag()?;
    let csg_identity = read_csg_identity(reader, has_csg_identity)?;
    Ok(CellAccessRelatedInfo {
        plmns,
        tac: tac as u16,
        cell,
        barred: !not_barred,
        intra: !not_allowed,
        csg,
        csg_identity,
    })
}

fn read_q_rx_lev_min_offset(reader: &mut Reader<'_>, present: bool) -> Result<Option<u8>, usize>
    ensures { Reads (if_present present q_rx_lev_min_offset) reader.old result reader.new }
{
    if present {
        let n = reader.number(3, 0, 7)?;
        Ok(Some(n as u8 + 1))
    } else {
        Ok(None)
    }
}

// Returns q-RxLevMin, in units of 2 dBm, for its encoded number.
fn q_rx_lev_min_of(number: u32) -> i8
    requires { number ≤ 48 }
    ensures { result ≡ pos number -ℤ pos 70 }
{
    number as i8 - 70
}

// Returns p-Max, in dBm, for its encoded number.
fn p_max_of(number: u32) -> i8
    requires { number ≤ 63 }
    ensures { result ≡ pos number -ℤ pos 30 }
{
    number as i8 - 30
}

fn read_cell_selection_info(reader: &mut Reader<'_>) -> Result<CellSelectionInfo, usize>
    ensures { Reads cell_selection_info reader.old result reader.new }
{
    let has_offset = reader.flag()?;
    let level = reader.number(6, 0, 48)?;
    let q_offset = read_q_rx_lev_min_offset(reader, has_offset)?;
    Ok(CellSelectionInfo {
        q_rx: q_rx_lev_min_of(level),
        q_offset,
    })
}

fn read_p_max(reader: &mut Reader<'_>, present: bool) -> Result<Option<i8>, usize>
    ensures { Reads (if_present present p_max) reader.old result reader.new }
{
    if present {
        let n = reader.number(6, 0, 63)?;
        Ok(Some(p_max_of(n)))
    } else {
        Ok(None)
    }
}

fn read_tdd_config(reader: &mut Reader<'_>, present: bool) -> Result<Option<(u8, u8)>, usize>
    ensures { Reads (if_present present tdd_config) reader.old result reader.new }
{
    if present {
        let assignment = reader.number(3, 0, 6)?;
        let patterns = reader.number(4, 0, 8)?;
        Ok(Some((assignment as u8, patterns as u8)))
    } else {
        Ok(None)
    }
}

fn read_fields(reader: &mut Reader<'_>) -> Result<Sib1, usize>
    ensures { Reads sib1 reader.old result reader.new }
{
    reader.number(1, 0, 0)?;
    reader.number(1, 1, 1)?;
    let has_p_max = reader.flag()?;
    let has_tdd = reader.flag()?;
    let extended = reader.flag()?;
    let access = read_cell_access_related_info(reader)?;
    let selection = read_cell_selection_info(reader)?;
    let p_max = read_p_max(reader, has_p_max)?;
    let band = reader.number(6, 0, 63)?;
    let scheduling = read_scheduling_info_list(reader)?;
    let tdd = read_tdd_config(reader, has_tdd)?;
    let window = reader.number(3, 0, 6)?;
    let tag = reader.number(5, 0, 31)?;
    Ok(Sib1 {
        plmns: access.plmns,
        tac: access.tac,
        cell: access.cell,
        barred: access.barred,
        intra: access.intra,
        csg: access.csg,
        csg_identity: access.csg_identity,
        q_rx: selection.q_rx,
        q_offset: selection.q_offset,
        p_max,
        band: band as u8 + 1,
        scheduling,
        tdd,
        window: window as u8,
        tag: tag as u8,
        extended,
    })
}

// Returns whether the first two bits identify SystemInformationBlockType1.
fn is_sib1(bits: &[bool]) -> bool
    ensures is { result ≡ true → IsSib1 bits.now }
    ensures is_other { result ≡ false → IsSib1 bits.now → ⊥ }
{
    matches!(bits, [false, true, ..])
}

/// Decodes SIB1 at the front of `bits`, at most 1,000 (TS 36.331 section 6.2.2). Later bits are ignored. Returns
/// `NotSib1` if the first two bits are not 0 and 1, otherwise `BadFields` with the first bad field's position.
pub fn read(bits: &[bool]) -> Result<Sib1, Sib1Reason>
    requires { length bits.now ≤ 1000 }
    ensures answer { Says bits.now result }
    ensures valid { IfOk result IsValid }
{
    if !is_sib1(bits) {
        return Err(Sib1Reason::NotSib1);
    }
    let mut reader = Reader::new(bits);
    match read_fields(&mut reader) {
        Ok(fields) => Ok(fields),
        Err(place) => Err(Sib1Reason::BadFields(place as u16)),
    }
}
